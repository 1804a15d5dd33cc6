// The fields of a case, read from its file one after the other. A case is the length of the input (4 bytes), the input, the length of the output, the output; of a number's bytes the lower comes first.
// How much is read depends on the file alone, never on what a call answers; so, where every field fits its buffer, the next case is read from where it begins also after one that disagrees.

#![tactic(auto)]

ghost use Rattle.std.specs.Prelude.{◌≡◌, ◌<◌, ◌≤◌, MatchResult, length};

use sheet::{Head, Refusal, Table};
use state::{State, StepKind};
use std::io::Read;

// The file has ended: no number of four bytes is this great.
pub const END: usize = 4294967296;

// More than the rows of any table take, and more than any case lends.
pub const SPACE: usize = 8192;

// What each byte of a lent buffer is before the call.
pub const BLANK: u8 = 170;

// How many cases of a file are tried at most.
const MOST: u64 = 100000;

// The call, its argument, and how many bytes of buffer to lend.
#[derive(Clone, Copy)]
pub struct Asked {
    pub call: u8,
    pub argument: usize,
    pub room: usize,
}

// A word and two values, 0 where it has none.
#[derive(Clone, Copy, PartialEq, Eq)]
pub struct Said {
    pub word: u8,
    pub x: usize,
    pub y: usize,
}

// What a step or a standing says where there is none.
pub const NOTHING: Said = Said {
    word: 0,
    x: 0,
    y: 0,
};

// Number and place of a refusal; 0 and 0 where nothing is refused.
pub type Refused = (u8, usize);

// An answer as a case has it: the refusal, and what is answered, which is of zeros where something is refused.
pub type Told<T> = (Refused, T);

// A file of cases. Where it ends, the bytes of a field are 0, a text is cut short, and a number of four bytes is END.
#[derive(Drop)]
pub struct Cases<R> {
    file: R,
}

impl<R: Read> Cases<R> {
    pub fn new(file: R) -> Cases<R> {
        Cases { file }
    }

    // How many cases agree, and how many there are; a case is told how long its input is.
    pub fn tally<Agrees: Fn(&mut Cases<R>, usize) -> bool>(&mut self, agrees: Agrees) -> (u64, u64)
        requires { Agrees.IsAlwaysCallable agrees }
        ensures { result.0 ≤ result.1 }
    {
        let mut agreed = 0;
        for tried in 0..MOST {
            let Some(size) = self.length() else {
                return (agreed, tried);
            };
            if agrees(self, size) {
                agreed += 1;
            }
        }
        (agreed, MOST)
    }

    fn bytes<const N: usize>(&mut self) -> [u8; N] {
        let mut bytes = [0; N];
        filling::fill_until_failure(&mut self.file, &mut bytes);
        bytes
    }

    pub fn byte(&mut self) -> u8 {
        self.bytes::<1>()[0]
    }

    pub fn two(&mut self) -> usize {
        u16::from_le_bytes(self.bytes()) as usize
    }

    // Nothing where the file ends before.
    fn length(&mut self) -> Option<usize> {
        let mut bytes = [0; 4];
        if filling::fill_until_failure(&mut self.file, &mut bytes).len() < 4 {
            return None;
        }
        Some(u32::from_le_bytes(bytes) as usize)
    }

    pub fn four(&mut self) -> usize {
        self.length().unwrap_or(END)
    }

    // The next text of that length, at the start of the buffer; nothing is read where it does not fit.
    pub fn text<'a>(&mut self, size: usize, buffer: &'a mut [u8]) -> &'a [u8]
        ensures { length result.now ≤ length buffer.old }
    {
        let fitting = if buffer.len() < size { 0 } else { size };
        filling::fill_until_failure(&mut self.file, &mut buffer[..fitting])
    }

    pub fn asked(&mut self) -> Asked {
        Asked {
            call: self.byte(),
            argument: self.four(),
            room: self.four(),
        }
    }

    // A state; each of its counts is one byte.
    pub fn state(&mut self) -> State {
        let mode = self.byte();
        let acts = self.byte();
        let unset = self.byte();
        let marks = self.bytes();
        let links = self.bytes();
        State {
            mode,
            marks,
            links,
            acts,
            unset,
        }
    }

    // The state that has to come back: that of the case; where something is refused, the one that was handed in.
    pub fn state_after(&mut self, number: u8, s: State) -> State
        ensures { (number ≡ 0 → ⊥) → result ≡ s }
    {
        if number == 0 { self.state() } else { s }
    }

    // A table, its rows in two buffers. Of a form (1 byte) and the length of names (2) this engine's tables know nothing: they are passed over.
    pub fn table<'a>(
        &mut self,
        terms: &'a mut [u8; SPACE],
        conditions: &'a mut [u8; SPACE],
    ) -> Table<'a> {
        let evaluation = self.byte();
        let m = self.two();
        let n = self.two();
        let k = self.two();
        self.byte();
        let terms_size = self.two();
        let conditions_size = self.two();
        self.two();
        Table {
            head: Head {
                evaluation,
                m,
                n,
                k,
            },
            terms: self.text(terms_size, terms),
            conditions: self.text(conditions_size, conditions),
        }
    }

    pub fn refusal(&mut self) -> Refused {
        (self.byte(), self.four())
    }

    // What a call that fills a lent buffer answers; the size is there on refusal too.
    pub fn size(&mut self) -> Told<usize> {
        (self.refusal(), self.four())
    }

    // A lent buffer, beside the bytes of the case.
    pub fn buffer_agrees(&mut self, out: &[u8]) -> bool {
        let mut buffer = [0; SPACE];
        self.text(out.len(), &mut buffer) == out
    }

    // The answer of a call that fills a lent buffer, with the buffer as the call left it.
    pub fn size_agrees(&mut self, answer: Result<usize, Refusal>, out: &[u8]) -> bool {
        let expected = self.size();
        let same = self.buffer_agrees(out);
        (told(answer, 0) == expected) & same
    }
}

// The first bytes; all of them where they are fewer.
pub fn first(s: &[u8], count: usize) -> &[u8] {
    &s[..count.min(s.len())]
}

// That much of a buffer; all of it where it is shorter.
pub fn lend(out: &mut [u8], room: usize) -> &mut [u8] {
    let room = room.min(out.len());
    &mut out[..room]
}

// An answer as a case has it.
pub fn told<T: Drop>(answer: Result<T, Refusal>, zeros: T) -> Told<T>
    ensures { MatchResult answer (λ value. result ≡ ((0, 0), value)) (λ refusal. result ≡ ((refusal.number, refusal.place), zeros)) }
{
    match answer {
        Ok(value) => ((0, 0), value),
        Err(refusal) => ((refusal.number, refusal.place), zeros),
    }
}

// What a step is: the words are 1 act, 2 set, 3 open, 4 clean.
pub fn step_said(step: StepKind) -> Said
    ensures { (0 < result.word) × (result.word ≤ 4) }
{
    let (word, x, y) = match step {
        StepKind::Act(activity) => (1, activity, 0),
        StepKind::Set(link, value) => (2, link, value),
        StepKind::Open => (3, 0, 0),
        StepKind::Clean => (4, 0, 0),
    };
    Said {
        word,
        x: x as usize,
        y: y as usize,
    }
}

pub fn same_state(a: State, b: State) -> bool {
    (a.mode == b.mode)
        & (a.acts == b.acts)
        & (a.unset == b.unset)
        & (a.marks == b.marks)
        & (a.links == b.links)
}
