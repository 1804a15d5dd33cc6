// The program's lines, each put on a page: a lent buffer, filled from a place on.

#![tactic(auto)]

ghost use Rattle.std.specs.Prelude.{◌≡◌, ◌≤◌, Ok, [], ◌∷◌, length};
ghost use Rattle.lines.specs.Page.{page, Puts};
ghost use Rattle.lines.specs.Lines.{decimal, feed, field, fields, named_line, step_line, verdict_line, refused_line, letter, letters, links_line, enabled_word, rows_line, wait_field, wait_fields, waiting_line, finished_line};

use sheet::Refusal;
use state::StepKind;
use verdict::Verdict;

// A lent buffer, and how many bytes are put on it.
#[derive(Drop)]
pub struct Page<'a> {
    out: &'a mut [u8],
    at: usize,
}

// The letter of a link's value, a byte of a state: u, f or t.
#[tactic(auto, unfolding(crate::specs::Lines::letter))]
fn letter_of(x: u8) -> u8
    ensures { result ≡ letter x }
{
    match x {
        0 => b'u',
        1 => b'f',
        _ => b't',
    }
}

impl<'a> Page<'a> {
    // A buffer on which nothing is put yet.
    pub fn new(out: &'a mut [u8]) -> Page<'a>
        ensures same { result.out.ghost_name ≡ out.entry.ghost_name }
        ensures empty { page result.out.now result.at ≡ page out.old 0 }
    {
        Page { out, at: 0 }
    }

    // How many bytes are put.
    pub fn len(&self) -> usize
        ensures { result ≡ self.now.at }
    {
        self.at
    }

    // One more byte, where there is room.
    fn put(&mut self, x: u8)
        ensures { Puts self.old self.new (x ∷ []) }
    {
        let at = self.at;
        if at < self.out.len() {
            self.out[at] = x;
            self.at = at + 1;
        }
    }

    // The bytes, one after another.
    fn text(&mut self, bytes: &[u8])
        ensures { Puts self.old self.new bytes.now }
    {
        for byte in bytes {
            self.put(*byte);
        }
    }

    // The digits of x, from the highest on.
    fn digits(&mut self, x: usize)
        ensures { Puts self.old self.new (decimal x) }
    {
        if x < 10 {
            self.put(b'0' + x as u8);
            return;
        }
        self.digits(x / 10);
        self.put(b'0' + (x % 10) as u8)
    }

    // A space and a number.
    fn number(&mut self, x: usize)
        ensures { Puts self.old self.new (field x) }
    {
        self.put(b' ');
        self.digits(x);
    }

    // Numbers, each behind a space.
    fn numbers(&mut self, xs: &[u8])
        ensures { Puts self.old self.new (fields xs.now) }
    {
        for x in xs {
            self.number(*x as usize);
        }
    }

    // The line's end.
    fn feed(&mut self)
        ensures { Puts self.old self.new feed }
    {
        self.put(b'\n');
    }

    // A refusal: its number and its place.
    pub fn refused_line(&mut self, refusal: Refusal)
        ensures { Puts self.old self.new (refused_line refusal.number refusal.place) }
    {
        self.text(b"refused");
        self.number(refusal.number as usize);
        self.number(refusal.place);
        self.feed();
    }

    // A verdict; of a failing one row, number and link.
    fn given_line(&mut self, verdict: Verdict)
        ensures { Puts self.old self.new (verdict_line (Ok verdict)) }
    {
        match verdict {
            Verdict::Pass => self.text(b"verdict pass\n"),
            Verdict::Fail { row, number, link } => {
                self.text(b"verdict fail");
                self.number(row);
                self.number(number);
                self.number(link);
                self.feed();
            }
        }
    }

    // The verdict, or the refusal of the table.
    pub fn verdict_line(&mut self, verdict: Result<Verdict, Refusal>)
        ensures { Puts self.old self.new (verdict_line verdict) }
    {
        match verdict {
            Ok(verdict) => self.given_line(verdict),
            Err(refusal) => self.refused_line(refusal),
        }
    }

    // A step, its row, what it is called and its values.
    fn named_line(&mut self, row: u8, word: &[u8], values: &[u8])
        ensures { Puts self.old self.new (named_line row word.now values.now) }
    {
        self.text(b"step");
        self.number(row as usize);
        self.text(word);
        self.numbers(values);
        self.feed();
    }

    // The line of a step.
    pub fn step_line(&mut self, row: u8, step: StepKind)
        ensures { Puts self.old self.new (step_line row (Ok step)) }
    {
        match step {
            StepKind::Act(a) => self.named_line(row, b" act", &[a]),
            StepKind::Set(l, v) => self.named_line(row, b" set", &[l, v]),
            StepKind::Open => self.named_line(row, b" open", b""),
            StepKind::Clean => self.named_line(row, b" clean", b""),
        }
    }

    // A letter for each value, not parted.
    fn put_letters(&mut self, xs: &[u8])
        ensures { Puts self.old self.new (letters xs.now) }
    {
        for x in xs {
            self.put(letter_of(*x));
        }
    }

    // The first m links; nothing behind the word where m is 0.
    pub fn links_line(&mut self, m: usize, values: &[u8])
        requires { m ≤ length values.now }
        ensures { Puts self.old self.new (links_line m values.now) }
    {
        if m == 0 {
            self.text(b"links\n");
            return;
        }
        self.text(b"links ");
        self.put_letters(&values[..m]);
        self.feed();
    }

    // A word, and rows.
    fn rows_line(&mut self, word: &[u8], rows: &[u8])
        ensures { Puts self.old self.new (rows_line word.now rows.now) }
    {
        self.text(word);
        self.numbers(rows);
        self.feed();
    }

    // The rows that have a step.
    pub fn enabled_line(&mut self, rows: &[u8])
        ensures { Puts self.old self.new (rows_line enabled_word rows.now) }
    {
        self.rows_line(b"enabled", rows);
    }

    // A space and a link, or "-" where there is none to wait for.
    fn link_waited(&mut self, l: u8)
        ensures { Puts self.old self.new (wait_field l) }
    {
        if l == worth::NO_LINK {
            self.text(b" -");
            return;
        }
        self.number(l as usize);
    }

    // Rows, each followed by what it waits for.
    fn rows_waiting(&mut self, rows: &[u8], links: &[u8])
        requires { length rows.now ≤ length links.now }
        ensures { Puts self.old self.new (wait_fields rows.now links.now) }
    {
        for (i, row) in rows.iter().enumerate() {
            self.number(*row as usize);
            self.link_waited(links[i]);
        }
    }

    // The JOIN rows that are waited for, each with its link.
    pub fn waiting_line(&mut self, rows: &[u8], links: &[u8])
        requires { length rows.now ≤ length links.now }
        ensures { Puts self.old self.new (waiting_line rows.now links.now) }
    {
        self.text(b"waiting");
        self.rows_waiting(rows, links);
        self.feed();
    }

    // Nothing is left to do.
    pub fn finished_line(&mut self)
        ensures { Puts self.old self.new finished_line }
    {
        self.text(b"finished\n");
    }
}
