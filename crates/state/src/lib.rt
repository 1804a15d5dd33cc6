// A state: the mode, one mark for each of 256 rows, one value for each of 64 links, how many ACT rows are left and how many links of the sheet are unset. A step changes it by five of the methods; `restart` makes the state of a compacted sheet.

#![tactic(auto)]

ghost use Rattle.std.specs.Prelude.{◌≡◌, ◌<◌, replicate};
ghost use Rattle.state.specs.State.{fresh_of, pass_of, drop_of, decide_of, set_of, with_counts, restart_of};

// Mode, marks and link values stay bytes, and the two counts fields: callers hold this record, and `step_in_place` and `step_lent` change theirs.
#[derive(Clone, Copy)]
pub struct State {
    pub mode: u8,
    pub marks: [u8; 256],
    pub links: [u8; 64],
    pub acts: u8,
    pub unset: u8,
}

// What a step is: the activity; the link and its value, 0 or 1 as a line prints it; a JOIN opened or cleaned away.
#[derive(Clone, Copy)]
pub enum StepKind {
    Act(u8),
    Set(u8, u8),
    Open,
    Clean,
}

// A fresh state: every mark waits, every link is unset, and nothing is counted yet.
pub fn fresh(mode: u8) -> State
    ensures value { result ≡ fresh_of mode }
    ensures waits { result.marks ≡ replicate 256 0 }
{
    State {
        mode,
        marks: [0; 256],
        links: [0; 64],
        acts: 0,
        unset: 0,
    }
}

impl State {
    // The row is passed.
    pub fn pass(mut self, row: u8) -> State
        ensures { result ≡ pass_of self row }
    {
        self.marks[row as usize] = 1;
        self
    }

    // The JOIN is dropped.
    pub fn drop_join(mut self, row: u8) -> State
        ensures { result ≡ drop_of self row }
    {
        self.marks[row as usize] = 4;
        self
    }

    // The PICK is decided, to the right or to the left.
    pub fn decide(mut self, row: u8, right: bool) -> State
        ensures { result ≡ decide_of self row right }
    {
        self.marks[row as usize] = if right { 3 } else { 2 };
        self
    }

    // The two counts are these.
    pub fn with_counts(mut self, acts: u8, unset: u8) -> State
        ensures { result ≡ with_counts self acts unset }
    {
        self.acts = acts;
        self.unset = unset;
        self
    }

    // Every mark waits.
    pub fn restart(mut self) -> State
        ensures { result ≡ restart_of self }
    {
        self.marks = [0; 256];
        self
    }

    // The link has the value.
    pub fn set_link(mut self, link: usize, value: u8) -> State
        requires { link < 64 }
        ensures { result ≡ set_of self link value }
    {
        self.links[link] = value;
        self
    }
}
