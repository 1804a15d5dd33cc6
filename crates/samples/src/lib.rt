// Rows of terms and conditions to try the calls on. A row that was not put is four zeros: NIL, or FALSE.

#![tactic(auto)]

ghost use Rattle.std.specs.Prelude.{◌≡◌, ◌<◌, replicate};

// The rows of a table, of which a table may have fewer.
#[derive(Clone, Copy)]
pub struct Sample {
    pub terms: [[u8; 4]; 256],
    pub conditions: [[u8; 4]; 256],
}

// A row of the largest sheet that has the next row as its child: ACT, OUT, JOIN, ACT.
fn step(row: u8) -> [u8; 4]
    requires { row < 255 }
{
    let next = row + 1;
    match row % 4 {
        1 => [2, row / 4, 1, next],
        2 => [3, next, next, 0],
        _ => [1, row, next, 0],
    }
}

// Each sixteen rows are a PICK or FLOW, fourteen steps and NIL: the steps are the left branch, the next sixteen rows the right one. The last sixteen have nothing to branch to.
fn largest_term(row: u8) -> [u8; 4]
    requires { row < 255 }
{
    if 240 <= row {
        return step(row);
    }
    match row % 16 {
        0 => [4 + row / 16 % 2, row + 1, row + 16, 0],
        15 => [0; 4],
        _ => step(row),
    }
}

impl Sample {
    pub fn new() -> Sample
        ensures { (result.terms ≡ replicate 256 (replicate 4 0)) × (result.conditions ≡ replicate 256 (replicate 4 0)) }
    {
        Sample {
            terms: [[0; 4]; 256],
            conditions: [[0; 4]; 256],
        }
    }

    // ACT rows, each with the next row as its child.
    pub fn put_acts(&mut self, first: u8, end: u8) {
        for row in first..end {
            self.terms[row as usize] = [1, row, row + 1, 0];
        }
    }

    // An OUT row for each link below `count`, from a row on, each with the next row as its child, as far as there is one.
    pub fn put_outs(&mut self, first: u8, count: u8) {
        for link in 0..count.min(255 - first) {
            let row = first + link;
            self.terms[row as usize] = [2, link, 1, row + 1];
        }
    }

    // LINK 0, then for each further link below `count` a LINK row and an OR of all links so far, as far as there is room. The last row reaches `count` links.
    pub fn put_links(&mut self, count: u8) {
        self.conditions[0] = [2, 0, 0, 0];
        for link in 1..count.min(128) {
            let row = 2 * (link - 1);
            self.conditions[row as usize + 1] = [2, link, 0, 0];
            self.conditions[row as usize + 2] = [4, row, row + 1, 0];
        }
    }

    // A sheet of common size: 24 rows, 6 conditions, 3 links.
    pub fn put_typical(&mut self) {
        self.put_links(3);
        self.conditions[5] = [6, 0, 3, 0];
        self.put_acts(0, 23);
        self.terms[0] = [5, 1, 12, 0];
        self.terms[2] = [4, 3, 6, 0];
        self.terms[4] = [2, 0, 1, 5];
        self.terms[5] = [0; 4];
        self.terms[7] = [2, 1, 1, 8];
        self.terms[9] = [2, 2, 1, 10];
        self.terms[11] = [0; 4];
        self.terms[13] = [5, 14, 18, 0];
        self.terms[14] = [3, 4, 15, 0];
        self.terms[17] = [0; 4];
        self.terms[18] = [3, 5, 19, 0];
        self.terms[20] = [4, 21, 22, 0];
        self.terms[21] = [0; 4];
    }

    // A LINK row, and an operator over it and the operator before. Each eight pairs begin anew, so no row reaches more than 8 links.
    fn put_pair(&mut self, pair: u8)
        requires { pair < 128 }
    {
        let row = pair * 2;
        let before = if pair % 8 == 0 { row } else { row - 1 };
        self.conditions[row as usize] = [2, pair % 64, 0, 0];
        self.conditions[row as usize + 1] = [3 + pair % 4, row, before, 0];
    }

    // The largest: 256 rows, among them 64 OUT rows, one for each link, 64 JOIN rows and 15 branchings; 256 conditions, half of them LINK rows.
    pub fn put_largest(&mut self) {
        for row in 0..255 {
            self.terms[row as usize] = largest_term(row);
        }
        for pair in 0..128 {
            self.put_pair(pair);
        }
    }
}
