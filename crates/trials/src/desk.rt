// The row in which rules are tried: cells, a memo, and room to work in.
ghost use Rattle.std.specs.Prelude.{◌≡◌, ℕ, ◌<◌, IfOk, length, take, drop, slice_index};
ghost use Rattle.trials.specs.Desk.{entries_of, Ready, SaidSays};

use crate::small::{Cells, Small};
use driver::bring::bring;
use engine::key::Key;
use memo::log::create;
use std::error::Error;
use std::fmt;

// The words before the memo, which are the cells, and before the room to work in.
pub const CELLS: usize = 16;

const MEMO: usize = 8208;

// A row has no more words.
const MOST: usize = 1000000;

// What came of a key: how many words its answer has, the first of them, and how often rules were told.
#[derive(Clone, Copy)]
pub struct Said {
    pub words: usize,
    pub first: u32,
    pub told: u64,
}

impl fmt::Display for Said {
    fn fmt<W: fmt::Write>(&self, f: &mut fmt::Formatter<W>) -> fmt::Result {
        let (first, told) = (self.first, self.told);
        if self.words == 0 {
            return write!(f, "nothing, {told} told");
        }
        write!(f, "{first}, {told} told")
    }
}

// A row that is too short, or too long.
#[derive(Clone, Copy, PartialEq, Eq, Debug)]
pub struct BadRow;

impl fmt::Display for BadRow {
    fn fmt<W: fmt::Write>(&self, f: &mut fmt::Formatter<W>) -> fmt::Result {
        f.write_str("the row is too short")
    }
}

impl Error for BadRow {}

// A row made ready, with nothing kept, if it is long enough and not too long.
pub fn clear_desk(row: &mut [u32]) -> Result<(), BadRow>
    ensures { IfOk result (λ u. Ready row.new) }
{
    if row.len() < MEMO || row.len() > MOST {
        return Err(BadRow);
    }
    create(&mut row[CELLS..MEMO]).map_err(|_| BadRow)
}

// A cell's word.
pub fn set_cell(row: &mut [u32], a: usize, v: u32)
    requires { (Ready row.old) × (a < CELLS) }
    ensures ready { Ready row.new }
    ensures entries { entries_of row.new ≡ entries_of row.old }
{
    row[a] = v;
}

// All cells emptied.
pub fn empty_cells(row: &mut [u32])
    requires { Ready row.old }
    ensures { Ready row.new }
{
    row[..CELLS].fill(0);
}

// The first word of an answer of n words, 0 if it has none.
fn first_word(row: &[u32], n: usize) -> u32
    ensures { result ≡ slice_index (take n (drop 8208 row.now)) 0 }
{
    if n == 0 || row.len() <= MEMO {
        return 0;
    }
    row[MEMO]
}

// A key asked: its answer is what it's worth by the cells of now.
pub fn ask(row: &mut [u32], k: &Key) -> Option<Said>
    requires { Ready row.old }
    ensures ready { Ready row.new }
    ensures says { SaidSays row.old row.new k.now result }
{
    let mut rules = Small { told: 0 };
    let words = bring(row, CELLS, MEMO, &mut rules, &Cells {}, k)?;
    Some(Said {
        words,
        first: first_word(row, words),
        told: rules.told,
    })
}
