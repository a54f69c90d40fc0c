// Small rules to try the engine on, and the cells that they ask for. The table of keys stands in specs/Small.
ghost use Rattle.std.specs.Prelude.{◌≡◌, ℕ, ◌+◌, ◌*◌, ◌%◌, ◌<◌, ◌≤◌, length, take, slice_index};
ghost use Rattle.trials.specs.Small.{small, cells, got_at, sum, below, step, rank_of, NextSays};

use engine::key::Key;
use engine::rules::{Inputs, Rules, Turn};

// The kinds of keys: an input; one of a layer; how many of a layer; a diamond; one cell or another.
const CELL: u32 = 0;

const LAYER: u32 = 1;

const COUNT: u32 = 2;

const LEVEL: u32 = 3;

const SWITCH: u32 = 4;

// What a rule does next: it asks, or it is done, with one word. Neither is a failure, so it is no Result.
#[derive(Clone, Copy, PartialEq, Eq, Debug)]
pub enum Next {
    Ask(Key),
    Done(u32),
}

// The answer to the i-th question.
fn got_at(row: &[u32], i: usize) -> u32
    ensures { result ≡ got_at row.now i }
{
    if i < row.len() / 2 {
        return row[2 * i + 1];
    }
    0
}

// The answers added up. By index, since what the row lacks counts as 0.
fn add_up(row: &[u32], n: usize) -> u32
    ensures is { result ≡ sum n row.now }
    ensures small1 { result < 65536 }
{
    let mut s: u64 = 0;
    for i in 0..n {
        s = (s + got_at(row, i) as u64) % 65536;
    }
    s as u32
}

// A cell, or whether it is above 9.
fn layer(k: &Key, row: &[u32], n: usize) -> Next
    ensures { NextSays (step 1 k.now.a k.now.b n row.now) result }
{
    if n == 0 {
        return Next::Ask(Key {
            kind: CELL,
            a: k.a,
            b: 0,
        });
    }
    let v = got_at(row, 0);
    if k.b != 0 {
        return Next::Done(v);
    }
    Next::Done(u32::from(v >= 10))
}

// How many of the first cells are above 9.
fn count(k: &Key, row: &[u32], n: usize) -> Next
    ensures { NextSays (step 2 k.now.a k.now.b n row.now) result }
{
    if n < k.a as usize {
        return Next::Ask(Key {
            kind: LAYER,
            a: n as u32,
            b: 0,
        });
    }
    Next::Done(add_up(row, n))
}

// One of the two keys below a level.
fn lower(l: u32, s: u32) -> Key
    ensures { result ≡ below l s }
{
    if l == 0 {
        return Key {
            kind: LAYER,
            a: s,
            b: 1,
        };
    }
    Key {
        kind: LEVEL,
        a: l - 1,
        b: s,
    }
}

// A level of a diamond.
fn level(k: &Key, row: &[u32], n: usize) -> Next
    ensures { NextSays (step 3 k.now.a k.now.b n row.now) result }
{
    if n < 2 {
        return Next::Ask(lower(k.a % 64, n as u32));
    }
    Next::Done(((add_up(row, n) as u64 + k.b as u64) % 65536) as u32)
}

// One cell or another, by a third.
fn switch(row: &[u32], n: usize) -> Next
    ensures { (a b : ℕ) → NextSays (step 4 a b n row.now) result }
{
    if n == 0 {
        return Next::Ask(Key {
            kind: LAYER,
            a: 0,
            b: 1,
        });
    }
    if n == 1 {
        let a = if got_at(row, 0) == 0 { 1 } else { 2 };
        return Next::Ask(Key {
            kind: LAYER,
            a,
            b: 1,
        });
    }
    Next::Done(got_at(row, 1))
}

// What the rule of a key does next, told n answers in a row.
fn does(k: &Key, row: &[u32], n: usize) -> Next
    ensures { NextSays (step k.now.kind k.now.a k.now.b n row.now) result }
{
    match k.kind {
        LAYER => layer(k, row, n),
        COUNT => count(k, row, n),
        LEVEL => level(k, row, n),
        SWITCH => switch(row, n),
        _ => Next::Done(0),
    }
}

// A key's rank.
fn rank_of(k: &Key) -> u32
    ensures { result ≡ rank_of k.now.kind k.now.a }
{
    match k.kind {
        LAYER => 1,
        COUNT | SWITCH => 2,
        LEVEL => 2 + k.a % 64,
        _ => 0,
    }
}

// The rules, and how often they were told.
#[derive(Drop)]
pub struct Small {
    pub told: u64,
}

impl Rules for Small {
    ghost book = { λ s. small };

    ghost runs = { λ s. s.told };

    fn rank(&self, k: &Key) -> u32 {
        rank_of(k)
    }

    fn is_input(&self, k: &Key) -> bool {
        k.kind == CELL
    }

    fn go(&mut self, k: &Key, words: &mut [u32], at: usize, count: usize) -> Turn {
        self.told += 1;
        match does(k, &words[..at], count) {
            Next::Ask(q) => Turn::Ask(q),
            Next::Done(v) => {
                if at == words.len() {
                    return Turn::Narrow;
                }
                words[at] = v;
                Turn::Done(1)
            }
        }
    }
}

// The cells: the words at the row's front.
#[derive(Clone, Copy)]
pub struct Cells {}

// The word of a cell, of which there are known.
fn cell(words: &[u32], known: usize, a: usize) -> u32
    requires { known ≤ length words.now }
    ensures { result ≡ slice_index (take known words.now) a }
{
    words[..known].get(a).copied().unwrap_or(0)
}

impl Inputs for Cells {
    ghost given = { λ s. cells };

    fn get(&self, k: &Key, words: &mut [u32], known: usize, at: usize) -> Option<usize> {
        let v = cell(words, known, k.a as usize);
        if v == 0 {
            return Some(0);
        }
        if at == words.len() {
            return None;
        }
        words[at] = v;
        Some(1)
    }
}
