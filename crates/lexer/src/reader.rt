// The pieces of a line, one after the other.
ghost use Rattle.std.specs.Prelude.{◌≡◌, ◌-◌, ◌<◌, ◌≤◌, true, false, [], ◌∷◌, length, MatchOption, ◌≢◌, slice_index, slice_range};
ghost use Rattle.std.specs.List.{prefix_len};
ghost use Rattle.lexer.specs.Tokens.{letter, blank, left, piece, end_of};
ghost use Rattle.lexer.specs.Seen.{NextAt, SeenSays};

use crate::bytes::{is_blank, is_letter};
use crate::token::{Token, token_of};

// The byte that begins a note, which goes on to the line's end.
const NOTE: u32 = 35;
// The byte =, which makes one piece with a second one.
const EQUALS: u32 = 61;

// A piece of a line: a part of it, from a place to the place behind it.
#[derive(Clone, Copy)]
pub struct Piece<'a> {
    pub text: &'a [u32],
    pub from: usize,
    pub to: usize,
}

// A line, read up to a place.
#[derive(Drop)]
pub struct Reader<'a> {
    pub line: &'a [u32],
    pub at: usize,
}

// How many blanks stand before the first byte that is none.
fn blank_len(bytes: &[u32]) -> usize
    ensures { result ≡ prefix_len blank bytes.now }
{
    bytes.iter().take_while(|c| is_blank(**c)).count()
}

// How many bytes of a word stand before the first that is none.
fn letter_len(bytes: &[u32]) -> usize
    ensures { result ≡ prefix_len letter bytes.now }
{
    bytes.iter().take_while(|c| is_letter(**c)).count()
}

// Where the blanks from a place on end.
fn blanks_end(line: &[u32], from: usize) -> usize
    ensures onward { from ≤ result }
    ensures same { left line.now from ≡ left line.now result }
    ensures stops { result < length line.now → blank (slice_index line.now result) ≡ false }
{
    from + blank_len(&line[from.min(line.len())..])
}

// Where the word that begins at a place ends.
fn word_end(line: &[u32], from: usize) -> usize
    requires within { from < length line.now }
    requires not_blank { blank (slice_index line.now from) ≡ false }
    requires begins { letter (slice_index line.now from) ≡ true }
    ensures within { result ≤ length line.now }
    ensures onward { from < result }
    ensures reads { left line.now from ≡ piece line.now from result ∷ left line.now result }
{
    from + letter_len(&line[from..])
}

// Where the piece that begins at a place ends.
fn piece_end(line: &[u32], from: usize) -> usize
    requires within { from < length line.now }
    requires not_blank { blank (slice_index line.now from) ≡ false }
    requires no_note { slice_index line.now from ≢ 35 }
    ensures within { result ≤ length line.now }
    ensures onward { from < result }
    ensures reads { left line.now from ≡ piece line.now from result ∷ left line.now result }
{
    if is_letter(line[from]) {
        word_end(line, from)
    } else if line[from] == EQUALS && from + 1 < line.len() && line[from + 1] == EQUALS {
        from + 2
    } else {
        from + 1
    }
}

impl<'a> Reader<'a> {
    // The next piece, or none at the line's end or at a note.
    pub fn next(&mut self) -> Option<Piece<'a>>
        ensures line { self.new.line.now ≡ self.old.line.now }
        ensures within { self.new.«at» ≤ length self.old.line.now }
        ensures reads { MatchOption result (left self.old.line.now self.old.«at» ≡ []) (λ p. NextAt self.old.line.now self.old.«at» p.from p.to) }
        ensures text { MatchOption result Unit (λ p. p.text.now ≡ slice_range self.old.line.now p.from p.to) }
        ensures behind { MatchOption result Unit (λ p. self.new.«at» ≡ p.to) }
    {
        let line = self.line;
        let from = blanks_end(line, self.at);
        if from >= line.len() || line[from] == NOTE {
            self.at = line.len();
            return None;
        }
        let to = piece_end(line, from);
        self.at = to;
        Some(Piece {
            text: &line[from..to],
            from,
            to,
        })
    }
}

// What comes next in a line: a token and its place. At the end both places are the one looked from.
#[derive(Clone, Copy)]
pub struct Seen {
    pub token: Token,
    pub from: usize,
    pub to: usize,
}

// The next piece from a place on, which stays to be read.
pub fn peek(line: &[u32], at: usize) -> Seen
    ensures { SeenSays line.now «at» result }
{
    let mut reader = Reader { line, at };
    match reader.next() {
        Some(p) => Seen {
            token: token_of(p.text),
            from: p.from,
            to: p.to,
        },
        None => Seen {
            token: Token::End,
            from: at,
            to: at,
        },
    }
}

// Where the last piece of a line ends, 0 where it has none.
pub fn last_end(line: &[u32]) -> usize
    ensures { result ≡ end_of (left line.now 0) }
{
    let mut reader = Reader { line, at: 0 };
    let mut end = 0;
    while let Some(p) = reader.next() {
        end = p.to;
    }
    end
}
