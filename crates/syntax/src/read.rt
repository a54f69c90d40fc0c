// The whole: a line, as the flat code of the item that it is, or the place where it isn't understood.
ghost use Rattle.std.specs.Prelude.{◌≡◌, ◌+◌, ◌*◌, ◌<◌, ◌≤◌, length, take};
ghost use Rattle.lexer.specs.Tokens.{left};
ghost use Rattle.grammar.specs.Grammar.{bad, settled, i_bad};
ghost use Rattle.syntax.specs.Line.{ItemRead, LineSays, room_for};

use crate::lists::Listed;
use crate::reading::Reading;
use lexer::reader::{last_end, peek};
use lexer::token::Token;
use parser::code::Span;
use parser::parse::Wrong;

// Why a line has no code: it isn't understood, here; or too few words were lent, or the line is longer than places go.
#[derive(Clone, Copy, PartialEq, Eq, Debug)]
pub enum Refusal {
    Wrong(Span),
    NoRoom,
}

// The longest line that is read.
pub const LONGEST: usize = 4294966999;

// How many words are wanted for each byte of a line, and how many more.
const WORDS_A_BYTE: usize = 14;

const WORDS_MORE: usize = 64;

// How many words are wanted behind base for a line of so many bytes.
pub fn room(len: usize) -> usize
    ensures { len < 4294967000 → result ≡ room_for len }
{
    if len > LONGEST {
        return usize::MAX;
    }
    WORDS_A_BYTE * len + WORDS_MORE
}

// Where a line goes wrong: the place of the piece that is next from a place on, or the last piece's end.
fn place_of(words: &[u32], len: usize, wrong: Wrong) -> Span
    requires { (len ≤ length words.now) × (len < 4294967000) }
    ensures { settled (left (take len words.now) 0) (bad (left (take len words.now) wrong.«at»)) ≡ i_bad result.from result.to }
{
    let line = &words[..len];
    let next = peek(line, wrong.at);
    if next.token == Token::End {
        let end = last_end(line) as u32;
        return Span { from: end, to: end };
    }
    Span {
        from: next.from as u32,
        to: next.to as u32,
    }
}

// The item, by the word with which the line begins.
fn read_item(words: &mut [u32], len: usize, base: usize) -> Result<Reading, Wrong>
    requires small { len < 4294967000 }
    requires line { len ≤ base }
    requires room { base + 14 * len + 64 ≤ length words.old }
    ensures front { take base words.new ≡ take base words.old }
    ensures reads { ItemRead (take len words.old) base words.new result }
{
    let line = Reading {
        len,
        base,
        at: 0,
        count: 0,
    };
    let word = line.next(words);
    let behind = Reading {
        at: word.to,
        ..line
    };
    match word.token {
        Token::End => Ok(line),
        Token::Use => behind.use_item(words),
        Token::Kind => behind.block(words, Listed::Names),
        Token::Rec => behind.block(words, Listed::Fields),
        Token::Def => behind.def(words),
        _ => Err(Wrong { at: 0 }),
    }
}

// The line stands in the first len words; its code comes to stand from base on, as many operations as are given back, and what
// stands before base stays as it was.
pub fn read_line(words: &mut [u32], len: usize, base: usize) -> Result<usize, Refusal>
    ensures front { take base words.new ≡ take base words.old }
    ensures reads { LineSays words.old len base words.new result }
{
    if len > LONGEST || len > base || base > words.len() || words.len() - base < room(len) {
        return Err(Refusal::NoRoom);
    }
    // Both arms make something new, the second from the words as they are by then: no ? fits, and two closures say it no plainer.
    match read_item(words, len, base) {
        Ok(read) => Ok(read.count),
        Err(wrong) => Err(Refusal::Wrong(place_of(words, len, wrong))),
    }
}
