// What a piece is, as far as its own bytes tell.
ghost use Rattle.std.specs.Prelude.{◌≡◌};
ghost use Rattle.std.specs.List.{list_all};
ghost use Rattle.lexer.specs.Kinds.{token_of};
ghost use Rattle.lexer.specs.Parts.{keyword, number, sign, digit};

use crate::bytes::{is_digit, is_letter, is_small};
use base::spells;

// The operators of an expression.
#[derive(Clone, Copy, PartialEq, Eq, Debug)]
pub enum Operator {
    Plus,
    Minus,
    Times,
    Equal,
    Less,
    And,
    Or,
}

// The fixed words, the signs, numbers and names. BadNumber begins with a digit
// and isn't all digits, Other is any other piece that can stand nowhere, and End stands for no piece at all.
#[derive(Clone, Copy, PartialEq, Eq, Debug)]
pub enum Token {
    Use,
    Kind,
    Rec,
    Def,
    Let,
    In,
    If,
    Then,
    Else,
    Num,
    Bool,
    Open,
    Close,
    Comma,
    Gets,
    Dot,
    Sign(Operator),
    Number,
    BadNumber,
    Name,
    Other,
    End,
}

// What a word is, by its bytes alone.
pub fn token_of(w: &[u32]) -> Token
    ensures { result ≡ token_of w.now }
{
    match w {
        [] => Token::End,
        [c, ..] if is_small(*c) => keyword(w),
        [c, ..] if is_digit(*c) => number(w),
        [c, ..] if is_letter(*c) => Token::Name,
        [c] => sign(*c),
        w if spells(w, b"==") => Token::Sign(Operator::Equal),
        _ => Token::Other,
    }
}

// A word that begins with a small letter: one of the fixed words, or a name.
fn keyword(w: &[u32]) -> Token
    ensures { result ≡ keyword w.now }
{
    match w {
        w if spells(w, b"use") => Token::Use,
        w if spells(w, b"kind") => Token::Kind,
        w if spells(w, b"rec") => Token::Rec,
        w if spells(w, b"def") => Token::Def,
        w if spells(w, b"let") => Token::Let,
        w if spells(w, b"in") => Token::In,
        w if spells(w, b"if") => Token::If,
        w if spells(w, b"then") => Token::Then,
        w if spells(w, b"else") => Token::Else,
        w if spells(w, b"and") => Token::Sign(Operator::And),
        w if spells(w, b"or") => Token::Sign(Operator::Or),
        w if spells(w, b"num") => Token::Num,
        w if spells(w, b"bool") => Token::Bool,
        _ => Token::Name,
    }
}

// A byte that is no letter, by itself.
fn sign(c: u32) -> Token
    ensures { result ≡ sign c }
{
    match c {
        40 => Token::Open,
        41 => Token::Close,
        44 => Token::Comma,
        61 => Token::Gets,
        46 => Token::Dot,
        60 => Token::Sign(Operator::Less),
        43 => Token::Sign(Operator::Plus),
        45 => Token::Sign(Operator::Minus),
        42 => Token::Sign(Operator::Times),
        _ => Token::Other,
    }
}

// A word that begins with a digit.
fn number(w: &[u32]) -> Token
    ensures { result ≡ number w.now }
{
    if all_digits(w) {
        Token::Number
    } else {
        Token::BadNumber
    }
}

// Whether every byte is a digit.
fn all_digits(w: &[u32]) -> bool
    ensures { result ≡ list_all digit w.now }
{
    w.iter().all(|c| is_digit(*c))
}
