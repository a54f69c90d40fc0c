// Flat code in words: five words an operation.
ghost use Rattle.std.specs.Prelude.{◌≡◌, ℕ, ◌+◌, ◌*◌, ◌<◌, ◌≤◌, List, [], ◌∷◌, ◌++◌, length, take, slice_index};
ghost use Rattle.lexer.specs.Kinds.{operator};
ghost use Rattle.grammar.specs.Machine.{patch};
ghost use Rattle.parser.specs.Rows.{sign_of, op_of, op_in, ops, ops_of, op_is, frames_of};

use lexer::token::Operator;

// A part of the line: from a place up to behind another.
#[derive(Clone, Copy, PartialEq, Eq, Debug)]
pub struct Span {
    pub from: u32,
    pub to: u32,
}

// Of an expression: a number; a name; a call begins, with so many arguments; an argument is there;
// the call ends here; a field; an operator; a condition is there; an if that began here ends; a name is bound;
// a let that began here ends; brackets around it. Of a line: a file used; a record or def named;
// a kind or a constant of it; a field or parameter with its type; a def's result; its end; not understood.
#[derive(Clone, Copy, PartialEq, Eq, Debug)]
pub enum Op {
    Number(Span),
    Name(Span),
    Call(Span, u32),
    Arg,
    End(u32),
    Field(Span),
    Sign(Operator),
    Cond,
    If(u32),
    Bind(Span),
    Let(u32),
    Par(Span),
    Use(Span),
    New(Span),
    Const(Span),
    Slot(Span, Span),
    Result(Span),
    Body,
    Bad(Span),
}

// An operator's number, and the operator of a number. No From: number and operator are both of crates below.
pub fn number_of(o: Operator) -> u32
    ensures { result ≡ operator o }
{
    o as u32
}

pub fn sign(a: u32) -> Operator
    ensures { result ≡ sign_of a }
{
    match a {
        0 => Operator::Plus,
        1 => Operator::Minus,
        2 => Operator::Times,
        3 => Operator::Equal,
        4 => Operator::Less,
        5 => Operator::And,
        _ => Operator::Or,
    }
}

// The tag of a call, which is written again once its arguments are counted.
const CALL: u32 = 2;

// The words of an operation.
impl From<Op> for [u32; 5] {
    ghost from_gives = { λ op ws. (line : List ℕ) → ops line ws ≡ op_is line op ∷ [] };

    fn from(op: Op) -> [u32; 5] {
        match op {
            Op::Number(s) => [0, s.from, s.to, 0, 0],
            Op::Name(s) => [1, s.from, s.to, 0, 0],
            Op::Call(s, k) => [CALL, s.from, s.to, k, 0],
            Op::Arg => [3, 0, 0, 0, 0],
            Op::End(a) => [4, a, 0, 0, 0],
            Op::Field(s) => [5, s.from, s.to, 0, 0],
            Op::Sign(o) => [6, number_of(o), 0, 0, 0],
            Op::Cond => [7, 0, 0, 0, 0],
            Op::If(a) => [8, a, 0, 0, 0],
            Op::Bind(s) => [9, s.from, s.to, 0, 0],
            Op::Let(a) => [10, a, 0, 0, 0],
            Op::Par(s) => [11, s.from, s.to, 0, 0],
            Op::Use(s) => [12, s.from, s.to, 0, 0],
            Op::New(s) => [13, s.from, s.to, 0, 0],
            Op::Const(s) => [14, s.from, s.to, 0, 0],
            Op::Slot(x, t) => [15, x.from, x.to, t.from, t.to],
            Op::Result(s) => [16, s.from, s.to, 0, 0],
            Op::Body => [17, 0, 0, 0, 0],
            Op::Bad(s) => [18, s.from, s.to, 0, 0],
        }
    }
}

// The operation of five words.
impl From<[u32; 5]> for Op {
    ghost from_gives = { λ ws op. (line : List ℕ) → op_is line op ≡ op_in line ws 0 };

    fn from(words: [u32; 5]) -> Op {
        let [tag, a, b, c, d] = words;
        let s = Span { from: a, to: b };
        match tag {
            0 => Op::Number(s),
            1 => Op::Name(s),
            CALL => Op::Call(s, c),
            3 => Op::Arg,
            4 => Op::End(a),
            5 => Op::Field(s),
            6 => Op::Sign(sign(a)),
            7 => Op::Cond,
            8 => Op::If(a),
            9 => Op::Bind(s),
            10 => Op::Let(a),
            11 => Op::Par(s),
            12 => Op::Use(s),
            13 => Op::New(s),
            14 => Op::Const(s),
            15 => Op::Slot(s, Span { from: c, to: d }),
            16 => Op::Result(s),
            17 => Op::Body,
            _ => Op::Bad(s),
        }
    }
}

// One operation more behind n of them.
pub fn emit(words: &mut [u32], base: usize, n: usize, op: Op)
    requires { base + 5 * n + 5 ≤ length words.old }
    ensures adds { (line : List ℕ) → ops_of line base (n + 1) words.new ≡ ops_of line base n words.old ++ (op_is line op ∷ []) }
    ensures below { (m : ℕ) → m ≤ base + 5 * n → take m words.new ≡ take m words.old }
    ensures above { (line : List ℕ) (d : ℕ) → base + 5 * n + 5 + 4 * d ≤ length words.old → frames_of line d words.new ≡ frames_of line d words.old }
{
    let i = base + 5 * n;
    words[i..i + 5].copy_from_slice(&<[u32; 5]>::from(op));
}

// Operation i.
pub fn op_at(words: &[u32], base: usize, i: usize) -> Op
    requires { base + 5 * i + 5 ≤ length words.now }
    ensures { (line : List ℕ) → op_is line result ≡ op_of line (slice_index words.now (base + 5 * i)) (slice_index words.now (base + 5 * i + 1)) (slice_index words.now (base + 5 * i + 2)) (slice_index words.now (base + 5 * i + 3)) (slice_index words.now (base + 5 * i + 4)) }
{
    let j = base + 5 * i;
    Op::from([
        words[j],
        words[j + 1],
        words[j + 2],
        words[j + 3],
        words[j + 4],
    ])
}

// The call that begins at operation p, if one does, has k arguments.
pub fn patch_count(words: &mut [u32], base: usize, n: usize, p: usize, k: u32)
    requires { base + 5 * n ≤ length words.old }
    ensures counts { (line : List ℕ) → ops_of line base n words.new ≡ patch (ops_of line base n words.old) p k }
    ensures below { (m : ℕ) → m ≤ base → take m words.new ≡ take m words.old }
    ensures above { (line : List ℕ) (d : ℕ) → base + 5 * n + 4 * d ≤ length words.old → frames_of line d words.new ≡ frames_of line d words.old }
{
    if p < n {
        let i = base + 5 * p;
        if words[i] == CALL {
            words[i + 3] = k;
        }
    }
}
