// The typed view of a line that was read into flat code: its cases hold parts of the line and of its operations.
ghost use Rattle.std.specs.Prelude.{◌≡◌, ℕ, ◌+◌, ◌-◌, ◌*◌, ◌/◌, ◌≤◌, T, List, ◌∷◌, length, take, drop, Some};
ghost use Rattle.std.specs.List.{slice_get};
ghost use Rattle.grammar.specs.Grammar.{Item as Meant};
ghost use Rattle.grammar.specs.Code.{item_code, o_new};
ghost use Rattle.parser.specs.Rows.{ops, ops_of, op_is, span_of};
ghost use Rattle.syntax.specs.View.{piece_of, is_slot, slot_in, lead, GetSays, ResultSays, ViewSays};

use lexer::reader::Piece;
use parser::code::{Op, Span, op_at};

// Operations of a line, in words: a part of the row in which they stand, five words an operation.
#[derive(Clone, Copy)]
pub struct Ops<'a> {
    pub line: &'a [u32],
    pub code: &'a [u32],
}

// What a line is.
#[derive(Clone, Copy)]
pub enum Item<'a> {
    Nothing,
    Use(Piece<'a>),
    Kind(Piece<'a>, Ops<'a>),
    Record(Piece<'a>, Ops<'a>),
    Def {
        name: Piece<'a>,
        params: Ops<'a>,
        result: Piece<'a>,
        body: Ops<'a>,
    },
    Bad(Span),
}

// The words of a row between two places, as far as it goes.
fn part<'a>(row: &'a [u32], from: usize, to: usize) -> &'a [u32]
    ensures { result.now ≡ take (to - from) (drop from row.now) }
{
    let end = to.min(row.len());
    &row[from.min(end)..end]
}

// The part of a line between two places; what lies outside of the line counts for nothing.
pub fn piece<'a>(line: &'a [u32], span: Span) -> Piece<'a>
    ensures { piece_of result ≡ span_of line.now span }
{
    let from = span.from as usize;
    let to = span.to as usize;
    Piece {
        text: part(line, from, to),
        from,
        to,
    }
}

// Whether an operation is a field or a parameter.
fn is_slot(op: Op) -> bool
    ensures { (line : List ℕ) → result ≡ is_slot (op_is line op) }
{
    matches!(op, Op::Slot(_, _))
}

impl<'a> Ops<'a> {
    // How many there are.
    pub fn len(&self) -> usize
        ensures { result ≡ length self.now.code.now / 5 }
    {
        self.code.len() / 5
    }

    // The operation with a number that one has.
    fn op(&self, i: usize) -> Op
        requires { 5 * i + 5 ≤ length self.now.code.now }
        ensures { slice_get (ops self.now.line.now self.now.code.now) i ≡ Some (op_is self.now.line.now result) }
    {
        op_at(self.code, 0, i)
    }

    // The operation with a number, if there is one. An if, as behind then it isn't known whose operation the closure gives.
    pub fn get(&self, i: usize) -> Option<Op>
        ensures { GetSays self.now.line.now self.now.code.now i result }
    {
        if i < self.len() {
            Some(self.op(i))
        } else {
            None
        }
    }

    // The first n of them.
    fn before(&self, n: usize) -> Ops<'a>
        requires { 5 * n ≤ length self.now.code.now }
        ensures line { result.line.now ≡ self.now.line.now }
        ensures code { (line : List ℕ) → ops line result.code.now ≡ take n (ops line self.now.code.now) }
    {
        Ops {
            line: self.line,
            code: &self.code[..5 * n],
        }
    }

    // Those behind the first n.
    fn behind(&self, n: usize) -> Ops<'a>
        requires { 5 * n ≤ length self.now.code.now }
        ensures line { result.line.now ≡ self.now.line.now }
        ensures code { (line : List ℕ) → ops line result.code.now ≡ drop n (ops line self.now.code.now) }
    {
        Ops {
            line: self.line,
            code: &self.code[5 * n..],
        }
    }

    // Whether one is a field or a parameter.
    fn slot_at(&self, i: usize) -> bool
        ensures within { T result → 5 * i + 5 ≤ length self.now.code.now }
        ensures slot { result ≡ slot_in (slice_get (ops self.now.line.now self.now.code.now) i) }
    {
        self.get(i).is_some_and(is_slot)
    }

    // The type of the result that one names.
    fn result_at(&self, i: usize) -> Option<Span>
        ensures { ResultSays self.now.line.now self.now.code.now i result }
    {
        match self.get(i)? {
            Op::Result(s) => Some(s),
            _ => None,
        }
    }

    // How many fields or parameters lead.
    fn slots(&self) -> usize
        ensures within { 5 * result ≤ length self.now.code.now }
        ensures leads { lead (ops self.now.line.now self.now.code.now) ≡ result }
    {
        (0..self.len()).take_while(|i| self.slot_at(*i)).count()
    }

    // The record or def with a name that these stand behind.
    fn named(&self, name: Piece<'a>) -> Item<'a>
        ensures { (i : Meant) → o_new (piece_of name.entry) ∷ ops self.now.line.now self.now.code.now ≡ item_code i → ViewSays self.now.line.now i result }
    {
        let n = self.slots();
        match self.result_at(n) {
            Some(result) => Item::Def {
                name,
                params: self.before(n),
                result: piece(self.line, result),
                body: self.behind(n + 1),
            },
            None => Item::Record(name, *self),
        }
    }

    // The item that these are the code of.
    fn item(&self) -> Item<'a>
        ensures { (i : Meant) → ops self.now.line.now self.now.code.now ≡ item_code i → ViewSays self.now.line.now i result }
    {
        let Some(op) = self.get(0) else {
            return Item::Nothing;
        };
        match op {
            Op::Use(s) => Item::Use(piece(self.line, s)),
            Op::Const(s) => Item::Kind(piece(self.line, s), self.behind(1)),
            Op::New(s) => self.behind(1).named(piece(self.line, s)),
            Op::Bad(s) => Item::Bad(s),
            _ => Item::Nothing,
        }
    }
}

// The item that the count operations from base on are the code of.
pub fn item_of<'a>(words: &'a [u32], len: usize, base: usize, count: usize) -> Item<'a>
    ensures { (i : Meant) → len ≤ length words.now → base + 5 * count ≤ length words.now → ops_of (take len words.now) base count words.now ≡ item_code i → ViewSays (take len words.now) i result }
{
    if len > words.len() || base > words.len() || count > (words.len() - base) / 5 {
        return Item::Nothing;
    }
    let ops = Ops {
        line: &words[..len],
        code: &words[base..base + 5 * count],
    };
    ops.item()
}
