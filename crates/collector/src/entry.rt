// What a line declares, written into the table.
ghost use Rattle.std.specs.Prelude.{◌≡◌, ℕ, ◌+◌, ◌*◌, ◌<◌, ◌≤◌, List, [], length, take, drop};
ghost use Rattle.grammar.specs.Grammar.{Field};
ghost use Rattle.grammar.specs.Code.{slots_onto};
ghost use Rattle.parser.specs.Rows.{ops};
ghost use Rattle.collector.specs.Rows.{Wrote, Held};
ghost use Rattle.collector.specs.Entries.{slot_words};
ghost use Rattle.collector.specs.Says.{FieldWords};

use crate::NoRoom;
use crate::line::{Loaded, OP};
use crate::row::put;
use declarations::declare::{declared, declared_at, type_word};
use lexer::reader::Piece;
use parser::code::{Op, Span, op_at};
use semantics::sort::Sort;
use symbols::layout::Layout;
use symbols::read::{HEAD, SLOT};

// A declaration without its fields or parameters, as places of its line, and how many of them it has.
#[derive(Clone, Copy)]
struct Head {
    sort: Sort,
    name: Span,
    ty: Span,
    slots: usize,
}

// Where a line comes from: its file, and where it begins in it.
#[derive(Clone, Copy)]
pub struct Origin {
    pub file: u32,
    pub start: u32,
}

// A line whose declarations are written: how its row is divided, the line, and where it comes from.
#[derive(Clone, Copy)]
pub struct Declaring {
    pub l: Layout,
    pub line: Loaded,
    pub origin: Origin,
}

// What was listed: how many, and the place behind them.
#[derive(Clone, Copy)]
pub struct Listed {
    pub count: usize,
    pub to: usize,
}

// A piece's places.
pub fn span(p: Piece<'_>) -> Span
    requires { (p.from < 4294967296) × (p.to < 4294967296) }
    ensures { (result.from ≡ p.entry.from) × (result.to ≡ p.entry.to) }
{
    Span {
        from: p.from as u32,
        to: p.to as u32,
    }
}

// The words of the field or parameter that an operation is.
fn field_words(op: Op) -> [u32; 4]
    ensures { FieldWords op result }
{
    match op {
        Op::Slot(name, ty) => [name.from, name.to, ty.from, ty.to],
        // No other operation stands where a field or parameter does.
        _ => [0, 0, 0, 0],
    }
}

// The n fields or parameters whose operations stand from a place on, written from another on. They go by number: an operation is read and
// its words are written in the one row, at strides of five and of four.
fn put_fields(words: &mut [u32], from: usize, n: usize, at: usize)
    requires { («at» + 4 * n ≤ from) × (from + 5 * n ≤ length words.old) }
    ensures wrote { Wrote «at» («at» + 4 * n) words.old words.new }
    ensures held { (line : List ℕ) (fs : List Field) → ops line (take (5 * n) (drop from words.old)) ≡ slots_onto fs [] → Held words.new «at» (slot_words fs) }
{
    for i in 0..n {
        let row = field_words(op_at(words, from, i));
        put(words, at + SLOT * i, &row);
    }
}

impl Declaring {
    ghost use Rattle.collector.specs.Says.{Loads, line_of, HeadSays, EntrySays, LineSays};

    // The i-th of what the line declares.
    fn head_at(self, words: &[u32], i: usize) -> Option<Head>
        requires { Loads self.l words.now self.line }
        ensures { HeadSays (line_of words.now self.line) i result }
    {
        let item = self.line.item(words, self.l);
        let d = declared_at(item, i)?;
        let ty = type_word(item)?;
        Some(Head {
            sort: d.sort,
            name: span(d.name),
            ty: span(ty),
            slots: d.fields.len(),
        })
    }

    // The i-th of what the line declares, written from a place on. Gives the place behind it.
    fn put_entry(self, words: &mut [u32], i: usize, at: usize) -> Result<usize, NoRoom>
        requires loads { Loads self.l words.old self.line }
        requires place { (self.l.index ≤ «at») × («at» ≤ self.l.work) × (self.line.place ≤ self.l.index) }
        ensures { EntrySays self.l words.old self.line self.origin i «at» words.new result }
    {
        let Some(h) = self.head_at(words, i) else {
            return Ok(at);
        };
        let room = self.l.work - at;
        if room < HEAD || (room - HEAD) / SLOT < h.slots {
            return Err(NoRoom);
        }
        let head = [
            self.origin.file,
            self.origin.start,
            self.line.place as u32,
            u32::from(h.sort),
            h.name.from,
            h.name.to,
            h.ty.from,
            h.ty.to,
            h.slots as u32,
        ];
        put(words, at, &head);
        put_fields(words, self.l.work + OP, h.slots, at + HEAD);
        Ok(at + HEAD + SLOT * h.slots)
    }

    // All that the line declares, written from a place on. It goes by number: what a line declares is worked out from its item, and stands
    // nowhere as a list.
    pub fn put_line(self, words: &mut [u32], at: usize) -> Result<Listed, NoRoom>
        requires loads { Loads self.l words.old self.line }
        requires place { (self.l.index ≤ «at») × («at» ≤ self.l.work) × (self.line.place ≤ self.l.index) }
        ensures { LineSays self.l words.old self.line self.origin «at» words.new result }
    {
        let count = declared(self.line.item(words, self.l));
        let mut to = at;
        for i in 0..count {
            to = self.put_entry(words, i, to)?;
        }
        Ok(Listed { count, to })
    }
}
