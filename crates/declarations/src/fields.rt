// The fields of a record and the parameters of a def, one at a time.
ghost use Rattle.std.specs.Prelude.{◌≡◌, ℕ, List, []};
ghost use Rattle.grammar.specs.Grammar.{Field as Meant};
ghost use Rattle.grammar.specs.Code.{slots_onto};
ghost use Rattle.parser.specs.Rows.{ops};
ghost use Rattle.declarations.specs.Declares.{SlotSays, FieldSays};

use lexer::reader::Piece;
use parser::code::{Op, Span};
use syntax::view::{Ops, piece};

// A field or a parameter: the piece that names it, and the word of its type.
#[derive(Clone, Copy)]
pub struct FieldAt<'a> {
    pub name: Piece<'a>,
    pub ty: Piece<'a>,
}

// The places of the name and of the type's word of the field that an operation is.
fn slot_of(op: Op) -> Option<(Span, Span)>
    ensures { SlotSays op result }
{
    match op {
        Op::Slot(name, ty) => Some((name, ty)),
        _ => None,
    }
}

// The i-th of these fields.
pub fn field_at<'a>(fields: Ops<'a>, i: usize) -> Option<FieldAt<'a>>
    ensures { (fs : List Meant) → ops fields.entry.line.now fields.entry.code.now ≡ slots_onto fs [] → FieldSays fs i result }
{
    let (name, ty) = slot_of(fields.get(i)?)?;
    Some(FieldAt {
        name: piece(fields.line, name),
        ty: piece(fields.line, ty),
    })
}
