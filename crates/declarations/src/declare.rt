// The names that a line declares, and the file that it uses.
ghost use Rattle.std.specs.Prelude.{◌≡◌, ℕ, suc, List, [], ◌∷◌, length};
ghost use Rattle.base.specs.Base.{Word};
ghost use Rattle.lexer.specs.Tokens.{Tok};
ghost use Rattle.grammar.specs.Grammar.{Field, i_kind};
ghost use Rattle.grammar.specs.Code.{consts_code, slots_onto};
ghost use Rattle.semantics.specs.Names.{decl, decls_item, consts};
ghost use Rattle.semantics.specs.Numbers.{sort_number};
ghost use Rattle.parser.specs.Rows.{ops};
ghost use Rattle.syntax.specs.View.{piece_of};
ghost use Rattle.declarations.specs.Declares.{ConstSays, AtSays, DeclaredSays, CountSays, TypedSays, UsedSays};

use lexer::reader::Piece;
use parser::code::{Op, Span};
use semantics::sort::Sort;
use syntax::view::{Item, Ops, piece};

// A name that a line declares: the piece that names it; the word of its type, which of a kind and a record is its own name,
// of a constant its kind's, of a def its result's; its fields or parameters as operations, none for kinds and constants.
#[derive(Clone, Copy)]
pub struct Declaration<'a> {
    pub name: Piece<'a>,
    pub sort: Sort,
    pub ty: Piece<'a>,
    pub fields: Ops<'a>,
}

// None of these operations.
fn empty<'a>(of: Ops<'a>) -> Ops<'a>
    ensures line { result.line.now ≡ of.entry.line.now }
    ensures code { (line : List ℕ) → ops line result.code.now ≡ [] }
{
    Ops {
        line: of.line,
        code: &of.code[..0],
    }
}

// The name of a constant that an operation is.
fn const_of(op: Op) -> Option<Span>
    ensures { ConstSays op result }
{
    match op {
        Op::Const(s) => Some(s),
        _ => None,
    }
}

// The constant with a number of a kind with this name.
fn constant<'a>(kind: Piece<'a>, names: Ops<'a>, i: usize) -> Option<Declaration<'a>>
    ensures { (line : List ℕ) (cs : List Tok) → ops line names.entry.code.now ≡ consts_code cs → names.entry.line.now ≡ line → AtSays line (consts 0 kind.entry.text.now cs) i result }
{
    let name = const_of(names.get(i)?)?;
    Some(Declaration {
        name: piece(names.line, name),
        sort: Sort::Constant,
        ty: kind,
        fields: empty(names),
    })
}

// What a line that declares a kind declares: the kind, then its constants.
fn of_kind<'a>(name: Piece<'a>, names: Ops<'a>, i: usize) -> Option<Declaration<'a>>
    ensures { (line : List ℕ) (cs : List Tok) → ops line names.entry.code.now ≡ consts_code cs → names.entry.line.now ≡ line → AtSays line (decls_item 0 (i_kind (piece_of name.entry) cs)) i result }
{
    if i == 0 {
        Some(Declaration {
            name,
            sort: Sort::Kind,
            ty: name,
            fields: empty(names),
        })
    } else {
        constant(name, names, i - 1)
    }
}

// One declaration and no more.
fn only<'a>(d: Declaration<'a>, i: usize) -> Option<Declaration<'a>>
    ensures { (line : List ℕ) (fs : List Field) → ops line d.entry.fields.code.now ≡ slots_onto fs [] → d.entry.fields.line.now ≡ line → AtSays line (decl 0 (piece_of d.entry.name) (sort_number d.entry.sort) d.entry.ty.text.now fs ∷ []) i result }
{
    (i == 0).then_some(d)
}

// How many names a kind with these constants declares.
fn with_kind(names: Ops<'_>) -> usize
    ensures { (line : List ℕ) (kind : Word) (cs : List Tok) → ops line names.entry.code.now ≡ consts_code cs → result ≡ suc (length (consts 0 kind cs)) }
{
    1 + names.len()
}

// How many names a line declares.
pub fn declared(item: Item<'_>) -> usize
    ensures { CountSays item.entry result }
{
    match item {
        Item::Kind(_, names) => with_kind(names),
        Item::Record(_, _) | Item::Def { .. } => 1,
        _ => 0,
    }
}

// The i-th name that a line declares.
pub fn declared_at<'a>(item: Item<'a>, i: usize) -> Option<Declaration<'a>>
    ensures { DeclaredSays item.entry i result }
{
    match item {
        Item::Kind(name, names) => of_kind(name, names, i),
        Item::Record(name, fields) => {
            let d = Declaration {
                name,
                sort: Sort::Record,
                ty: name,
                fields,
            };
            only(d, i)
        }
        Item::Def {
            name,
            params,
            result,
            ..
        } => {
            let d = Declaration {
                name,
                sort: Sort::Def,
                ty: result,
                fields: params,
            };
            only(d, i)
        }
        _ => None,
    }
}

// The piece of the type that all have which a line declares.
pub fn type_word<'a>(item: Item<'a>) -> Option<Piece<'a>>
    ensures { TypedSays item.entry result }
{
    match item {
        Item::Kind(name, _) | Item::Record(name, _) => Some(name),
        Item::Def { result, .. } => Some(result),
        _ => None,
    }
}

// The file that a line uses.
pub fn used<'a>(item: Item<'a>) -> Option<Piece<'a>>
    ensures { UsedSays item.entry result }
{
    match item {
        Item::Use(file) => Some(file),
        _ => None,
    }
}
