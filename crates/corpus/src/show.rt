// An item in words: its parts with their places, and its operations one behind another.
use lexer::reader::Piece;
use lexer::token::Operator;
use parser::code::{Op, Span};
use std::io;
use std::io::Write;
use syntax::view::{Item, Ops, piece};

fn sign(o: Operator) -> &'static str {
    match o {
        Operator::Plus => "+",
        Operator::Minus => "-",
        Operator::Times => "*",
        Operator::Equal => "==",
        Operator::Less => "<",
        Operator::And => "and",
        Operator::Or => "or",
    }
}

// A piece's bytes and its place. A piece may have any bytes, and Display writes only text, so what has pieces is shown by functions; and
// the types that are shown here belong to the crates below.
fn show_piece<W: Write>(p: Piece<'_>, out: &mut W) -> io::Result<()> {
    for c in p.text {
        out.write_all(&[(*c % 256) as u8])?;
    }
    let (from, to) = (p.from, p.to);
    write!(out, " {from}-{to}")
}

// A word and a piece.
fn show_named<W: Write>(word: &str, name: Piece<'_>, out: &mut W) -> io::Result<()> {
    write!(out, "{word}")?;
    show_piece(name, out)
}

// A place that isn't understood.
pub fn show_bad<W: Write>(place: Span, out: &mut W) -> io::Result<()> {
    let (from, to) = (place.from, place.to);
    write!(out, "bad {from}-{to}")
}

fn show_op<W: Write>(line: &[u32], op: Op, out: &mut W) -> io::Result<()> {
    match op {
        Op::Number(s) => show_named("num ", piece(line, s), out),
        Op::Name(s) => show_named("name ", piece(line, s), out),
        Op::Call(s, k) => {
            show_named("call ", piece(line, s), out)?;
            write!(out, " {k}")
        }
        Op::Arg => write!(out, "arg"),
        Op::End(a) => write!(out, "end {a}"),
        Op::Field(s) => show_named("field ", piece(line, s), out),
        Op::Sign(o) => {
            let sign = sign(o);
            write!(out, "op {sign}")
        }
        Op::Cond => write!(out, "cond"),
        Op::If(a) => write!(out, "if {a}"),
        Op::Bind(s) => show_named("bind ", piece(line, s), out),
        Op::Let(a) => write!(out, "let {a}"),
        Op::Par(s) => {
            let (from, to) = (s.from, s.to);
            write!(out, "par {from} {to}")
        }
        Op::Use(s) => show_named("use ", piece(line, s), out),
        Op::New(s) => show_named("new ", piece(line, s), out),
        Op::Const(s) => show_named("", piece(line, s), out),
        Op::Slot(x, t) => {
            show_named("", piece(line, x), out)?;
            show_named(" ", piece(line, t), out)
        }
        Op::Result(s) => show_named("result ", piece(line, s), out),
        Op::Body => write!(out, "body"),
        Op::Bad(s) => show_bad(s, out),
    }
}

// Each operation behind a stroke; the end of a body isn't shown.
fn show_ops<W: Write>(ops: Ops<'_>, out: &mut W) -> io::Result<()> {
    for op in (0..ops.len()).filter_map(|i| ops.get(i)) {
        if !matches!(op, Op::Body) {
            write!(out, " | ")?;
            show_op(ops.line, op, out)?;
        }
    }
    Ok(())
}

pub fn show_item<W: Write>(item: Item<'_>, out: &mut W) -> io::Result<()> {
    match item {
        Item::Nothing => write!(out, "nothing"),
        Item::Use(file) => show_named("use ", file, out),
        Item::Kind(name, constants) => {
            show_named("kind ", name, out)?;
            show_ops(constants, out)
        }
        Item::Record(name, fields) => {
            show_named("rec ", name, out)?;
            show_ops(fields, out)
        }
        Item::Def {
            name,
            params,
            result,
            body,
        } => {
            show_named("def ", name, out)?;
            show_ops(params, out)?;
            show_named(" | result ", result, out)?;
            show_ops(body, out)
        }
        Item::Bad(s) => show_bad(s, out),
    }
}
