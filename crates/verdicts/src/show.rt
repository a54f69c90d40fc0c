// What was said of a line: its faults; the types of its parts; where its names go.
use checker::lookup::Type;
use checker::packed::TypeWord;
use checker::said::{Event, Events, Link, Said};
use std::io::Write;
use std::{fmt, io};
use world::cards::{card_of, type_sig};

// A type, by its name.
#[derive(Clone, Copy)]
struct TypeName(TypeWord);

impl fmt::Display for TypeName {
    fn fmt<W: fmt::Write>(&self, f: &mut fmt::Formatter<W>) -> fmt::Result {
        match self.0.unpack() {
            None => f.write_str("none"),
            Some(Type::Num) => f.write_str("num"),
            Some(Type::Bool) => f.write_str("bool"),
            Some(Type::Of(ty)) => write!(f, "{}", card_of(type_sig(ty))),
        }
    }
}

// One thing that was said, as it stands in its list.
#[derive(Clone, Copy)]
struct Shown(Event);

impl fmt::Display for Shown {
    fn fmt<W: fmt::Write>(&self, f: &mut fmt::Formatter<W>) -> fmt::Result {
        let (from, to) = (self.0.span.from, self.0.span.to);
        match self.0.said {
            Said::Fault(number) => write!(f, " {from} {to} {number};"),
            Said::Type(ty) => write!(f, " {from}-{to}:{}", TypeName(ty)),
            Said::Link(Link::Declared(sig)) => write!(f, " {from}-{to}:{}", card_of(sig)),
            Said::Link(Link::Local(at)) => write!(f, " {from}-{to}:bound at {at}"),
            Said::Link(Link::File) => write!(f, " {from}-{to}:file"),
        }
    }
}

// Of the first so many things in a row, four words each, those that are listed.
fn show_list<W: Write, L: Fn(Said) -> bool>(
    row: &[u32],
    events: usize,
    out: &mut W,
    is_listed: L,
) -> io::Result<()>
    requires { L.IsAlwaysCallable is_listed }
{
    for event in Events(row).take(events) {
        if is_listed(event.said) {
            write!(out, "{}", Shown(event))?;
        }
    }
    Ok(())
}

// The first so many things in a row, in three lists.
pub fn show_said<W: Write>(row: &[u32], events: usize, out: &mut W) -> io::Result<()> {
    show_list(row, events, out, |said| matches!(said, Said::Fault(_)))?;
    out.write_all(b" | types")?;
    show_list(row, events, out, |said| matches!(said, Said::Type(_)))?;
    out.write_all(b" | links")?;
    show_list(row, events, out, |said| matches!(said, Said::Link(_)))
}
