// Where the names of a line lead.
ghost use Rattle.std.specs.Prelude.{◌+◌, ◌*◌, ◌≤◌, length};
ghost use Rattle.findings.specs.Linking.{IsLinkAt};

use crate::all_said;
use crate::types::is_around;
use checker::said::{Event, Link, Said};
use diagnostics::Findings;
use parser::code::Span;

// A name that leads somewhere: where it stands in its line, and what it links to.
#[derive(Clone, Copy)]
pub struct Linked {
    pub span: Span,
    pub link: Link,
}

// The first link that was said of a name around a place.
pub fn link_at(words: &[u32], f: Findings, place: usize) -> Option<Linked>
    requires { f.«at» + 4 * f.count ≤ length words.now }
    ensures { IsLinkAt words.now f.«at» f.count place result }
{
    for Event { span, said } in all_said(words, f) {
        let Said::Link(link) = said else {
            continue;
        };
        if is_around(place, span) {
            return Some(Linked { span, link });
        }
    }
    None
}
