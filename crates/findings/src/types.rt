// The types noted of a line's expressions: the smallest expression around a place.
ghost use Rattle.std.specs.Prelude.{◌≡◌, ◌+◌, ◌-◌, ◌*◌, ◌≤◌, length};
ghost use Rattle.semantics.specs.Answers.{around};
ghost use Rattle.findings.specs.Smallest.{HasType, less, IsSmallest};

use crate::all_said;
use checker::packed::TypeWord;
use checker::said::{Event, Said};
use diagnostics::Findings;
use parser::code::Span;

// A type noted of an expression: where that stands in its line, and the type, as a word.
#[derive(Clone, Copy)]
pub struct Noted {
    pub span: Span,
    pub ty: TypeWord,
}

impl Noted {
    // How many bytes long.
    fn size(self) -> u32
        ensures { result ≡ self.span.to - self.span.from }
    {
        self.span.to.saturating_sub(self.span.from)
    }

    // The smaller of this one and an older one, which stays where they are equally small.
    fn smaller(self, best: Option<Noted>) -> Noted
        ensures { result ≡ less self best }
    {
        match best {
            Some(b) if self.size() >= b.size() => b,
            _ => self,
        }
    }
}

// Whether a place lies in a part of a line.
pub fn is_around(place: usize, span: Span) -> bool
    ensures { result ≡ around place span.from span.to }
{
    (span.from as usize..span.to as usize).contains(&place)
}

// Of the expressions around a place whose type was noted the smallest, the first of those.
pub fn smallest(words: &[u32], f: Findings, place: usize) -> Option<Noted>
    requires { f.«at» + 4 * f.count ≤ length words.now }
    ensures typed { HasType result }
    ensures finds { IsSmallest words.now f.«at» f.count place result }
{
    let mut best = None;
    for Event { span, said } in all_said(words, f) {
        let Said::Type(ty) = said else {
            continue;
        };
        if ty == TypeWord::NONE {
            continue;
        }
        if !is_around(place, span) {
            continue;
        }
        best = Some(Noted { span, ty }.smaller(best));
    }
    best
}
