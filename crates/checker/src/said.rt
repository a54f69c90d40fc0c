// What is said: faults, links, types, and values with their types.
ghost use Rattle.std.specs.Prelude.{◌≡◌, ◌+◌, ◌*◌, ◌<◌, ◌≤◌, [], length};
ghost use Rattle.std.specs.Iterator.{YieldsFirst, item_count};
ghost use Rattle.std.proofs.Math.Option.{none};
ghost use Rattle.parser.specs.Rows.{span_of};
ghost use Rattle.semantics.specs.Check.{said};
ghost use Rattle.checker.specs.Rows.{typ, with_said, noted_type, blamed, links_is, verdict_said, valued, event_row, event_at, events_of, Fits, Writes};

use crate::lookup::SigId;
use crate::packed::TypeWord;
use crate::rows::{Bounds, Frame, Place};
use crate::verdict::Verdict;
use parser::code::Span;
use semantics::fault::Fault;

// Where a name links to: to what is declared, to a name that is bound at this place of the line, or to the file of that name.
#[derive(Clone, Copy, PartialEq, Eq, Debug)]
pub enum Link {
    Declared(SigId),
    Local(u32),
    File,
}

// What is said of a part of the line: a fault, by its number; its type, as a word; where it links to.
#[derive(Clone, Copy, PartialEq, Eq, Debug)]
pub enum Said {
    Fault(u32),
    Type(TypeWord),
    Link(Link),
}

#[derive(Clone, Copy)]
pub struct Event {
    pub span: Span,
    pub said: Said,
}

// Here alone what is said is packed into words, and unpacked. Any words are something said.
impl Event {
    pub(crate) fn words(self) -> [u32; 4]
        ensures { result ≡ event_row self }
    {
        let Span { from, to } = self.span;
        match self.said {
            Said::Fault(number) => [0, from, to, number],
            Said::Type(ty) => [1, from, to, ty.0],
            Said::Link(Link::Declared(sig)) => [2, from, to, sig.0],
            Said::Link(Link::Local(at)) => [3, from, to, at],
            Said::Link(Link::File) => [4, from, to, 0],
        }
    }

    // The thing said in the four words from a place on.
    pub fn read(words: &[u32], i: usize) -> Event
        requires { i + 4 ≤ length words.now }
        ensures { result ≡ event_at words.now i }
    {
        let x = words[i + 3];
        let said = match words[i] {
            0 => Said::Fault(x),
            1 => Said::Type(TypeWord(x)),
            2 => Said::Link(Link::Declared(SigId(x))),
            3 => Said::Link(Link::Local(x)),
            _ => Said::Link(Link::File),
        };
        let span = Span {
            from: words[i + 1],
            to: words[i + 2],
        };
        Event { span, said }
    }
}

// The things said in a row of words, one behind the other, four words each.
#[derive(Clone, Copy)]
pub struct Events<'a>(pub &'a [u32]);

impl Iterator for Events<'_> {
    type Item = Event;

    ghost next_gives = { YieldsFirst (λ s. events_of s.0.now) };

    ghost remaining = { item_count (λ s. events_of s.0.now) };

    fn next(&mut self) -> Option<Event> {
        if self.0.len() < 4 {
            return None;
        }
        let (first, rest) = self.0.split_at(4);
        self.0 = rest;
        Some(Event::read(first, 0))
    }
}

impl Bounds {
    // A fault, if there is one.
    pub(crate) fn blame(
        self,
        words: &mut [u32],
        p: Place,
        span: Span,
        fault: Option<Fault>,
    ) -> Place
        requires fits { Fits self p words.old }
        requires less { p.events < 3 * self.count }
        ensures few { (result.height ≡ p.height) × ((result.names ≡ p.names) × (result.events ≤ p.events + 1)) }
        ensures writes { Writes self p words.old result words.new (λ k line. with_said (said none (blamed fault span.from span.to) [] [])) }
    {
        let Some(fault) = fault else {
            return p;
        };
        let said = Said::Fault(u32::from(fault));
        self.note(words, p, Event { span, said })
    }

    // A link, if there is one.
    fn note_link(self, words: &mut [u32], p: Place, span: Span, to: Option<Link>) -> Place
        requires fits { Fits self p words.old }
        requires less { p.events < 3 * self.count }
        ensures few { (result.height ≡ p.height) × ((result.names ≡ p.names) × (result.events ≤ p.events + 1)) }
        ensures writes { Writes self p words.old result words.new (λ k line. with_said (said none [] [] (links_is k (span_of line span) to))) }
    {
        let Some(link) = to else {
            return p;
        };
        let said = Said::Link(link);
        self.note(words, p, Event { span, said })
    }

    // What was found of a name.
    pub(crate) fn tell(self, words: &mut [u32], p: Place, span: Span, v: Verdict) -> Place
        requires fits { Fits self p words.old }
        requires less { p.events + 1 < 3 * self.count }
        ensures few { (result.height ≡ p.height) × ((result.names ≡ p.names) × (result.events ≤ p.events + 2)) }
        ensures writes { Writes self p words.old result words.new (λ k line. with_said (verdict_said k (span_of line span) v)) }
    {
        let q = self.blame(words, p, span, v.fault);
        self.note_link(words, q, span, v.link)
    }

    // The type of an expression, if it has one.
    fn note_type(self, words: &mut [u32], p: Place, span: Span, ty: TypeWord) -> Place
        requires fits { Fits self p words.old }
        requires less { p.events < 3 * self.count }
        ensures few { (result.height ≡ p.height) × ((result.names ≡ p.names) × (result.events ≤ p.events + 1)) }
        ensures writes { Writes self p words.old result words.new (λ k line. with_said (noted_type span.from span.to (typ k ty.0))) }
    {
        if ty == TypeWord::NONE {
            return p;
        }
        let said = Said::Type(ty);
        self.note(words, p, Event { span, said })
    }

    // A value, and its type noted.
    pub(crate) fn value(self, words: &mut [u32], p: Place, span: Span, ty: TypeWord) -> Place
        requires fits { Fits self p words.old }
        requires less { (p.events < 3 * self.count) × (p.height < self.count) }
        ensures few { (result.height ≡ p.height + 1) × ((result.names ≡ p.names) × (result.events ≤ p.events + 1)) }
        ensures writes { Writes self p words.old result words.new (λ k line. valued span.from span.to (typ k ty.0)) }
    {
        let q = self.note_type(words, p, span, ty);
        self.push(words, q, Frame::value(ty, span))
    }
}
