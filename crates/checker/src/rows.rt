// Frames, bound names and what was said, in words. No write can fail for want of room: its caller has seen to that.
// The bounds of a line stay while the place goes on: a struct of both would have each contract say that the bounds are the same.
ghost use Rattle.std.specs.Prelude.{◌≡◌, ℕ, ◌+◌, ◌-◌, ◌*◌, ◌<◌, ◌≤◌, List, length, take, slice_index};
ghost use Rattle.semantics.specs.Check.{find as found_in};
ghost use Rattle.semantics.specs.Walk.{top as newest_top, value};
ghost use Rattle.parser.specs.Rows.{span_of};
ghost use Rattle.base.specs.Base.{is_some};
ghost use Rattle.checker.specs.Rows.{Book, typ, frame_is, frame_at, frame_row, bound_is, bound_at, bound_row, event_is, event_row, means, with_frame, with_name, with_said, without_frame, without_name, Fits, pasted, Writes, FindSays};

use crate::packed::TypeWord;
use crate::said::Event;
use crate::slots::Slots;
use base::same_word;
use parser::code::Span;

// The line is the first len words, its code goes from word base on, so many operations.
#[derive(Clone, Copy)]
pub struct Bounds {
    pub len: usize,
    pub base: usize,
    pub count: usize,
}

// How many frames there are, how many names are bound, and how many things were said.
#[derive(Clone, Copy)]
pub struct Place {
    pub height: usize,
    pub names: usize,
    pub events: usize,
}

// A value, its type and place; or a call begun, its result's type, and its slots that are left.
#[derive(Clone, Copy)]
pub struct Frame {
    pub ty: TypeWord,
    pub span: Span,
    pub slots: Option<Slots>,
}

// A name that is bound in the line, and its type.
#[derive(Clone, Copy)]
pub struct Bound {
    pub span: Span,
    pub ty: TypeWord,
}

impl Frame {
    pub(crate) fn value(ty: TypeWord, span: Span) -> Frame
        ensures { (k : Book) → frame_is k result ≡ value (typ k ty.0) span.from span.to }
    {
        Frame {
            ty,
            span,
            slots: None,
        }
    }

    fn words(self) -> [u32; 5]
        ensures { result ≡ frame_row self }
    {
        let [sig, next] = Slots::words(self.slots);
        [self.ty.0, self.span.from, self.span.to, sig, next]
    }

    // The frame in the five words from a place on.
    fn read(words: &[u32], i: usize) -> Frame
        requires { i + 5 ≤ length words.now }
        ensures { (k : Book) → frame_is k result ≡ frame_at k words.now i }
    {
        Frame {
            ty: TypeWord(words[i]),
            span: Span {
                from: words[i + 1],
                to: words[i + 2],
            },
            slots: Slots::read(words[i + 3], words[i + 4]),
        }
    }
}

impl Bound {
    // The name in the three words from a place on.
    fn read(words: &[u32], i: usize) -> Bound
        requires { i + 3 ≤ length words.now }
        ensures { result ≡ bound_at words.now i }
    {
        Bound {
            span: Span {
                from: words[i],
                to: words[i + 1],
            },
            ty: TypeWord(words[i + 2]),
        }
    }
}

impl Place {
    // The place without the newest frame.
    pub fn below(self) -> Place
        ensures lower { (result.height ≤ self.height) × ((result.height ≤ self.height - 1) × ((result.names ≡ self.names) × (result.events ≡ self.events))) }
        ensures under { (k : Book) (line : List ℕ) (b : Bounds) (ws : List ℕ) → means k line b result ws ≡ without_frame (means k line b self ws) }
    {
        Place {
            height: self.height.saturating_sub(1),
            ..self
        }
    }

    // The place where the newest name is bound no more.
    pub fn unbind(self) -> Place
        ensures lower { (result.height ≡ self.height) × ((result.names ≤ self.names) × (result.events ≡ self.events)) }
        ensures under { (k : Book) (line : List ℕ) (b : Bounds) (ws : List ℕ) → means k line b result ws ≡ without_name (means k line b self ws) }
    {
        Place {
            names: self.names.saturating_sub(1),
            ..self
        }
    }
}

fn put(words: &mut [u32], at: usize, row: &[u32])
    requires { «at» + length row.now ≤ length words.old }
    ensures { words.new ≡ pasted words.old «at» row.now }
{
    words[at..at + row.len()].copy_from_slice(row);
}

impl Bounds {
    // One frame more.
    pub fn push(self, words: &mut [u32], p: Place, v: Frame) -> Place
        requires fits { Fits self p words.old }
        requires less { p.height < self.count }
        ensures higher { (result.height ≡ p.height + 1) × ((result.names ≡ p.names) × (result.events ≡ p.events)) }
        ensures writes { Writes self p words.old result words.new (λ k line. with_frame (frame_is k v)) }
    {
        put(
            words,
            self.base + 20 * self.count + 5 * p.height,
            &v.words(),
        );
        Place {
            height: p.height + 1,
            ..p
        }
    }

    // The newest frame, or a blank one where there is none.
    pub fn newest(self, words: &[u32], p: Place) -> Frame
        requires { Fits self p words.now }
        ensures { (k : Book) (line : List ℕ) → frame_is k result ≡ newest_top (means k line self p words.now).stack }
    {
        if p.height == 0 {
            return Frame::value(TypeWord::NONE, Span { from: 0, to: 0 });
        }
        Frame::read(words, self.base + 20 * self.count + 5 * (p.height - 1))
    }

    // One name more is bound.
    pub fn bind(self, words: &mut [u32], p: Place, x: Bound) -> Place
        requires fits { Fits self p words.old }
        requires less { p.names < self.count }
        ensures higher { (result.height ≡ p.height) × ((result.names ≡ p.names + 1) × (result.events ≡ p.events)) }
        ensures writes { Writes self p words.old result words.new (λ k line. with_name (bound_is k line x)) }
    {
        put(
            words,
            self.base + 17 * self.count + 3 * p.names,
            &[x.span.from, x.span.to, x.ty.0],
        );
        Place {
            names: p.names + 1,
            ..p
        }
    }

    // One thing more is said.
    pub fn note(self, words: &mut [u32], p: Place, e: Event) -> Place
        requires fits { Fits self p words.old }
        requires less { p.events < 3 * self.count }
        ensures higher { (result.height ≡ p.height) × ((result.names ≡ p.names) × (result.events ≡ p.events + 1)) }
        ensures writes { Writes self p words.old result words.new (λ k line. with_said (event_is k line e)) }
    {
        put(words, self.base + 5 * self.count + 4 * p.events, &e.words());
        Place {
            events: p.events + 1,
            ..p
        }
    }

    // The word of a part of the line; of one that doesn't lie in it, as much as does.
    pub fn word_of(self, words: &[u32], s: Span) -> &[u32]
        requires { self.len ≤ length words.now }
        ensures { result.now ≡ (span_of (take self.len words.now) s).w }
    {
        let from = (s.from as usize).min(self.len);
        let to = (s.to as usize).min(self.len).max(from);
        &words[from..to]
    }

    // The innermost name that is bound and written like that part of the line.
    pub fn find(self, words: &[u32], p: Place, name: Span) -> Option<Bound>
        requires { Fits self p words.now }
        ensures { (k : Book) → FindSays (means k (take self.len words.now) self p words.now).bound (span_of (take self.len words.now) name).w (bound_is k (take self.len words.now)) result }
    {
        for n in (0..p.names).rev() {
            let x = Bound::read(words, self.base + 17 * self.count + 3 * n);
            if same_word(self.word_of(words, x.span), self.word_of(words, name)) {
                return Some(x);
            }
        }
        None
    }

    // Whether a name like that is bound in the line.
    pub(crate) fn is_bound(self, words: &[u32], p: Place, name: Span) -> bool
        requires { Fits self p words.now }
        ensures { (k : Book) → result ≡ is_some (found_in (means k (take self.len words.now) self p words.now).bound (span_of (take self.len words.now) name).w) }
    {
        self.find(words, p, name).is_some()
    }
}
