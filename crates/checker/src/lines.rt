// What a line declares or uses: files, names that are new, fields and parameters, and a def's result.
ghost use Rattle.std.specs.Prelude.{◌≡◌, ℕ, ◌-◌, ◌<◌, [], ◌∷◌, take};
ghost use Rattle.base.specs.Base.{pick};
ghost use Rattle.lexer.specs.Tokens.{Tok};
ghost use Rattle.grammar.specs.Code.{o_use, o_new, o_const, o_slot, o_result};
ghost use Rattle.parser.specs.Rows.{span_of};
ghost use Rattle.semantics.specs.Check.{fault as fault_of};
ghost use Rattle.checker.specs.Rows.{Book, blamed, verdict_said, Within};
ghost use Rattle.checker.specs.Turns.{Ready, TurnSays};
ghost use Rattle.checker.specs.Asks.{BeforeSays, file_said, TypeTurn};

use crate::check::Checker;
use crate::lookup::{Lookup, Want};
use crate::packed::TypeWord;
use crate::rows::{Bound, Frame, Place};
use crate::said::Link;
use crate::verdict::{Role, Verdict};
use base::spells;
use parser::code::Span;
use semantics::fault::Fault;

// What is found of a file's name.
fn file_verdict(is_there: bool) -> Verdict
    ensures { (k : Book) (t : Tok) → verdict_said k t result ≡ file_said t is_there }
{
    if is_there {
        Verdict::typed(TypeWord::NONE).linked(Link::File)
    } else {
        Verdict::wrong(Fault::NoFile)
    }
}

// What is wrong with a name that may be there already.
fn again(is_there: bool) -> Option<Fault>
    ensures { (m n : ℕ) → blamed result m n ≡ pick is_there (fault_of m n 4 ∷ []) [] }
{
    is_there.then_some(Fault::DeclaredBefore)
}

impl<L: Lookup> Checker<'_, L> {
    pub fn use_file(&self, words: &mut [u32], p: Place, s: Span) -> Result<Place, Want>
        requires { Ready self.now.b p words.old }
        ensures { TurnSays (L.Lookup.book self.now.look.now) self.now.b p words.old words.new (λ line. o_use (span_of line s)) result }
    {
        let is_there = self.look.file(words, self.b, s).ok_or(Want::File(s))?;
        Ok(self.b.tell(words, p, s, file_verdict(is_there)))
    }

    // Whether the file declares a name before the line.
    fn declared_before(&self, words: &[u32], s: Span) -> Result<bool, Want>
        requires { Within self.now.b words.now }
        ensures { BeforeSays (L.Lookup.book self.now.look.now (take self.now.b.base words.now)) (take self.now.b.len words.now) s result }
    {
        self.look.before(words, self.b, s).ok_or(Want::Before(s))
    }

    // A record or def is named.
    pub fn new_name(&self, words: &mut [u32], p: Place, s: Span) -> Result<Place, Want>
        requires { Ready self.now.b p words.old }
        ensures { TurnSays (L.Lookup.book self.now.look.now) self.now.b p words.old words.new (λ line. o_new (span_of line s)) result }
    {
        let is_there = self.declared_before(words, s)?;
        Ok(self.b.blame(words, p, s, again(is_there)))
    }

    // A kind, or a constant of it, is named.
    pub fn constant(&self, words: &mut [u32], p: Place, s: Span) -> Result<Place, Want>
        requires { Ready self.now.b p words.old }
        ensures { TurnSays (L.Lookup.book self.now.look.now) self.now.b p words.old words.new (λ line. o_const (span_of line s)) result }
    {
        let is_there = self.declared_before(words, s)?;
        let is_bound = self.b.is_bound(words, p, s);
        let q = self.b.blame(words, p, s, again(is_there || is_bound));
        let name = Bound {
            span: s,
            ty: TypeWord::NONE,
        };
        Ok(self.b.bind(words, q, name))
    }

    // What a word is where a type has to be.
    fn type_of(&self, words: &[u32], s: Span) -> Result<Verdict, Want>
        requires { Within self.now.b words.now }
        ensures { TypeTurn (L.Lookup.book self.now.look.now (take self.now.b.base words.now)) (take self.now.b.len words.now) (span_of (take self.now.b.len words.now) s) result }
    {
        let word = self.b.word_of(words, s);
        if spells(word, b"num") {
            return Ok(Verdict::typed(TypeWord::NUM));
        }
        if spells(word, b"bool") {
            return Ok(Verdict::typed(TypeWord::BOOL));
        }
        let m = self.meaning(words, s)?;
        Ok(self.judge(words, m, Role::Typed))
    }

    // A field or a parameter with its type.
    pub fn slot(&self, words: &mut [u32], p: Place, x: Span, ty: Span) -> Result<Place, Want>
        requires { Ready self.now.b p words.old }
        ensures { TurnSays (L.Lookup.book self.now.look.now) self.now.b p words.old words.new (λ line. o_slot (record { name = span_of line x; ty = span_of line ty })) result }
    {
        let v = self.type_of(words, ty)?;
        let is_bound = self.b.is_bound(words, p, x);
        let q = self.b.blame(words, p, x, again(is_bound));
        let r = self.b.tell(words, q, ty, v);
        Ok(self.b.bind(words, r, Bound { span: x, ty: v.ty }))
    }

    // A def's result.
    pub fn result(&self, words: &mut [u32], p: Place, s: Span) -> Result<Place, Want>
        requires { Ready self.now.b p words.old }
        ensures { TurnSays (L.Lookup.book self.now.look.now) self.now.b p words.old words.new (λ line. o_result (span_of line s)) result }
    {
        let v = self.type_of(words, s)?;
        let q = self.b.tell(words, p, s, v);
        Ok(self.b.push(words, q, Frame::value(v.ty, s)))
    }
}
