// What is found of a name that means something declared, or nothing, or several things.
ghost use Rattle.std.specs.Prelude.{◌≡◌, ◌-◌, ◌<◌, take};
ghost use Rattle.lexer.specs.Tokens.{Tok};
ghost use Rattle.checker.specs.Rows.{well, ill, with_link, verdict_said, meaning_is, sig_is, Within};
ghost use Rattle.checker.specs.Turns.{role_fits, role_said};

use crate::check::Checker;
use crate::lookup::{Lookup, Meaning, SigId};
use crate::packed::TypeWord;
use crate::said::Link;
use semantics::fault::Fault;
use semantics::sort::Sort;

// What is found of a name: its type, what is wrong with it, and where it links to.
#[derive(Clone, Copy)]
pub struct Verdict {
    pub ty: TypeWord,
    pub fault: Option<Fault>,
    pub link: Option<Link>,
}

impl Verdict {
    // Of that type, with nothing wrong and no link.
    pub fn typed(ty: TypeWord) -> Verdict
        ensures { result ≡ well ty }
    {
        Verdict {
            ty,
            fault: None,
            link: None,
        }
    }

    // Wrong, with no type and no link.
    pub fn wrong(fault: Fault) -> Verdict
        ensures { result ≡ ill fault }
    {
        Verdict {
            fault: Some(fault),
            ..Verdict::typed(TypeWord::NONE)
        }
    }

    // The same with a link.
    pub fn linked(self, link: Link) -> Verdict
        ensures { result ≡ with_link self link }
    {
        Verdict {
            link: Some(link),
            ..self
        }
    }
}

// How a name is used: alone, in a call, or as a type.
#[derive(Clone, Copy, PartialEq, Eq, Debug)]
pub enum Role {
    Alone,
    Called,
    Typed,
}

impl Role {
    pub fn fits(self, sort: Sort) -> bool
        ensures { result ≡ role_fits self sort }
    {
        match self {
            Role::Alone => matches!(sort, Sort::Constant),
            Role::Called => matches!(sort, Sort::Record | Sort::Def),
            Role::Typed => matches!(sort, Sort::Kind | Sort::Record),
        }
    }
}

impl<L: Lookup> Checker<'_, L> {
    // What is found of a name that means one thing.
    fn judge_found(&self, words: &[u32], sig: SigId, role: Role) -> Verdict
        requires { Within self.now.b words.now }
        ensures { (t : Tok) → verdict_said (L.Lookup.book self.now.look.now (take self.now.b.base words.now)) t result ≡ role_said role t (sig_is ((L.Lookup.book self.now.look.now (take self.now.b.base words.now)).sigs sig.0)) }
    {
        let found = if role.fits(self.look.sort(words, self.b, sig)) {
            Verdict::typed(TypeWord::pack(self.look.result(words, self.b, sig)))
        } else {
            Verdict::wrong(Fault::Misplaced)
        };
        found.linked(Link::Declared(sig))
    }

    // What is found of a name that means that.
    pub fn judge(&self, words: &[u32], m: Meaning, role: Role) -> Verdict
        requires { Within self.now.b words.now }
        ensures { (t : Tok) → verdict_said (L.Lookup.book self.now.look.now (take self.now.b.base words.now)) t result ≡ role_said role t (meaning_is (L.Lookup.book self.now.look.now (take self.now.b.base words.now)) m) }
    {
        match m {
            Meaning::Found(sig) => self.judge_found(words, sig, role),
            Meaning::Unknown => Verdict::wrong(Fault::Unknown),
            Meaning::Several => Verdict::wrong(Fault::Several),
        }
    }
}
