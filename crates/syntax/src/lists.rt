// Lists of a line: the constants of a kind, the fields of a record, the parameters of a def.
ghost use Rattle.std.specs.Prelude.{◌≡◌, ℕ, ◌+◌, ◌*◌, ◌<◌, ◌≤◌, List, length, IfOk};
ghost use Rattle.parser.specs.Rows.{op_is, span_of};
ghost use Rattle.syntax.specs.Reads.{entry, head, listed as reads, Ready, EntrySays, Does};

use crate::reading::Reading;
use crate::wanted::Wanted;
use parser::code::{Op, Span};
use parser::parse::Wrong;

// What a list holds: names, or names with types.
#[derive(Clone, Copy, PartialEq, Eq, Debug)]
pub enum Listed {
    Names,
    Fields,
}

impl Listed {
    // How the name is said of the kind, or of the record or def, whose list this is.
    pub fn head(self, name: Span) -> Op
        ensures { (line : List ℕ) → op_is line result ≡ head self (span_of line name) }
    {
        match self {
            Listed::Names => Op::Const(name),
            Listed::Fields => Op::New(name),
        }
    }
}

impl Reading {
    // One thing of a list, and reading behind it.
    fn entry(self, words: &[u32], listed: Listed) -> Result<(Op, Reading), Wrong>
        requires { (self.len ≤ length words.now) × (self.len < 4294967296) }
        ensures { EntrySays self words.now (entry listed) result }
    {
        let (name, behind) = self.expect(words, Wanted::Name)?;
        match listed {
            Listed::Names => Ok((Op::Const(name), behind)),
            Listed::Fields => {
                let (ty, behind) = behind.expect(words, Wanted::TypeWord)?;
                Ok((Op::Slot(name, ty), behind))
            }
        }
    }

    // A list.
    pub fn list(self, words: &mut [u32], listed: Listed) -> Result<Reading, Wrong>
        requires { Ready 4294967296 0 self words.old }
        ensures reads { Does self words.old words.new (λ _. reads listed) result }
        ensures few { IfOk result (λ q. q.count < q.«at») }
    {
        let mut here = self;
        loop {
            let (op, behind) = here.entry(words, listed)?;
            let read = behind.emit(words, op);
            match read.expect(words, Wanted::Comma) {
                Ok((_, on)) => here = on,
                Err(_) => return Ok(read),
            }
        }
    }
}
