// The parts of an item, each read into operations behind those that stand already.
ghost use Rattle.std.specs.Prelude.{◌<◌, IfOk};
ghost use Rattle.syntax.specs.Reads.{start_ops, params_ops, result_ops, Ready, Does};

use crate::lists::Listed;
use crate::reading::Reading;
use crate::wanted::Wanted;
use parser::code::Op;
use parser::parse::Wrong;

impl Reading {
    // The name that a line declares, and the sign behind it.
    pub fn start(self, words: &mut [u32], listed: Listed, sign: Wanted) -> Result<Reading, Wrong>
        requires { Ready 4294967296 0 self words.old }
        ensures reads { Does self words.old words.new (λ _. start_ops listed sign) result }
        ensures few { IfOk result (λ q. q.count < q.«at») }
    {
        let (name, behind) = self.expect(words, Wanted::Name)?;
        let (_, list) = behind.expect(words, sign)?;
        Ok(list.emit(words, listed.head(name)))
    }

    // A def's parameters, or none.
    pub fn params(self, words: &mut [u32]) -> Result<Reading, Wrong>
        requires { Ready 4294967296 0 self words.old }
        ensures reads { Does self words.old words.new (λ _. params_ops) result }
        ensures few { IfOk result (λ q. q.count < q.«at») }
    {
        if Wanted::Close.is(self.next(words).token) {
            return Ok(self);
        }
        self.list(words, Listed::Fields)
    }

    // The end of the parameters, and a def's result.
    pub fn def_result(self, words: &mut [u32]) -> Result<Reading, Wrong>
        requires { Ready 4294967296 0 self words.old }
        ensures reads { Does self words.old words.new (λ _. result_ops) result }
        ensures few { IfOk result (λ q. q.count < q.«at») }
    {
        let (_, behind) = self.expect(words, Wanted::Close)?;
        let (ty, behind) = behind.expect(words, Wanted::TypeWord)?;
        let (_, body) = behind.expect(words, Wanted::Gets)?;
        Ok(body.emit(words, Op::Result(ty)))
    }
}
