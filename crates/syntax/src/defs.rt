// A def, behind its word: its expression by the parser with a stack of its own.
ghost use Rattle.std.specs.Prelude.{◌+◌, ◌*◌, ◌<◌, IfOk};
ghost use Rattle.syntax.specs.Reads.{body_ops, def_ops, Ready, Does};

use crate::lists::Listed;
use crate::reading::Reading;
use crate::wanted::Wanted;
use parser::code::Op;
use parser::parse::{Wrong, parse};

impl Reading {
    // An expression.
    fn body(self, words: &mut [u32]) -> Result<Reading, Wrong>
        requires { Ready 4294967000 (9 * self.len + 64) self words.old }
        ensures reads { Does self words.old words.new (λ _. body_ops) result }
        ensures few { IfOk result (λ q. q.count < self.len) }
    {
        let code = self.base + 5 * self.count;
        let read = parse(words, self.len, self.at, code)?;
        Ok(Reading {
            at: read.at,
            count: self.count + read.count,
            ..self
        })
    }

    // The whole def.
    pub fn def(self, words: &mut [u32]) -> Result<Reading, Wrong>
        requires { Ready 4294967000 (9 * self.len + 64) self words.old }
        ensures { Does self words.old words.new (λ _. def_ops) result }
    {
        let start = self.start(words, Listed::Fields, Wanted::Open)?;
        let params = start.params(words)?;
        let outcome = params.def_result(words)?;
        let body = outcome.body(words)?;
        body.last(words, Op::Body)
    }
}
