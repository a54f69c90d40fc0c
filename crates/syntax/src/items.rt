// Whole items but defs.
ghost use Rattle.syntax.specs.Reads.{use_ops, block_ops, Ready, Does};

use crate::lists::Listed;
use crate::reading::Reading;
use crate::wanted::Wanted;
use parser::code::Op;
use parser::parse::Wrong;

impl Reading {
    // A use, behind its word.
    pub fn use_item(self, words: &mut [u32]) -> Result<Reading, Wrong>
        requires { Ready 4294967296 0 self words.old }
        ensures { Does self words.old words.new (λ _. use_ops) result }
    {
        let (name, behind) = self.expect(words, Wanted::Name)?;
        behind.last(words, Op::Use(name))
    }

    // A kind or a record, behind its word.
    pub fn block(self, words: &mut [u32], listed: Listed) -> Result<Reading, Wrong>
        requires { Ready 4294967296 0 self words.old }
        ensures { Does self words.old words.new (λ _. block_ops listed) result }
    {
        let start = self.start(words, listed, Wanted::Gets)?;
        let list = start.list(words, listed)?;
        list.end(words)
    }
}
