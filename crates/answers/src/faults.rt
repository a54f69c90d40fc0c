// The faults of a file, as an answer.
ghost use Rattle.std.specs.Prelude.{◌≡◌, length};
ghost use Rattle.semantics.specs.Names.{File};
ghost use Rattle.semantics.specs.Answers.{faults_of, all_spoken};
ghost use Rattle.findings.specs.Giving.{GivenSays};
ghost use Rattle.symbols.specs.Rows.{texts_in, table_row};

use crate::inspect::FileAt;
use findings::give::{Short, give_faults};
use source::Source;

impl FileAt {
    ghost use Rattle.answers.specs.Reviews.{Asked, Ready, Roomy};

    // The faults of a file, three numbers each, at the front of out; or how many numbers it would take, and out as it was. What stands
    // between the slot and the room to work in stays as it was.
    pub fn faults<S: Source>(
        self,
        source: &S,
        words: &mut [u32],
        out: &mut [u64],
    ) -> Result<usize, Short>
        requires fits { S.Source.fits source.now (texts_in self.l words.old) }
        requires ready { Ready (S.Source.holds source.now (texts_in self.l words.old)) self.l words.old }
        requires asked { (x : File) × Asked (S.Source.holds source.now (texts_in self.l words.old)) self.file x × Roomy self.l self.base (length x.text) words.old }
        ensures kept { table_row self.l words.new ≡ table_row self.l words.old }
        ensures answers { (x : File) → Asked (S.Source.holds source.now (texts_in self.l words.old)) self.file x → GivenSays (faults_of (all_spoken (S.Source.holds source.now (texts_in self.l words.old)) x)) out.old out.new result }
    {
        let n = self.review(source, words);
        give_faults(words, self.l.work, n, out)
    }
}
