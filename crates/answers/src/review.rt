// A file's lines gone over for its faults.
ghost use Rattle.std.specs.Prelude.{◌≡◌, ℕ, ◌+◌, ◌*◌, ◌≤◌, List, length};
ghost use Rattle.lexer.specs.Tokens.{lines};
ghost use Rattle.semantics.specs.Names.{File};
ghost use Rattle.semantics.specs.Answers.{faults_of, all_spoken};
ghost use Rattle.findings.specs.Gathered.{gathered};
ghost use Rattle.symbols.specs.Rows.{texts_in, table_row};

use crate::inspect::FileAt;
use declarations::declare::declared;
use findings::faults::gather;
use resolver::plain::Plain;
use source::Source;
use syntax::view::item_of;

// How far the lines were gone over: where the next begins in the file, how many names were declared, and how many faults were gathered.
#[derive(Clone, Copy)]
pub struct Walked {
    pub start: usize,
    pub before: usize,
    pub faults: usize,
}

impl FileAt {
    ghost use Rattle.answers.specs.Reviews.{Asked, LooksIn, Ready, Reviewing, Roomy, Walking};

    // What names are looked up in for a line of a file before which it has so many declarations.
    pub fn lookup(self, before: usize) -> Plain
        ensures { LooksIn self.l self.file before result }
    {
        Plain {
            from: 0,
            to: self.l.work,
            index: self.l.index,
            file: self.file,
            before,
        }
    }

    // One line more: the i-th of a file's lines.
    fn review_line<S: Source>(self, source: &S, words: &mut [u32], i: usize, at: Walked) -> Walked
        requires fits { S.Source.fits source.now (texts_in self.l words.old) }
        requires ready { Ready (S.Source.holds source.now (texts_in self.l words.old)) self.l words.old }
        requires walked { Walking (S.Source.holds source.now (texts_in self.l words.old)) self.l self.file self.base words.old i «at» }
        ensures { (ws : List ℕ) (x : File) → Asked (S.Source.holds source.now (texts_in self.l words.old)) self.file x → Reviewing (S.Source.holds source.now (texts_in self.l words.old)) x self.l ws words.old i «at» → Reviewing (S.Source.holds source.now (texts_in self.l words.old)) x self.l ws words.new (i + 1) result }
    {
        let look = self.lookup(at.before);
        let Some(seen) = self.inspect(source, &look, words, i) else {
            return at;
        };
        let names = declared(item_of(words, seen.len, self.base, seen.findings.ops));
        let faults = gather(
            words,
            seen.findings,
            at.start as u32,
            self.l.work,
            at.faults,
        );
        Walked {
            start: at.start + seen.len + 1,
            before: at.before + names,
            faults,
        }
    }

    // The faults of a file, gathered from the room to work in on: how many they are. What stands between the slot and that stays as it was.
    pub fn review<S: Source>(self, source: &S, words: &mut [u32]) -> usize
        requires fits { S.Source.fits source.now (texts_in self.l words.old) }
        requires ready { Ready (S.Source.holds source.now (texts_in self.l words.old)) self.l words.old }
        requires asked { (x : File) × Asked (S.Source.holds source.now (texts_in self.l words.old)) self.file x × Roomy self.l self.base (length x.text) words.old }
        ensures kept { table_row self.l words.new ≡ table_row self.l words.old }
        ensures within { self.l.work + 4 * result ≤ length words.new }
        ensures finds { (x : File) → Asked (S.Source.holds source.now (texts_in self.l words.old)) self.file x → gathered words.new self.l.work result ≡ faults_of (all_spoken (S.Source.holds source.now (texts_in self.l words.old)) x) }
    {
        let lines = source.lines(self.l.texts_of(words), self.file);
        let mut at = Walked {
            start: 0,
            before: 0,
            faults: 0,
        };
        for i in 0..lines {
            at = self.review_line(source, words, i, at);
        }
        at.faults
    }
}
