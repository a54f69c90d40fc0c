// What answers are read from: files in their order, each a name and lines, in words of a row. Knows nothing of how they are kept.
#![tactic(auto)]

ghost use Rattle.std.specs.Prelude.{◌≡◌, ℕ, List, length};
ghost use Rattle.semantics.specs.Names.{Texts};
ghost use Rattle.source.specs.Source.{NameSays, CountSays, LineSays, FindSays};

// A part of a row: where it begins, and how many words it has.
#[derive(Clone, Copy)]
pub struct Extent {
    pub from: usize,
    pub len: usize,
}

// Texts in words: 'holds' are the texts that words stand for, 'fits' says that words are in order. Words are passed to each call, for a
// source keeps none: they are lent, and between calls others may write to them.
pub trait Source {
    ghost holds: { Self → List ℕ → Texts };

    ghost fits: { Self → List ℕ → Type 0 };

    // How many files there are.
    fn files(&self, m: &[u32]) -> usize
        requires { fits self.now m.now }
        ensures { result ≡ length (holds self.now m.now) };

    // Where the name of a file stands.
    fn name(&self, m: &[u32], file: usize) -> Option<Extent>
        requires { fits self.now m.now }
        ensures { NameSays (holds self.now m.now) file m.now result };

    // How many lines a file has.
    fn lines(&self, m: &[u32], file: usize) -> usize
        requires { fits self.now m.now }
        ensures { CountSays (holds self.now m.now) file result };

    // Where a line of a file stands.
    fn line(&self, m: &[u32], file: usize, i: usize) -> Option<Extent>
        requires { fits self.now m.now }
        ensures { LineSays (holds self.now m.now) file i m.now result };

    // Which file has that name.
    fn find(&self, m: &[u32], name: &[u32]) -> Option<usize>
        requires { fits self.now m.now }
        ensures { FindSays (holds self.now m.now) name.now result };
}
