// Declarations and files found by their names.
ghost use Rattle.std.specs.Prelude.{◌≡◌};

use crate::table::{Decl, Table};
use base::same_word;
use symbols::read::{HEAD, SLOT, word_at};

// Handles are below this.
pub const LIMIT: usize = 4294967290;

impl<'a> Decl<'a> {
    ghost use Rattle.resolver.specs.Resolve.{seek};

    // The first of n declarations from this one on that has a name, by its handle. Where the row or the limit ends, there is none.
    fn seek(self, name: &[u32], n: u32) -> Option<u32>
        ensures { result ≡ seek self.entry.words.now name.now n self.entry.handle }
    {
        let end = self.words.len().min(LIMIT);
        let mut at = self.handle as usize;
        for _i in 0..n {
            if at >= end {
                return None;
            }
            let d = Decl {
                words: self.words,
                handle: at as u32,
            };
            if same_word(d.name(), name) {
                return Some(d.handle);
            }
            at += HEAD + SLOT * d.field_count() as usize;
        }
        None
    }
}

impl<'a> Table<'a> {
    ghost use Rattle.resolver.specs.Resolve.{own, own_before, file_named, other_file, declared_in};

    // What a file itself declares under a name.
    pub fn own(self, k: usize, name: &[u32]) -> Option<u32>
        ensures { result ≡ own self.entry.words.now self.entry.index k name.now }
    {
        let first = self.decl(self.first_decl(k));
        first.seek(name, self.decl_count(k))
    }

    // The same among its first declarations alone.
    pub fn own_before(self, k: usize, before: usize, name: &[u32]) -> Option<u32>
        ensures { result ≡ own_before self.entry.words.now self.entry.index k before name.now }
    {
        let count = self.decl_count(k) as usize;
        let first = self.decl(self.first_decl(k));
        first.seek(name, before.min(count) as u32)
    }

    // The first file of a name, by its place in the order.
    pub fn file_named(self, name: &[u32]) -> Option<usize>
        ensures { result ≡ file_named self.entry.words.now self.entry.index name.now }
    {
        let files = word_at(self.words, self.index) as usize;
        (0..files).find(|&k| same_word(self.file_name(k), name))
    }

    // Whether a file that isn't called as this one is has a name.
    pub(crate) fn other_file(self, k: usize, name: &[u32]) -> bool
        ensures { result ≡ other_file self.entry.words.now self.entry.index k name.now }
    {
        self.file_named(name).is_some() && !same_word(name, self.file_name(k))
    }

    // The first declaration of a name in the file of a name.
    pub fn declared_in(self, file: &[u32], name: &[u32]) -> Option<u32>
        ensures { result ≡ declared_in self.entry.words.now self.entry.index file.now name.now }
    {
        let k = self.file_named(file)?;
        self.own(k, name)
    }
}
