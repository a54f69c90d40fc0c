// The texts as they stand, to be read: the table of files and the words behind it.
ghost use Rattle.std.specs.Prelude.{◌≡◌, ◌+◌, ◌<◌, slice_index};
ghost use Rattle.interner.specs.Index.{bytes_at, bytes, Live, Sound};
ghost use Rattle.interner.specs.Places.{IndexSays};
ghost use Rattle.store.specs.Files.{FileOfSays, Fits};

use interner::index::Sizes;
use interner::records::position_of;
use interner::row::bytes_from;

#[derive(Clone, Copy)]
pub struct View<'a> {
    pub files: &'a [u32],
    pub words: &'a [u32],
    pub sizes: Sizes,
}

impl<'a> View<'a> {
    // The file of a name, if it is open: its place in the table.
    pub fn file_of(self, name: &[u32]) -> Option<usize>
        requires { Fits self.sizes.buckets self.sizes.cap self.files.now self.words.now }
        ensures { FileOfSays self.entry.sizes.buckets self.entry.files.now self.entry.words.now name.now result }
    {
        let f = self.sizes.find(self.words, name)?;
        self.file_named(f)
    }

    // Which file's name has this number.
    pub fn file_named(self, f: u32) -> Option<usize>
        requires { Fits self.sizes.buckets self.sizes.cap self.files.now self.words.now }
        ensures { IndexSays self.entry.files.now self.entry.words.now f result }
    {
        position_of(self.files, self.words, f)
    }

    // Where the record of the k-th file stands.
    pub fn record_of(self, k: usize) -> usize
        requires { (Fits self.sizes.buckets self.sizes.cap self.files.now self.words.now) × (k < slice_index self.files.now 0) }
        ensures { result ≡ slice_index self.entry.files.now (1 + k) }
    {
        self.files[1 + k] as usize
    }

    // The numbers of the lines of the k-th file.
    pub fn numbers_of(self, k: usize) -> &'a [u32]
        requires { (Fits self.sizes.buckets self.sizes.cap self.files.now self.words.now) × (k < slice_index self.files.now 0) }
        ensures { result.now ≡ bytes_at self.entry.words.now (slice_index self.entry.files.now (1 + k) + 1) }
    {
        bytes_from(self.words, self.record_of(k) + 1)
    }
}
