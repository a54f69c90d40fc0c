// The texts, as a caller sees them: to open a file or give it another text, and to close it.
ghost use Rattle.store.specs.Files.{texts, CloseSays, Fits, PutSays};

use crate::files::{push_file, replace_file};
use crate::view::View;
use interner::index::Sizes;
use interner::records::drop_named;
use interner::refused::NoRoom;

// A file has this text from now on; or the texts are as they were, for want of room. What `work` holds is lost.
pub fn open(
    files: &mut [u32],
    words: &mut [u32],
    sizes: Sizes,
    name: &[u32],
    text: &[u32],
    work: &mut [u32],
) -> Result<(), NoRoom>
    requires { Fits sizes.buckets sizes.cap files.old words.old }
    ensures filed { Fits sizes.buckets sizes.cap files.new words.new }
    ensures says { PutSays name.now text.now (texts sizes.buckets files.old words.old) (texts sizes.buckets files.new words.new) result }
{
    let f = sizes.intern(words, name)?;
    let n = sizes.number_lines(words, text, work)?;
    let view = View {
        files,
        words,
        sizes,
    };
    match view.file_named(f) {
        Some(k) => replace_file(files, words, sizes, k, f, &work[..n]),
        None => push_file(files, words, sizes, f, &work[..n]),
    }
}

// A file is no more; whether it was open.
pub fn close(files: &mut [u32], words: &[u32], sizes: Sizes, name: &[u32]) -> bool
    requires { Fits sizes.buckets sizes.cap files.old words.now }
    ensures filed { Fits sizes.buckets sizes.cap files.new words.now }
    ensures says { CloseSays name.now (texts sizes.buckets files.old words.now) (texts sizes.buckets files.new words.now) result }
{
    let view = View {
        files,
        words,
        sizes,
    };
    let Some(k) = view.file_of(name) else {
        return false;
    };
    let f = words[view.record_of(k)];
    drop_named(files, words, f);
    true
}
