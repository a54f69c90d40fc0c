// An edit of a file: its old text is written out, the new one built beside it, and put in its place.
ghost use Rattle.std.specs.Prelude.{◌≤◌, length};
ghost use Rattle.semantics.specs.Answers.{edits};
ghost use Rattle.store.specs.Edits.{EditSays, FrontSays};
ghost use Rattle.store.specs.Files.{texts, Fits};

use crate::texts::open;
use crate::view::View;
use interner::index::Sizes;
use interner::lines::extend;
use interner::refused::{NoRoom, Refused};

// What stands in a file's text from one place up to another is replaced. What `old` and `text` hold is lost.
pub fn edit(
    files: &mut [u32],
    words: &mut [u32],
    sizes: Sizes,
    name: &[u32],
    a: usize,
    b: usize,
    new: &[u32],
    old: &mut [u32],
    text: &mut [u32],
) -> Result<(), Refused>
    requires { Fits sizes.buckets sizes.cap files.old words.old }
    ensures filed { Fits sizes.buckets sizes.cap files.new words.new }
    ensures says { EditSays name.now a b new.now (texts sizes.buckets files.old words.old) (texts sizes.buckets files.new words.new) result }
{
    let view = View {
        files,
        words,
        sizes,
    };
    let k = view.file_of(name).ok_or(Refused::NoFile)?;
    let n = sizes.write_text(words, view.numbers_of(k), old)?;
    if b < a || n < b {
        return Err(Refused::NoPlace);
    }
    let m = splice(&old[..n], a, b, new, text)?;
    open(files, words, sizes, name, &text[..m], old)?;
    Ok(())
}

// A text with one part replaced, at the front of a row.
fn splice(old: &[u32], a: usize, b: usize, new: &[u32], out: &mut [u32]) -> Result<usize, NoRoom>
    requires { (a ≤ b) × (b ≤ length old.now) }
    ensures { FrontSays (edits a b new.now old.now) out.new result }
{
    let i = extend(out, 0, &old[..a])?;
    let j = extend(out, i, new)?;
    extend(out, j, &old[b..])
}
