// The table of files, and their records in the pool: the layout stands in specs/Files.
ghost use Rattle.std.specs.Prelude.{◌≡◌, ◌<◌, slice_index};
ghost use Rattle.interner.specs.Index.{Live, NoMore, Sound};
ghost use Rattle.interner.specs.Lines.{Every};
ghost use Rattle.store.specs.Files.{AppendSays, Fits, PushSays, ReplaceSays};

use interner::index::Sizes;
use interner::refused::NoRoom;

// Other lines for a file; or all is as it was, for want of room.
pub fn replace_file(
    files: &mut [u32],
    words: &mut [u32],
    sizes: Sizes,
    k: usize,
    f: u32,
    ns: &[u32],
) -> Result<(), NoRoom>
    requires { (Fits sizes.buckets sizes.cap files.old words.old) × ((k < slice_index files.old 0) × ((Live sizes.buckets words.old f) × (Every (Live sizes.buckets words.old) ns.now))) }
    ensures filed { Fits sizes.buckets sizes.cap files.new words.new }
    ensures says { ReplaceSays sizes.buckets files.old words.old k f ns.now files.new words.new result }
{
    files[1 + k] = append(words, sizes, f, ns)?;
    Ok(())
}

// One more file, behind the others; or all is as it was, for want of room.
pub fn push_file(
    files: &mut [u32],
    words: &mut [u32],
    sizes: Sizes,
    f: u32,
    ns: &[u32],
) -> Result<(), NoRoom>
    requires { (Fits sizes.buckets sizes.cap files.old words.old) × ((Live sizes.buckets words.old f) × (Every (Live sizes.buckets words.old) ns.now)) }
    ensures filed { Fits sizes.buckets sizes.cap files.new words.new }
    ensures more { NoMore sizes.buckets words.old words.new }
    ensures says { PushSays sizes.buckets files.old words.old f ns.now files.new words.new result }
{
    let n = files[0];
    if files.len() <= n as usize + 1 || n == u32::MAX {
        return Err(NoRoom);
    }
    files[1 + n as usize] = append(words, sizes, f, ns)?;
    files[0] = n + 1;
    Ok(())
}

// A file's record behind all else in the pool; or none, where there is no room.
fn append(words: &mut [u32], sizes: Sizes, name: u32, ns: &[u32]) -> Result<u32, NoRoom>
    requires { Sound sizes.buckets sizes.cap words.old }
    ensures { AppendSays sizes.buckets sizes.cap words.old name ns.now words.new result }
{
    if words.len() - (words[1] as usize) < 2 + ns.len() {
        return Err(NoRoom);
    }
    Ok(sizes.append(words, &[name], ns))
}
