// A fresh row: an empty store, and the texts of another moved to it, without what no file has and under the same numbers.
ghost use Rattle.std.specs.Prelude.{◌≡◌, []};
ghost use Rattle.interner.specs.Index.{Live, Sound};
ghost use Rattle.interner.specs.Lines.{Every};
ghost use Rattle.store.specs.Files.{texts, FileOk, Fits};
ghost use Rattle.store.specs.Reclaim.{CreateSays, KeepAllSays, KeepSays, MoveSays, Part, ReclaimSays, RoomySays};

use crate::files::push_file;
use crate::view::View;
use interner::index::Sizes;
use interner::records::places;
use interner::refused::NoRoom;
use interner::row::bytes_from;

// How many words a row may have: a place has to fit in a word.
const MOST_WORDS: usize = 4294967295;

// A store without files; or none, where the words don't do for so many buckets and numbers.
pub fn create(files: &mut [u32], words: &mut [u32], sizes: Sizes) -> Result<(), NoRoom>
    ensures { CreateSays sizes.buckets sizes.cap files.old words.old files.new words.new result }
{
    roomy(files, words, sizes)?;
    // what stood behind the words that `clear` writes goes too
    words[2 + sizes.buckets..].fill(0);
    sizes.clear(words, 1);
    files[0] = 0;
    Ok(())
}

// The texts of one store in another, under the same numbers and without what no file has; or not, for want of room. What was in the other
// store is lost.
pub fn reclaim(
    files: &[u32],
    words: &[u32],
    table: &mut [u32],
    row: &mut [u32],
    sizes: Sizes,
) -> Result<(), NoRoom>
    requires { Fits sizes.buckets sizes.cap files.now words.now }
    ensures { ReclaimSays sizes.buckets sizes.cap files.now words.now table.new row.new result }
{
    roomy(table, row, sizes)?;
    row[2 + sizes.buckets + 2 * words[0] as usize..].fill(0);
    sizes.clear(row, words[0]);
    table[0] = 0;
    let from = View {
        files,
        words,
        sizes,
    };
    move_all(from, table, row)
}

// Words and a table do for so many buckets and numbers; or not.
fn roomy(files: &[u32], words: &[u32], sizes: Sizes) -> Result<(), NoRoom>
    ensures { RoomySays sizes.buckets sizes.cap files.now words.now result }
{
    let Sizes { buckets, cap } = sizes;
    let most = words.len();
    if most > MOST_WORDS || buckets > most || cap > most || 2 + buckets + 2 * cap > most {
        return Err(NoRoom);
    }
    if buckets == 0 || cap == 0 || files.len() == 0 {
        return Err(NoRoom);
    }
    Ok(())
}

// All files, one after the other, to a row that has some of the numbers and a table that has no file yet.
fn move_all(from: View<'_>, table: &mut [u32], row: &mut [u32]) -> Result<(), NoRoom>
    requires { (Fits from.sizes.buckets from.sizes.cap from.files.now from.words.now) × ((Part from.sizes.buckets from.sizes.cap from.words.now row.old) × ((Fits from.sizes.buckets from.sizes.cap table.old row.old) × (texts from.sizes.buckets table.old row.old ≡ []))) }
    ensures { ReclaimSays from.entry.sizes.buckets from.entry.sizes.cap from.entry.files.now from.entry.words.now table.new row.new result }
{
    for p in places(from.files) {
        move_file(from, table, row, *p as usize)?;
    }
    Ok(())
}

// The file whose record stands at a place of the words goes to the row, behind those that are there.
fn move_file(from: View<'_>, table: &mut [u32], row: &mut [u32], p: usize) -> Result<(), NoRoom>
    requires { (Sound from.sizes.buckets from.sizes.cap from.words.now) × ((FileOk from.sizes.buckets from.sizes.cap from.words.now p) × ((Part from.sizes.buckets from.sizes.cap from.words.now row.old) × (Fits from.sizes.buckets from.sizes.cap table.old row.old))) }
    ensures { MoveSays from.entry.sizes.buckets from.entry.sizes.cap from.entry.words.now table.old row.old table.new row.new p result }
{
    let f = from.words[p];
    let ns = bytes_from(from.words, p + 1);
    keep_number(from, row, f)?;
    keep_numbers(from, row, ns)?;
    push_file(table, row, from.sizes, f, ns)
}

// Each of these numbers in the row too.
fn keep_numbers(from: View<'_>, row: &mut [u32], ns: &[u32]) -> Result<(), NoRoom>
    requires { (Sound from.sizes.buckets from.sizes.cap from.words.now) × ((Every (Live from.sizes.buckets from.words.now) ns.now) × (Part from.sizes.buckets from.sizes.cap from.words.now row.old)) }
    ensures { KeepAllSays from.entry.sizes.buckets from.entry.sizes.cap from.entry.words.now row.old row.new ns.now result }
{
    for n in ns {
        keep_number(from, row, *n)?;
    }
    Ok(())
}

// One of the words' numbers in the row too, with its bytes.
fn keep_number(from: View<'_>, row: &mut [u32], n: u32) -> Result<(), NoRoom>
    requires { (Sound from.sizes.buckets from.sizes.cap from.words.now) × ((Live from.sizes.buckets from.words.now n) × (Part from.sizes.buckets from.sizes.cap from.words.now row.old)) }
    ensures { KeepSays from.entry.sizes.buckets from.entry.sizes.cap from.entry.words.now row.old row.new n result }
{
    let sizes = from.sizes;
    if sizes.place_of(row, n as usize) > 0 {
        return Ok(());
    }
    let key = sizes.line_of(from.words, n);
    if row.len() - (row[1] as usize) < 1 + key.len() {
        return Err(NoRoom);
    }
    sizes.add(row, n, key);
    Ok(())
}
