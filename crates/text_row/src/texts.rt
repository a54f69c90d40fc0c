// The texts, as a caller sees them: an empty store, a file opened or given another text, edited and closed. The row's layout stands in
// specs/Changes.
ghost use Rattle.std.specs.Prelude.{◌≡◌, ◌<◌, [], length};
ghost use Rattle.text_row.specs.Changes.{CloseSays, EditSays, Kept, OpenSays, RowSays, Stays, Work, kept_texts, unit};

use crate::half::sizes;
use crate::row::{Edit, Row};
use interner::refused::{NoRoom, Refused};

// A shorter row holds no texts.
const LEAST: usize = 65536;

// A store without files.
pub fn create(mem: &mut [u32])
    requires { length mem.old < 4294967296 }
    ensures kept { Kept mem.new }
    ensures empty { kept_texts mem.new ≡ [] }
    ensures stays { Stays (unit mem.old) (length mem.old) mem.old mem.new }
{
    let unit = mem.len() / 40;
    if unit == 0 {
        return;
    }
    mem[unit] = 0;
    if mem.len() < LEAST {
        return;
    }
    sizes(unit).clear(&mut mem[2 * unit..2 * unit + 9 * unit], 1);
}

// A file of that name has this text from now on.
pub fn open(mem: &mut [u32], work: usize, name: &[u8], text: &[u8]) -> Result<(), NoRoom>
    requires kept { Kept mem.old }
    requires work { Work work mem.old }
    ensures kept { Kept mem.new }
    ensures says { OpenSays (kept_texts mem.old) (length mem.old) name.now text.now (kept_texts mem.new) result }
    ensures stays { Stays (unit mem.old) work mem.old mem.new }
{
    let row = row_of(mem, work).ok_or(NoRoom)?;
    row.open(mem, name, text)
}

// What stands in a file's text from one place up to another is replaced.
pub fn edit(
    mem: &mut [u32],
    work: usize,
    name: &[u8],
    from: usize,
    to: usize,
    new: &[u8],
) -> Result<(), Refused>
    requires kept { Kept mem.old }
    requires work { Work work mem.old }
    ensures kept { Kept mem.new }
    ensures says { EditSays (kept_texts mem.old) (length mem.old) name.now from to new.now (kept_texts mem.new) result }
    ensures stays { Stays (unit mem.old) work mem.old mem.new }
{
    let row = row_of(mem, work).ok_or(Refused::NoFile)?;
    row.edit(mem, name, Edit { from, to, new })
}

// A file is no more; whether it was open.
pub fn close(mem: &mut [u32], work: usize, name: &[u8]) -> bool
    requires kept { Kept mem.old }
    requires work { Work work mem.old }
    ensures kept { Kept mem.new }
    ensures says { CloseSays (kept_texts mem.old) name.now (kept_texts mem.new) result }
    ensures stays { Stays (unit mem.old) work mem.old mem.new }
{
    let Some(row) = row_of(mem, work) else {
        return false;
    };
    row.close(mem, name)
}

// How a row with these words to work in is divided, if it is long enough to hold texts.
fn row_of(mem: &[u32], work: usize) -> Option<Row>
    requires kept { Kept mem.now }
    requires work { Work work mem.now }
    ensures { RowSays work mem.now result }
{
    if mem.len() < LEAST {
        return None;
    }
    let unit = mem.len() / 40;
    Some(Row { unit, work })
}
