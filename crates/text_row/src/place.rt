// A file's place in the row: the file of a name, room for another text, and the text put there.
ghost use Rattle.std.specs.Prelude.{◌≡◌, ◌+◌, ◌-◌, ◌*◌, ◌<◌, ◌≤◌, length, slice_index};
ghost use Rattle.text_row.specs.Changes.{CanLay, CanMake, CanPutText, FilesSays, LaySays, Long, MakeSays, NameSays, NamedSays, PutTextSays, RecordSays, SpliceSays, texts_in};
ghost use Rattle.text_row.specs.Files.{CanPut, DropSays, EnlistSays, Fits, PutSays};
ghost use Rattle.text_row.specs.Row.{half, table};
ghost use Rattle.text_row.specs.Weights.{RoomSays};

use crate::half::Part;
use crate::row::{Edit, Row};
use crate::weights::Files;
use crate::widen::widen;
use interner::records::drop_named;

impl Row {
    // The files as they stand.
    fn files(self, mem: &[u32]) -> Files<'_>
        requires { 11 * self.unit ≤ length mem.now }
        ensures { FilesSays self.unit mem.now result.unit result.table.now result.words.now }
    {
        let unit = self.unit;
        Files {
            table: &mem[unit..unit + unit],
            words: &mem[2 * unit..2 * unit + 9 * unit],
            unit,
        }
    }

    // How many files there are.
    pub fn count(self, mem: &[u32]) -> usize
        requires { (0 < self.unit) × (11 * self.unit ≤ length mem.now) }
        ensures { result ≡ slice_index (table self.unit self.unit mem.now) 0 }
    {
        self.files(mem).table[0] as usize
    }

    // The room that the texts want once the k-th place, that of a file or the one behind the last, has a file with a name and a text so long.
    pub fn room_with(self, mem: &[u32], k: usize, name: usize, size: usize) -> usize
        requires row { Long self.unit self.work mem.now }
        requires there { k ≤ slice_index (table self.unit self.unit mem.now) 0 }
        requires short { (name < 8589934592) × (size < 8589934592) }
        ensures { RoomSays (texts_in self.unit mem.now) k name size result }
    {
        self.files(mem).room_with(k, name, size)
    }

    // The file of a name, if it is open. The name is laid at the front of the words to work in.
    pub fn find_named(self, mem: &mut [u32], name: &[u8]) -> Option<usize>
        requires { Long self.unit self.work mem.old }
        ensures { NamedSays self.unit self.work name.now mem.old mem.new result }
    {
        let work = self.work;
        if name.len() > mem.len() - work {
            return None;
        }
        widen(mem, work, name);
        // shared whole: two parts of it are read at once
        let mem = &mem[..];
        self.files(mem).file_of(&mem[work..work + name.len()])
    }

    // Sees to it that the half in use has room for so many words and numbers more.
    pub fn make_room(self, mem: &mut [u32], words: usize, numbers: usize)
        requires { CanMake self.unit self.work words numbers mem.old }
        ensures { MakeSays self.unit self.work words numbers mem.old mem.new }
    {
        let unit = self.unit;
        let half = &mem[2 * unit..2 * unit + 9 * unit];
        if half[1] as usize + words <= 9 * unit && half[0] as usize + numbers <= 2 * unit {
            return;
        }
        self.reclaim(mem);
    }

    // A text that stands in the row is from now on that of the k-th file, or of one more, whose name has a number.
    pub fn put_text(self, mem: &mut [u32], k: usize, name: u32, text: Part)
        requires { CanPutText self.unit k name text.at text.len mem.old }
        ensures { PutTextSays self.unit k name text.at text.len mem.old mem.new }
    {
        let out = text.at + text.len;
        let n = self.here().number_lines(mem, text, out);
        self.put_file(mem, k, name, text.len as u32, Part { at: out, len: n });
    }

    // A file's record, with the name's number, the text's length and its lines' numbers, in the k-th place of the table: that of a file, or
    // the one behind the last.
    fn put_file(self, mem: &mut [u32], k: usize, name: u32, size: u32, ns: Part)
        requires { CanPut self.unit self.unit (2 * self.unit) k name size ns.at ns.len mem.old }
        ensures { PutSays self.unit self.unit (2 * self.unit) k name ns.at ns.len mem.old mem.new }
    {
        let p = self.here().append(mem, name, size, ns);
        enlist(&mut mem[self.unit..self.unit + self.unit], k, p);
    }

    // The files whose name has this number leave the table; the others keep their order.
    pub fn drop_files(self, mem: &mut [u32], name: u32)
        requires { (Fits self.unit (2 * self.unit) (table self.unit self.unit mem.old) (half self.unit (2 * self.unit) mem.old)) × (11 * self.unit ≤ length mem.old) }
        ensures { DropSays self.unit self.unit (2 * self.unit) name mem.old mem.new }
    {
        let unit = self.unit;
        let (low, high) = mem.split_at_mut(2 * unit);
        drop_named(&mut low[unit..unit + unit], &high[..9 * unit], name);
    }

    // Where the record of the k-th file stands in the half in use.
    pub fn record_of(self, mem: &[u32], k: usize) -> usize
        requires { (Fits self.unit (2 * self.unit) (table self.unit self.unit mem.now) (half self.unit (2 * self.unit) mem.now)) × ((k < length (texts_in self.unit mem.now)) × (20 * self.unit ≤ length mem.now)) }
        ensures { RecordSays self.unit k mem.now result }
    {
        let unit = self.unit;
        mem[unit + (1 + k)] as usize
    }

    // The number of the k-th file's name.
    pub fn name_of(self, mem: &[u32], k: usize) -> u32
        requires { (Fits self.unit (2 * self.unit) (table self.unit self.unit mem.now) (half self.unit (2 * self.unit) mem.now)) × ((k < length (texts_in self.unit mem.now)) × (20 * self.unit ≤ length mem.now)) }
        ensures { NameSays self.unit k mem.now result }
    {
        let p = self.record_of(mem, k);
        mem[2 * self.unit + p]
    }

    // The text of the k-th file, with a part of it replaced, from a place above all that is kept on.
    pub fn lay_edited(self, mem: &mut [u32], k: usize, edit: Edit<'_>)
        requires { CanLay self.unit self.work k edit.from edit.to edit.new.now mem.old }
        ensures { LaySays self.unit self.work k edit.entry.from edit.entry.to edit.entry.new.now mem.old mem.new }
    {
        let p = self.record_of(mem, k);
        let old = mem[2 * self.unit + (p + 1)] as usize;
        self.here().write_text(mem, p, self.work);
        let text = Part {
            at: self.work,
            len: old,
        };
        splice(mem, text, edit);
    }
}

// Replaces a part of a text that stands in the row; what stands behind it is lost.
fn splice(mem: &mut [u32], text: Part, edit: Edit<'_>)
    requires { (edit.from ≤ edit.to) × ((edit.to ≤ text.len) × ((text.at + text.len ≤ length mem.old) × (text.at + edit.from + length edit.new.now + (text.len - edit.to) ≤ length mem.old))) }
    ensures { SpliceSays text.at text.len edit.entry.from edit.entry.to edit.entry.new.now mem.old mem.new }
{
    let Edit { from, to, new } = edit;
    mem.copy_within(text.at + to..text.at + text.len, text.at + from + new.len());
    widen(mem, text.at + from, new);
}

// A record's place in the k-th place of a table: that of a file, or the one behind the last.
fn enlist(files: &mut [u32], k: usize, p: u32)
    requires { (k ≤ slice_index files.old 0) × ((1 + slice_index files.old 0 ≤ length files.old) × ((k + 2 ≤ length files.old) × (length files.old < 4294967296))) }
    ensures { EnlistSays k p files.old files.new }
{
    files[1 + k] = p;
    if files[0] as usize > k {
        return;
    }
    files[0] = k as u32 + 1;
}
