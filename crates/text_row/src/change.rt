// Changes of the texts in a long row: a file that is open gets another text, or one more is opened.
ghost use Rattle.std.specs.Prelude.{◌≡◌, ◌<◌, length};
ghost use Rattle.semantics.specs.Names.{find_file};
ghost use Rattle.text_row.specs.Changes.{ChangeSays, CloseSays, EditSays, Long, OpenSays, texts_in};
ghost use Rattle.text_row.specs.Files.{Found};
ghost use Rattle.std.proofs.Math.Option.{none};

use crate::half::Part;
use crate::row::{Edit, Row};
use crate::widen::widen;
use interner::refused::{NoRoom, Refused};

impl Row {
    // A file of that name has this text from now on.
    pub fn open(self, mem: &mut [u32], name: &[u8], text: &[u8]) -> Result<(), NoRoom>
        requires { Long self.unit self.work mem.old }
        ensures kept { ChangeSays self.unit self.work mem.old mem.new }
        ensures says { OpenSays (texts_in self.unit mem.old) (length mem.old) name.now text.now (texts_in self.unit mem.new) result }
    {
        if name.len() >= mem.len() || text.len() >= mem.len() {
            return Err(NoRoom);
        }
        match self.find_named(mem, name) {
            Some(k) => self.replace(mem, k, name, text),
            None => self.add(mem, name, text),
        }
    }

    // Another text for the k-th file, which has that name.
    fn replace(self, mem: &mut [u32], k: usize, name: &[u8], text: &[u8]) -> Result<(), NoRoom>
        requires row { Long self.unit self.work mem.old }
        requires found { Found (texts_in self.unit mem.old) name.now k }
        requires short { (length name.now < length mem.old) × (length text.now < length mem.old) }
        ensures kept { ChangeSays self.unit self.work mem.old mem.new }
        ensures says { OpenSays (texts_in self.unit mem.old) (length mem.old) name.now text.now (texts_in self.unit mem.new) result }
    {
        let work = self.work;
        if self.room_with(mem, k, name.len(), text.len()) > mem.len() {
            return Err(NoRoom);
        }
        self.make_room(mem, 2 * text.len() + 5, text.len() + 1);
        widen(mem, work, text);
        let f = self.name_of(mem, k);
        let text = Part {
            at: work,
            len: text.len(),
        };
        self.put_text(mem, k, f, text);
        Ok(())
    }

    // One more file.
    fn add(self, mem: &mut [u32], name: &[u8], text: &[u8]) -> Result<(), NoRoom>
        requires row { Long self.unit self.work mem.old }
        requires missing { find_file (texts_in self.unit mem.old) name.now ≡ none }
        requires short { (length name.now < length mem.old) × (length text.now < length mem.old) }
        ensures kept { ChangeSays self.unit self.work mem.old mem.new }
        ensures says { OpenSays (texts_in self.unit mem.old) (length mem.old) name.now text.now (texts_in self.unit mem.new) result }
    {
        let work = self.work;
        let k = self.count(mem);
        if self.room_with(mem, k, name.len(), text.len()) > mem.len() {
            return Err(NoRoom);
        }
        self.make_room(mem, name.len() + 2 * text.len() + 6, text.len() + 2);
        widen(mem, work, name);
        let key = Part {
            at: work,
            len: name.len(),
        };
        let f = self.here().intern(mem, key);
        widen(mem, work, text);
        let text = Part {
            at: work,
            len: text.len(),
        };
        self.put_text(mem, k, f, text);
        Ok(())
    }
    // What stands in a file's text from one place up to another is replaced.
    pub fn edit(self, mem: &mut [u32], name: &[u8], edit: Edit<'_>) -> Result<(), Refused>
        requires { Long self.unit self.work mem.old }
        ensures kept { ChangeSays self.unit self.work mem.old mem.new }
        ensures says { EditSays (texts_in self.unit mem.old) (length mem.old) name.now edit.entry.from edit.entry.to edit.entry.new.now (texts_in self.unit mem.new) result }
    {
        let k = self.find_named(mem, name).ok_or(Refused::NoFile)?;
        self.edit_at(mem, k, name, edit)
    }

    // The same in the k-th file, which has that name.
    fn edit_at(self, mem: &mut [u32], k: usize, name: &[u8], edit: Edit<'_>) -> Result<(), Refused>
        requires row { Long self.unit self.work mem.old }
        requires found { Found (texts_in self.unit mem.old) name.now k }
        ensures kept { ChangeSays self.unit self.work mem.old mem.new }
        ensures says { EditSays (texts_in self.unit mem.old) (length mem.old) name.now edit.entry.from edit.entry.to edit.entry.new.now (texts_in self.unit mem.new) result }
    {
        let Row { unit, work } = self;
        let Edit { from, to, new } = edit;
        let q = self.record_of(mem, k);
        let old = mem[2 * unit + (q + 1)] as usize;
        if to < from || old < to {
            return Err(Refused::NoPlace);
        }
        if new.len() >= mem.len() {
            return Err(Refused::NoRoom);
        }
        let len = from + new.len() + (old - to);
        if self.room_with(mem, k, name.len(), len) > mem.len() {
            return Err(Refused::NoRoom);
        }
        self.make_room(mem, 2 * len + 5, len + 1);
        self.lay_edited(mem, k, edit);
        let f = self.name_of(mem, k);
        self.put_text(mem, k, f, Part { at: work, len });
        Ok(())
    }

    // The files of that name leave the table; whether there was one.
    pub fn close(self, mem: &mut [u32], name: &[u8]) -> bool
        requires { Long self.unit self.work mem.old }
        ensures kept { ChangeSays self.unit self.work mem.old mem.new }
        ensures says { CloseSays (texts_in self.unit mem.old) name.now (texts_in self.unit mem.new) result }
    {
        let Some(k) = self.find_named(mem, name) else {
            return false;
        };
        let f = self.name_of(mem, k);
        self.drop_files(mem, f);
        true
    }
}
