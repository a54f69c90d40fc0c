// All files moved to the other half and back: what no file has is gone then. Lines get numbers anew.
ghost use Rattle.std.specs.Prelude.{◌*◌};
ghost use Rattle.interner.specs.Interner.{Blank};
ghost use Rattle.text_row.specs.Reclaim.{CanMove, CanReclaim, MoveSays, Reclaimed};
ghost use Rattle.text_row.specs.Row.{half};

use crate::half::{Part, sizes};
use crate::row::Row;

impl Row {
    // The same texts, and of the half no more in use than they need. What stands in the other half and in the words to work in is lost.
    pub fn reclaim(self, mem: &mut [u32])
        requires { CanReclaim self.unit self.unit (2 * self.unit) (11 * self.unit) self.work mem.old }
        ensures { Reclaimed self.unit self.unit (2 * self.unit) (11 * self.unit) self.work (2 * self.unit) mem.old mem.new }
    {
        let unit = self.unit;
        let sizes = sizes(unit);
        sizes.clear(&mut mem[11 * unit..11 * unit + 9 * unit], 1);
        self.move_all(mem);
        mem.copy_within(11 * unit..11 * unit + 9 * unit, 2 * unit);
    }

    // All files, one after the other, to the other half, which is empty. By index: the table stands in the row that is written.
    fn move_all(self, mem: &mut [u32])
        requires { (CanReclaim self.unit self.unit (2 * self.unit) (11 * self.unit) self.work mem.old) × (Blank self.unit (2 * self.unit) 1 (half self.unit (11 * self.unit) mem.old)) }
        ensures { Reclaimed self.unit self.unit (2 * self.unit) (11 * self.unit) self.work (11 * self.unit) mem.old mem.new }
    {
        let unit = self.unit;
        let n = mem[unit] as usize;
        for k in 0..n {
            let p = mem[unit + (1 + k)] as usize;
            let r = self.move_file(mem, p);
            mem[unit + (1 + k)] = r;
        }
    }

    // The file whose record stands at a place of the half in use, in the other half: where its record stands there.
    fn move_file(self, mem: &mut [u32], p: usize) -> u32
        requires { CanMove self.unit (2 * self.unit) (11 * self.unit) p self.work mem.old }
        ensures { MoveSays self.unit (2 * self.unit) (11 * self.unit) p self.work mem.old mem.new result }
    {
        let Row { unit, work } = self;
        let here = self.here();
        let there = self.there();
        let words = &mem[2 * unit..2 * unit + 9 * unit];
        let name = words[p];
        let size = words[p + 1];
        let end = here.copy_line(mem, name, work);
        let key = Part {
            at: work,
            len: end - work,
        };
        let f = there.intern(mem, key);
        here.write_text(mem, p, work);
        let text = Part {
            at: work,
            len: size as usize,
        };
        let out = work + text.len;
        let n = there.number_lines(mem, text, out);
        there.append(mem, f, size, Part { at: out, len: n })
    }
}
