// One half of the row: lines by number, and files' records behind them. The layout stands in specs/Row.
ghost use Rattle.std.specs.Prelude.{◌≡◌, ◌*◌, ◌<◌};
ghost use Rattle.text_row.specs.Copies.{CanCopy, CanWrite, CopySays, WriteSays};
ghost use Rattle.text_row.specs.Files.{AppendSays, CanAppend};
ghost use Rattle.text_row.specs.Interner.{CanIntern, CanNumber, InternSays, NumberSays};

use interner::index::Sizes;
use interner::row::bytes_from;

// Where a half stands, and of how many units of words the row is.
#[derive(Clone, Copy)]
pub struct Half {
    pub unit: usize,
    pub at: usize,
}

// Words of the row from a place on.
#[derive(Clone, Copy)]
pub struct Part {
    pub at: usize,
    pub len: usize,
}

// How many buckets and numbers the lines of a half have.
pub(crate) fn sizes(unit: usize) -> Sizes
    requires { 2 * unit < 18446744073709551616 }
    ensures { result ≡ record { buckets = unit; cap = 2 * unit } }
{
    Sizes {
        buckets: unit,
        cap: 2 * unit,
    }
}

impl Half {
    // The number that bytes of the row, above the half, have in it, a new one if they had none.
    pub fn intern(self, mem: &mut [u32], key: Part) -> u32
        requires { CanIntern self.unit self.at key.at key.len mem.old }
        ensures { InternSays self.unit self.at key.at key.len mem.old mem.new result }
    {
        let sizes = sizes(self.unit);
        let (low, high) = mem.split_at_mut(key.at);
        sizes.number(&mut low[self.at..self.at + 9 * self.unit], &high[..key.len])
    }

    // Numbers for the lines of a text that stands in the row above the half, written to another place of it, behind the text; how many. There
    // is room for them.
    pub fn number_lines(self, mem: &mut [u32], text: Part, out: usize) -> usize
        requires { CanNumber self.unit self.at text.at text.len out mem.old }
        ensures { NumberSays self.unit self.at text.at text.len out mem.old mem.new result }
    {
        let sizes = sizes(self.unit);
        let (low, rest) = mem.split_at_mut(text.at);
        let (front, numbers) = rest.split_at_mut(out - text.at);
        let words = &mut low[self.at..self.at + 9 * self.unit];
        let Ok(n) = sizes.number_lines(words, &front[..text.len], numbers) else {
            unreachable!()
        };
        n
    }

    // A file's record behind all else in the pool, with numbers that stand above the half; where it stands.
    pub fn append(self, mem: &mut [u32], name: u32, size: u32, ns: Part) -> u32
        requires { CanAppend self.unit self.at ns.at ns.len mem.old }
        ensures { AppendSays self.unit self.at name size ns.at ns.len mem.old mem.new result }
    {
        let sizes = sizes(self.unit);
        let (low, high) = mem.split_at_mut(ns.at);
        sizes.append(
            &mut low[self.at..self.at + 9 * self.unit],
            &[name, size],
            &high[..ns.len],
        )
    }

    // The bytes that a number stands for, from a place above the half on; where they end.
    pub fn copy_line(self, mem: &mut [u32], n: u32, to: usize) -> usize
        requires { CanCopy self.unit self.at n to mem.old }
        ensures { CopySays self.unit self.at n to mem.old mem.new result }
    {
        let sizes = sizes(self.unit);
        let words = &mem[self.at..self.at + 9 * self.unit];
        let p = sizes.place_of(words, n as usize);
        let len = words[p] as usize;
        let from = self.at + (p + 1);
        mem.copy_within(from..from + len, to);
        to + len
    }

    // The text of the file whose record stands at a place of the half, from a place above the half on: there is room for it.
    pub fn write_text(self, mem: &mut [u32], p: usize, to: usize)
        requires { CanWrite self.unit self.at p to mem.old }
        ensures { WriteSays self.unit self.at p to mem.old mem.new }
    {
        let sizes = sizes(self.unit);
        let (low, high) = mem.split_at_mut(to);
        let words = &low[self.at..self.at + 9 * self.unit];
        let Ok(_end) = sizes.write_text(words, bytes_from(words, p + 2), high) else {
            unreachable!()
        };
    }
}
