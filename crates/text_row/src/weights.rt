// The files as they stand, to be read: the file of a name, and how many words the texts want.
ghost use Rattle.std.specs.Prelude.{◌*◌, ◌<◌, ◌≤◌, slice_index};
ghost use Rattle.semantics.specs.Answers.{weigh_texts};
ghost use Rattle.interner.specs.Places.{IndexSays};
ghost use Rattle.text_row.specs.Files.{texts, FileOfSays, Fits};
ghost use Rattle.text_row.specs.Weights.{RoomSays, WeighSays};

use crate::half::sizes;
use interner::records::{places, position_of};

// The table of files, and the half with their records.
#[derive(Clone, Copy)]
pub struct Files<'a> {
    pub table: &'a [u32],
    pub words: &'a [u32],
    pub unit: usize,
}

// What some of the texts weigh, and how long the longest of them is.
#[derive(Clone, Copy)]
struct Weight {
    total: usize,
    largest: usize,
}

impl Files<'_> {
    // The file of a name, if it is open: its place in the table.
    pub fn file_of(self, name: &[u32]) -> Option<usize>
        requires { Fits self.unit (2 * self.unit) self.table.now self.words.now }
        ensures { FileOfSays (texts self.entry.unit self.entry.table.now self.entry.words.now) name.now result }
    {
        let sizes = sizes(self.unit);
        let f = sizes.find(self.words, name)?;
        position_of(self.table, self.words, f)
    }

    // The room that the texts want once the k-th place, that of a file or the one behind the last, has a file with a name and a text so long.
    pub fn room_with(self, k: usize, name: usize, size: usize) -> usize
        requires fits { Fits self.unit (2 * self.unit) self.table.now self.words.now }
        requires there { k ≤ slice_index self.table.now 0 }
        requires light { weigh_texts (texts self.unit self.table.now self.words.now) < 4294967296 }
        requires short { (name < 8589934592) × (size < 8589934592) }
        ensures { RoomSays (texts self.entry.unit self.entry.table.now self.entry.words.now) k name size result }
    {
        let n = self.table[0] as usize;
        let before = self.weigh(0, k);
        let behind = self.weigh(k + 1, n);
        let total = before.total + (16 + (name + size) + behind.total);
        let largest = before.largest.max(size.max(behind.largest));
        65536 + 24 * total + 256 * largest
    }

    // The weight of the files from one place of the table up to another.
    fn weigh(self, from: usize, to: usize) -> Weight
        requires fits { Fits self.unit (2 * self.unit) self.table.now self.words.now }
        requires there { to ≤ slice_index self.table.now 0 }
        requires light { weigh_texts (texts self.unit self.table.now self.words.now) < 4294967296 }
        ensures { WeighSays (texts self.entry.unit self.entry.table.now self.entry.words.now) from to result.total result.largest }
    {
        let Files { table, words, unit } = self;
        let sizes = sizes(unit);
        let mut total = 0;
        let mut largest = 0;
        for p in &places(table)[from.min(to)..to] {
            let p = *p as usize;
            let name = words[sizes.place_of(words, words[p] as usize)] as usize;
            let size = words[p + 1] as usize;
            total += 16 + (name + size);
            largest = size.max(largest);
        }
        Weight { total, largest }
    }
}
