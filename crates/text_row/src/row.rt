// The row: how its words are divided stands in specs/Changes.
ghost use Rattle.std.specs.Prelude.{◌≡◌, ◌*◌, ◌<◌};

use crate::half::Half;

// Of how many units of words it is, and where the words to work in begin.
#[derive(Clone, Copy)]
pub struct Row {
    pub unit: usize,
    pub work: usize,
}

impl Row {
    // The half in use.
    pub fn here(self) -> Half
        requires { 2 * self.unit < 18446744073709551616 }
        ensures { result ≡ record { unit = self.unit; at = 2 * self.unit } }
    {
        let unit = self.unit;
        Half { unit, at: 2 * unit }
    }

    // The other half, to which all files are moved when room is wanted.
    pub fn there(self) -> Half
        requires { 11 * self.unit < 18446744073709551616 }
        ensures { result ≡ record { unit = self.unit; at = 11 * self.unit } }
    {
        let unit = self.unit;
        Half {
            unit,
            at: 11 * unit,
        }
    }
}

// What stands in a text from one place up to another is to be replaced.
#[derive(Clone, Copy)]
pub struct Edit<'a> {
    pub from: usize,
    pub to: usize,
    pub new: &'a [u8],
}
