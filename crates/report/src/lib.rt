// How a fault is shown to a person: the line itself, one sign a byte, and a mark under the place.
#![tactic(auto)]

ghost use Rattle.std.specs.Prelude.{◌≡◌, ℕ, ◌-◌, ◌++◌, replicate, OnOk};
ghost use Rattle.report.specs.Shown.{shown, all_shown, wide, mark};

use std::alloc::AllocError;
use std::iter::repeat_n;

// A byte as it is shown.
pub fn sign_of(c: u32) -> u8
    ensures { result ≡ shown c }
{
    match c {
        32..=126 => c as u8,
        9 | 13 => b' ',
        _ => b'?',
    }
}

// The line as it is shown, behind what stands in out.
pub fn show_line(out: &mut Vec<u8>, line: &[u32]) -> Result<(), AllocError>
    ensures { OnOk result (out.new.items ≡ out.old.items ++ all_shown line.now) }
{
    out.extend(line.iter().map(|c| sign_of(*c)))
}

// How wide the mark is: as the piece, or one sign behind the last piece.
fn width(from: usize, to: usize) -> usize
    ensures { result ≡ wide from to }
{
    to.saturating_sub(from).max(1)
}

// The mark under the bytes from a place to another, behind what stands in out.
pub fn show_mark(out: &mut Vec<u8>, from: usize, to: usize) -> Result<(), AllocError>
    ensures { OnOk result (out.new.items ≡ out.old.items ++ mark from to) }
{
    out.extend(repeat_n(b' ', from))?;
    out.extend(repeat_n(b'^', width(from, to)))
}
