// corpus: reads lines of the language from standard input, and prints of each what it is, with the places of its parts.
// All that it says of a line comes from the library; here is only what reads and prints.
#![tactic(auto)]

mod show;

use anyhow::anyhow;
use show::{show_bad, show_item};
use std::io::{BufWriter, Write};
use syntax::read::{Refusal, read_line, room};
use syntax::view::item_of;
use trial_lines::say_lines;

// What the line at a row's front is.
fn show_line<W: Write>(row: &mut [u32], len: usize, out: &mut W) -> anyhow::Result<()> {
    out.write_all(b" ")?;
    match read_line(row, len, len) {
        Ok(count) => show_item(item_of(row, len, len, count), out)?,
        Err(Refusal::Wrong(place)) => show_bad(place, out)?,
        Err(Refusal::NoRoom) => return Err(anyhow!("a line is too long")),
    }
    Ok(())
}

fn main(rt: HostRuntime) -> anyhow::Result<()> {
    let mut out = BufWriter::new(rt.alloc(), rt.stdout())?;
    // a line, and room for its code behind it
    let words = |len: usize| len.saturating_add(room(len));
    say_lines(&rt, &mut out, words, |row, len, out| {
        show_line(row, len, out)
    })?;
    out.flush()?;
    Ok(())
}
