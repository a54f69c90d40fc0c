// verdicts: reads lines of the language from standard input, and prints of each what is wrong in it, the types of its parts, and what
// its names mean, as if it stood at the end of the file x of the small world.
// All that it says of a line comes from the library; here is only what reads and prints.
#![tactic(auto)]

mod show;

use anyhow::anyhow;
use checker::check::Stop;
use diagnostics::diagnose;
use show::show_said;
use std::io::{BufWriter, Write};
use trial_lines::say_lines;
use world::world::World;

// What is said of the line at a row's front.
fn show_line<W: Write>(row: &mut [u32], len: usize, out: &mut W) -> anyhow::Result<()> {
    match diagnose(&World, row, len, len) {
        Ok(f) => show_said(&row[f.at..], f.count, out)?,
        Err(Stop::NoRoom) => return Err(anyhow!("a line is too long")),
        Err(Stop::Needs(_)) => return Err(anyhow!("not all is known")),
    }
    Ok(())
}

fn main(rt: HostRuntime) -> anyhow::Result<()> {
    let mut out = BufWriter::new(rt.alloc(), rt.stdout())?;
    // a line, its code, and room for what is said of it
    let words = |len: usize| len.saturating_mul(64).saturating_add(512);
    say_lines(&rt, &mut out, words, |row, len, out| {
        show_line(row, len, out)
    })?;
    out.flush()?;
    Ok(())
}
