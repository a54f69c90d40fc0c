// trials: keys of small rules asked of the engine, between changes of cells, and what came of each: the answer's first word, and how often
// rules were told.
#![tactic(auto)]

mod desk;
mod scenes;
mod small;

ghost use Rattle.trials.specs.Desk.{Ready};

use desk::{CELLS, Said, ask, clear_desk, empty_cells, set_cell};
use engine::key::Key;
use scenes::{Step, changes_back, comes_to_be, diamond, early_cutoff, no_room, taken_up_again};
use std::io;
use std::io::{BufWriter, Write};

// The words of the row.
const WORDS: usize = 200000;

// What came of a key.
fn show<W: Write>(k: &Key, said: Option<Said>, out: &mut W) -> io::Result<()> {
    let (kind, a, b) = (k.kind, k.a, k.b);
    match said {
        Some(said) => writeln!(out, "  {kind} {a} {b}: {said}"),
        None => writeln!(out, "  {kind} {a} {b}: no room"),
    }
}

// A step done.
fn make<W: Write>(row: &mut [u32], step: Step, out: &mut W) -> io::Result<()>
    requires { Ready row.old }
    ensures { Ready row.new }
{
    match step {
        Step::Put(a, v) => {
            if a < CELLS {
                set_cell(row, a, v);
            }
            writeln!(out, "  cell {a} is {v}")
        }
        Step::Ask(kind, a, b) => {
            let k = Key { kind, a, b };
            let said = ask(row, &k);
            show(&k, said, out)
        }
    }
}

// A trial: its name, and its steps, from a row with nothing kept and all cells empty.
fn play<W: Write>(row: &mut [u32], name: &str, steps: &[Step], out: &mut W) -> anyhow::Result<()> {
    writeln!(out, "{name}")?;
    clear_desk(row)?;
    empty_cells(row);
    for s in steps {
        make(row, *s, out)?;
    }
    Ok(())
}

fn run(rt: &HostRuntime) -> anyhow::Result<()> {
    let mut out = BufWriter::new(rt.alloc(), rt.stdout())?;
    let mut row = vec![in rt.alloc(); 0u32; WORDS]?;
    let row = &mut row[..];
    play(row, "an answer where none was", &comes_to_be(), &mut out)?;
    play(row, "early cutoff", &early_cutoff(), &mut out)?;
    play(row, "an input that changes back", &changes_back(), &mut out)?;
    play(
        row,
        "dropped and taken up again",
        &taken_up_again(),
        &mut out,
    )?;
    play(row, "diamond", &diamond(), &mut out)?;
    play(row, "no room", &no_room(), &mut out)?;
    out.flush()?;
    Ok(())
}

fn main(rt: HostRuntime) -> anyhow::Result<()> {
    run(&rt)
}
