// Lines of standard input for programs that show what the library says of each.
#![tactic(auto)]

ghost use Rattle.std.specs.Prelude.{◌≡◌, ◌-◌, ◌++◌, length, take, replicate, IfOk};

use std::alloc::{AllocError, Global};
use std::io::{BufRead, BufReader, Write};

// Each byte of a line as a word, and behind it empty words, so many in all.
fn row_of(heap: Global, line: &[u8], words: usize) -> Result<Vec<u32>, AllocError>
    ensures { IfOk result (λ row. row.items ≡ take words line.now ++ replicate (words - length line.now) 0) }
{
    let mut row = Vec::with_capacity(heap, words)?;
    row.extend(line.iter().map(|c| u32::from(*c)))?;
    row.resize(words, 0)?;
    Ok(row)
}

// Prints of each line its number and what `say` says of it, which gets a row with the line at its front, and the line's length.
// Such a row has as many words as `words` tells for the length.
pub fn say_lines<
    W: Write,
    N: Fn(usize) -> usize,
    S: FnMut(&mut [u32], usize, &mut W) -> anyhow::Result<()>,
>(rt: &HostRuntime, out: &mut W, words: N, mut say: S) -> anyhow::Result<()>
    requires words { N.IsAlwaysCallable words }
    requires say { S.IsAlwaysCallable say }
{
    let lines = BufReader::new(rt.alloc(), rt.stdin())?.split(rt.alloc(), b'\n');
    for (number, line) in (1..u64::MAX).zip(lines) {
        let line = line?;
        let mut row = row_of(rt.alloc(), &line[..], words(line.len()))?;
        write!(out, "{number}:")?;
        say(&mut row[..], line.len(), out)?;
        out.write_all(b"\n")?;
    }
    Ok(())
}
