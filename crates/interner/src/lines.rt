// Texts written out again from the numbers of their lines.
ghost use Rattle.std.specs.Prelude.{◌≡◌, ◌≤◌, length};
ghost use Rattle.interner.specs.Index.{bytes, Live, Sound};
ghost use Rattle.interner.specs.Lines.{Every};
ghost use Rattle.interner.specs.Written.{text_of, ExtendSays, WriteSays};

use crate::index::Sizes;
use crate::refused::NoRoom;
use crate::row::bytes_from;
use lexer::lines::NEWLINE;

impl Sizes {
    // The text that numbers of lines stand for, at the front of a row, if it goes in there.
    pub fn write_text(self, words: &[u32], ns: &[u32], out: &mut [u32]) -> Result<usize, NoRoom>
        requires { (Sound self.buckets self.cap words.now) × (Every (Live self.buckets words.now) ns.now) }
        ensures { WriteSays (text_of self.buckets words.now ns.now) out.new result }
    {
        let Some((first, others)) = ns.split_first() else {
            return Ok(0);
        };
        let mut end = extend(out, 0, self.line_of(words, *first))?;
        for n in others {
            end = extend(out, end, &[NEWLINE])?;
            end = extend(out, end, self.line_of(words, *n))?;
        }
        Ok(end)
    }

    // The bytes that a number in use stands for.
    pub fn line_of(self, words: &[u32], n: u32) -> &[u32]
        requires { (Sound self.buckets self.cap words.now) × (Live self.buckets words.now n) }
        ensures { result.now ≡ bytes self.buckets words.now n }
    {
        bytes_from(words, self.place_of(words, n as usize))
    }
}

// Words behind the first k of a row, if they fit in it.
pub fn extend(out: &mut [u32], k: usize, xs: &[u32]) -> Result<usize, NoRoom>
    requires { k ≤ length out.old }
    ensures { ExtendSays out.old k xs.now out.new result }
{
    if out.len() - k < xs.len() {
        return Err(NoRoom);
    }
    out[k..k + xs.len()].copy_from_slice(xs);
    Ok(k + xs.len())
}
