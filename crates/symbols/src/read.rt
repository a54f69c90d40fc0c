// Words and parts of a row, wherever they are asked for.
ghost use Rattle.std.specs.Prelude.{◌≡◌, ◌+◌};
ghost use Rattle.symbols.specs.Table.{word, text_at, part_at};

// How many words the table has of a file; of a declaration; and of each of its fields or parameters besides.
pub const ROW: usize = 6;

pub const HEAD: usize = 9;

pub const SLOT: usize = 4;

// The word at a place, 0 past the end.
pub fn word_at(words: &[u32], i: usize) -> u32
    ensures { result ≡ word words.now i }
{
    if i < words.len() { words[i] } else { 0 }
}

// So many words from a place on, as far as the row goes.
pub fn text_at<'a>(words: &'a [u32], from: usize, len: usize) -> &'a [u32]
    ensures { result.now ≡ text_at words.now from len }
{
    let from = from.min(words.len());
    let len = len.min(words.len() - from);
    &words[from..from + len]
}

// What stands between two places of a line that begins at a place, as far as the row goes.
pub fn part_at<'a>(words: &'a [u32], line: u32, from: u32, to: u32) -> &'a [u32]
    ensures { result.now ≡ part_at words.now line from to }
{
    text_at(
        words,
        line as usize + from as usize,
        to.saturating_sub(from) as usize,
    )
}
