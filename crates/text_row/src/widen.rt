// Bytes laid out in the row above what is kept, one a word.
ghost use Rattle.std.specs.Prelude.{◌≡◌, ◌+◌, ◌≤◌, length};
ghost use Rattle.text_row.specs.Copies.{WidenSays};

// Bytes, one a word, from a place on.
pub fn widen(mem: &mut [u32], to: usize, bytes: &[u8])
    requires { to + length bytes.now ≤ length mem.old }
    ensures { WidenSays to bytes.now mem.old mem.new }
{
    write(&mut mem[to..to + bytes.len()], bytes);
}

// Bytes into as many words. By index: of a `zip` with `iter_mut` a proof doesn't know what it wrote.
fn write(words: &mut [u32], bytes: &[u8])
    requires { length words.old ≡ length bytes.now }
    ensures { words.new ≡ bytes.now }
{
    for (i, byte) in bytes.iter().enumerate() {
        words[i] = u32::from(*byte);
    }
}
