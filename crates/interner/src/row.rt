// Bytes in the pool of a row, their length before them: the layout stands in specs/Index.
ghost use Rattle.std.specs.Prelude.{◌≡◌, ◌+◌, ◌<◌, ◌≤◌, length, take, drop, slice_index};
ghost use Rattle.interner.specs.Index.{bytes_at};

// The bytes at a place of the pool.
pub fn bytes_from(words: &[u32], i: usize) -> &[u32]
    requires { i + 1 + slice_index words.now i ≤ length words.now }
    ensures { result.now ≡ bytes_at words.now i }
{
    let n = words[i] as usize;
    &words[i + 1..i + 1 + n]
}

// Lays bytes at a place, their length before them.
pub fn lay(words: &mut [u32], i: usize, key: &[u32])
    requires { (i + 1 + length key.now ≤ length words.old) × (length words.old < 4294967296) }
    ensures front { take i words.new ≡ take i words.old }
    ensures size { slice_index words.new i ≡ length key.now }
    ensures laid { take (length key.now) (drop (i + 1) words.new) ≡ key.now }
{
    words[i] = key.len() as u32;
    words[i + 1..i + 1 + key.len()].copy_from_slice(key);
}
