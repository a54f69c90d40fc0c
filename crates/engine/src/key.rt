// What is asked of rules: a kind of question, and two numbers that say which one of its kind.
ghost use Rattle.std.specs.Prelude.{◌≡◌, [], ◌∷◌, slice_index};
ghost use Rattle.engine.specs.Engine.{same_key};

// A question.
#[derive(Clone, Copy, PartialEq, Eq, Debug)]
pub struct Key {
    pub kind: u32,
    pub a: u32,
    pub b: u32,
}

// How many words a key takes.
pub const KEY_WORDS: usize = 3;

// The words of a key.
impl From<Key> for [u32; KEY_WORDS] {
    ghost from_gives = { λ k ws. ws ≡ k.kind ∷ k.a ∷ k.b ∷ [] };

    fn from(key: Key) -> [u32; KEY_WORDS] {
        [key.kind, key.a, key.b]
    }
}

// The key of three words.
impl From<[u32; KEY_WORDS]> for Key {
    ghost from_gives = { λ ws k. k ≡ record { kind = slice_index ws 0; a = slice_index ws 1; b = slice_index ws 2 } };

    fn from(words: [u32; KEY_WORDS]) -> Key {
        let [kind, a, b] = words;
        Key { kind, a, b }
    }
}

// Whether two keys are the same.
pub fn same_key(j: &Key, k: &Key) -> bool
    ensures { result ≡ same_key j.now k.now }
{
    j == k
}
