// Words, which are rows of byte values, and whether two of them are the same.
#![tactic(auto)]

ghost use Rattle.std.specs.Prelude.{◌≡◌, ◌==◌, zip};
ghost use Rattle.std.specs.List.{list_all};
ghost use Rattle.base.specs.Base.{same};

// Whether the bytes of two words are the same, as far as both go.
fn bytes_agree(a: &[u32], b: &[u32]) -> bool
    ensures { result ≡ list_all (λ (c, b). c == b) (zip a.now b.now) }
{
    a.iter().zip(b).all(|(c, b)| *c == *b)
}

// Whether two words are the same. Not by ==, which makes a call for any two that begin alike.
pub fn same_word(a: &[u32], b: &[u32]) -> bool
    ensures { result ≡ same a.now b.now }
{
    a.len() == b.len() && bytes_agree(a, b)
}

// Whether a word has these bytes, as far as both go.
fn agrees(word: &[u32], bytes: &[u8]) -> bool
    ensures { result ≡ list_all (λ (c, b). c == b) (zip word.now bytes.now) }
{
    word.iter().zip(bytes).all(|(c, b)| *c == u32::from(*b))
}

// Whether a word is spelled by these bytes.
pub fn spells(word: &[u32], bytes: &[u8]) -> bool
    ensures { result ≡ same word.now bytes.now }
{
    word.len() == bytes.len() && agrees(word, bytes)
}
