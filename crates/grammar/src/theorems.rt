// Each function is there for its contract, which is a theorem of specs/Theorems.
ghost use Rattle.grammar.specs.Theorems.{DepthEnough, WrongPlace, WordsOnly, BlanksFree};

// The number that bounds the depth of the calls is enough.
pub fn depth_enough() -> u8
    ensures { DepthEnough }
{
    0
}

// What isn't understood is shown at a piece, or behind the last one.
pub fn wrong_place() -> u8
    ensures { WrongPlace }
{
    0
}

// What a line says depends on the words of its pieces only, but for places.
pub fn words_only() -> u8
    ensures { WordsOnly }
{
    0
}

// A blank outside of every piece changes nothing but places.
pub fn blanks_free() -> u8
    ensures { BlanksFree }
{
    0
}
