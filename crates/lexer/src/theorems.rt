// What holds of the pieces of every line. The functions do nothing: each stands for what it ensures.
ghost use Rattle.lexer.specs.Theorems.{BytesCovered, PiecesRise};

// The pieces of a line stand in it one behind the other, and hold its bytes.
pub fn pieces_rise() -> u8
    ensures { PiecesRise }
{
    0
}

// A byte that is blank or stands in a note lies in no piece, and every other in exactly one.
pub fn bytes_covered() -> u8
    ensures { BytesCovered }
{
    0
}
