// The lines of a text.
ghost use Rattle.std.specs.Prelude.{◌≡◌};
ghost use Rattle.std.specs.List.{prefix_len};
ghost use Rattle.lexer.specs.Lines.{LineEnds, goes_on};

// The byte that ends a line.
pub const NEWLINE: u32 = 10;

// How many bytes stand before the first that ends a line.
fn line_len(bytes: &[u32]) -> usize
    ensures { result ≡ prefix_len goes_on bytes.now }
{
    bytes.iter().take_while(|c| **c != NEWLINE).count()
}

// Where the line that begins at a place ends: at the byte that ends it, or with the text.
pub fn line_end(text: &[u32], from: usize) -> usize
    ensures { LineEnds text.now from result }
{
    from + line_len(&text[from.min(text.len())..])
}
