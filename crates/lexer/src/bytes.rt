// The kinds of bytes.
ghost use Rattle.std.specs.Prelude.{◌≡◌};
ghost use Rattle.lexer.specs.Tokens.{letter, blank};
ghost use Rattle.lexer.specs.Parts.{small, digit};

pub fn is_blank(c: u32) -> bool
    ensures { result ≡ blank c }
{
    matches!(c, 32 | 13 | 9)
}

pub fn is_letter(c: u32) -> bool
    ensures { result ≡ letter c }
{
    matches!(c, 97..=122 | 65..=90 | 95 | 48..=57)
}

pub fn is_small(c: u32) -> bool
    ensures { result ≡ small c }
{
    matches!(c, 97..=122)
}

pub fn is_digit(c: u32) -> bool
    ensures { result ≡ digit c }
{
    matches!(c, 48..=57)
}
