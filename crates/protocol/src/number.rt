// Decimal numbers.
ghost use Rattle.std.specs.Prelude.{◌≡◌};
ghost use Rattle.protocol.specs.Numbers.{number_of, digits_value, one_more};

// The number with one digit more, if that is a digit and the number fits.
fn longer(value: usize, c: u8) -> Option<usize>
    ensures { result ≡ one_more value c }
{
    match c {
        b'0'..=b'9' => value.checked_mul(10)?.checked_add(usize::from(c - b'0')),
        _ => None,
    }
}

// The value of bytes that are digits, if it fits.
fn digits(bytes: &[u8]) -> Option<usize>
    ensures { result ≡ digits_value bytes.now }
{
    let mut value = 0;
    for c in bytes {
        value = longer(value, *c)?;
    }
    Some(value)
}

// The number that bytes are: one digit at least, nothing else, and it fits.
pub fn number(bytes: &[u8]) -> Option<usize>
    ensures { result ≡ number_of bytes.now }
{
    match bytes {
        [] => None,
        _ => digits(bytes),
    }
}
