// Header lines: which call, how long the name and the text behind it are, and the places that the call has.
ghost use Rattle.std.specs.Prelude.{◌≡◌, ◌<◌, ◌≤◌, [], ◌∷◌, length, MatchOption};
ghost use Rattle.protocol.specs.Headers.{held, behind_word, blank_in, head_of, tail_of, two_of, four_of, header_of, counted_of, RequestSays, ended_of};
ghost use Rattle.protocol.specs.declared.header.Header.{Header};

use crate::number::number;
use helper::request::Request;

// What a header line says: for each call the lengths of what is counted, and places.
#[derive(Clone, Copy, PartialEq, Eq, Debug)]
pub enum Header {
    Open {
        name: usize,
        text: usize,
    },
    Edit {
        name: usize,
        from: usize,
        to: usize,
        new: usize,
    },
    Close {
        name: usize,
    },
    Faults {
        name: usize,
    },
    TypeAt {
        name: usize,
        place: usize,
    },
    DeclaredAt {
        name: usize,
        place: usize,
    },
}

// What stands behind a word, if the line begins with it.
fn behind<'a>(line: &'a [u8], word: &[u8]) -> Option<&'a [u8]>
    ensures { held result ≡ behind_word word.now line.now }
{
    line.strip_prefix(word)
}

// Where the first blank is.
fn blank(bytes: &[u8]) -> Option<usize>
    ensures { MatchOption result (length bytes.now ≤ blank_in bytes.now) (λ i. (i < length bytes.now) × (i ≡ blank_in bytes.now)) }
{
    bytes.iter().position(|c| *c == b' ')
}

// What stands before the first blank, and what behind it: nothing where there is no blank.
fn cut(bytes: &[u8]) -> (&[u8], &[u8])
    ensures before { result.0.now ≡ head_of bytes.now }
    ensures behind { result.1.now ≡ tail_of bytes.now }
{
    match blank(bytes) {
        Some(at) => (&bytes[..at], &bytes[at + 1..]),
        None => (bytes, &[]),
    }
}

// Two numbers, a blank between them.
fn two(bytes: &[u8]) -> Option<(usize, usize)>
    ensures { result ≡ two_of bytes.now }
{
    let (first, second) = cut(bytes);
    Some((number(first)?, number(second)?))
}

// Four numbers, a blank between each.
fn four(bytes: &[u8]) -> Option<(usize, usize, usize, usize)>
    ensures { result ≡ four_of bytes.now }
{
    let (first, rest) = cut(bytes);
    let first = number(first)?;
    let (second, rest) = cut(rest);
    let second = number(second)?;
    let (third, fourth) = two(rest)?;
    Some((first, second, third, fourth))
}

// What a header line says, if it is one: single blanks, decimal numbers, nothing else.
pub fn read_header(line: &[u8]) -> Option<Header>
    ensures { result ≡ header_of line.now }
{
    if let Some(rest) = behind(line, b"open ") {
        return two(rest).map(|(name, text)| Header::Open { name, text });
    }
    if let Some(rest) = behind(line, b"edit ") {
        return four(rest).map(|(name, from, to, new)| Header::Edit {
            name,
            from,
            to,
            new,
        });
    }
    if let Some(rest) = behind(line, b"close ") {
        return number(rest).map(|name| Header::Close { name });
    }
    if let Some(rest) = behind(line, b"faults ") {
        return number(rest).map(|name| Header::Faults { name });
    }
    if let Some(rest) = behind(line, b"type at ") {
        return two(rest).map(|(name, place)| Header::TypeAt { name, place });
    }
    if let Some(rest) = behind(line, b"declared at ") {
        return two(rest).map(|(name, place)| Header::DeclaredAt { name, place });
    }
    None
}

impl Header {
    // How many bytes are counted behind the header, if the number fits.
    pub fn counted(&self) -> Option<usize>
        ensures { result ≡ counted_of self.now }
    {
        match *self {
            Header::Open { name, text } => name.checked_add(text),
            Header::Edit { name, new, .. } => name.checked_add(new),
            Header::Close { name }
            | Header::Faults { name }
            | Header::TypeAt { name, .. }
            | Header::DeclaredAt { name, .. } => Some(name),
        }
    }
}

// The request that a header and the bytes counted behind it are, if they are so many.
pub fn request<'a>(header: &Header, body: &'a [u8]) -> Option<Request<'a>>
    ensures { RequestSays header.now body.now result }
{
    if header.counted()? != body.len() {
        return None;
    }
    match *header {
        Header::Open { name, .. } => {
            let (name, text) = body.split_at(name);
            Some(Request::Open { name, text })
        }
        Header::Edit { name, from, to, .. } => {
            let (name, new) = body.split_at(name);
            Some(Request::Edit {
                name,
                from,
                to,
                new,
            })
        }
        Header::Close { .. } => Some(Request::Close { name: body }),
        Header::Faults { .. } => Some(Request::Faults { name: body }),
        Header::TypeAt { place, .. } => Some(Request::TypeAt { name: body, place }),
        Header::DeclaredAt { place, .. } => Some(Request::DeclaredAt { name: body, place }),
    }
}

// A line without the byte 10 that ends it, if it is there.
pub fn ended(line: &[u8]) -> Option<&[u8]>
    ensures { held result ≡ ended_of line.now }
{
    line.strip_suffix(b"\n")
}
