// Replies as lines, written behind what stands in a vector.
ghost use Rattle.std.specs.Prelude.{◌≡◌, [], ◌∷◌, ◌++◌, codes, decimal, OnOk};
ghost use Rattle.helper.specs.Replies.{call_of};
ghost use Rattle.protocol.specs.Lines.{change_text, byte_of, name_text, spaced, faults_text, of_text, type_text, declared_text, place_text, answer_text, reply_text};

use helper::contract::{Answer, Changed};
use helper::request::{Reply, Request};
use std::alloc::AllocError;

// A number in decimal digits.
fn push_number(out: &mut Vec<u8>, n: u64) -> Result<(), AllocError>
    ensures { OnOk result (out.new.items ≡ out.old.items ++ decimal n) }
{
    let digits = format!(in *out.allocator(); "{n}")?;
    out.extend_from_slice(digits.as_bytes())
}

// Words, and a number behind them.
fn push_count(out: &mut Vec<u8>, words: &[u8], n: u64) -> Result<(), AllocError>
    ensures { OnOk result (out.new.items ≡ out.old.items ++ (words.now ++ decimal n)) }
{
    out.extend_from_slice(words)?;
    push_number(out, n)
}

// The byte that a word of an answer stands for.
fn byte(word: u64) -> u8
    ensures { result ≡ byte_of word }
{
    u8::try_from(word).unwrap_or(b'?')
}

// A name: how long it is, a blank, and its bytes.
fn push_name(out: &mut Vec<u8>, words: &[u64]) -> Result<(), AllocError>
    ensures { OnOk result (out.new.items ≡ out.old.items ++ name_text words.now) }
{
    push_number(out, words.len() as u64)?;
    out.push(b' ')?;
    out.extend(words.iter().map(|w| byte(*w)))
}

// Numbers, a blank before each.
fn push_spaced(out: &mut Vec<u8>, words: &[u64]) -> Result<(), AllocError>
    ensures { OnOk result (out.new.items ≡ out.old.items ++ spaced words.now) }
{
    for w in words {
        push_count(out, b" ", *w)?;
    }
    Ok(())
}

fn push_faults(out: &mut Vec<u8>, words: &[u64]) -> Result<(), AllocError>
    ensures { OnOk result (out.new.items ≡ out.old.items ++ faults_text words.now) }
{
    out.extend_from_slice(b"faults")?;
    push_spaced(out, words)
}

// A type with a name: its file's, and its own.
fn push_named_type(out: &mut Vec<u8>, file: &[u64], name: &[u64]) -> Result<(), AllocError>
    ensures { OnOk result (out.new.items ≡ out.old.items ++ of_text file.now name.now) }
{
    out.extend_from_slice(b"type of ")?;
    push_name(out, file)?;
    out.push(b' ')?;
    push_name(out, name)
}

// Where a name is declared: from, behind, and the file's name.
fn push_declared(out: &mut Vec<u8>, from: u64, behind: u64, file: &[u64]) -> Result<(), AllocError>
    ensures { OnOk result (out.new.items ≡ out.old.items ++ declared_text from behind file.now) }
{
    push_count(out, b"declared ", from)?;
    push_count(out, b" ", behind)?;
    out.push(b' ')?;
    push_name(out, file)
}

fn push_type(out: &mut Vec<u8>, words: &[u64]) -> Result<(), AllocError>
    ensures { OnOk result (out.new.items ≡ out.old.items ++ type_text words.now) }
{
    match words {
        [1, ..] => out.extend_from_slice(b"type num"),
        [2, ..] => out.extend_from_slice(b"type bool"),
        [3, n, names @ ..] => {
            let (file, name) = names.split_at((*n as usize).min(names.len()));
            push_named_type(out, file, name)
        }
        _ => out.extend_from_slice(b"type none"),
    }
}

fn push_place(out: &mut Vec<u8>, words: &[u64]) -> Result<(), AllocError>
    ensures { OnOk result (out.new.items ≡ out.old.items ++ place_text words.now) }
{
    match words {
        [from, behind, file @ ..] => push_declared(out, *from, *behind, file),
        _ => out.extend_from_slice(b"declared none"),
    }
}

// The words of an answer, by what was asked.
fn push_answer(out: &mut Vec<u8>, request: &Request, words: &[u64]) -> Result<(), AllocError>
    ensures { OnOk result (out.new.items ≡ out.old.items ++ answer_text (call_of request.now) words.now) }
{
    match *request {
        Request::Faults { .. } => push_faults(out, words),
        Request::TypeAt { .. } => push_type(out, words),
        Request::DeclaredAt { .. } => push_place(out, words),
        Request::Open { .. } | Request::Edit { .. } | Request::Close { .. } => Ok(()),
    }
}

// What is said of a change. How lines are written is this crate's alone, so the words stand here and in no Display of helper's type.
fn change_text(changed: Changed) -> &'static [u8]
    ensures { result.now ≡ change_text changed }
{
    match changed {
        Changed::Made => b"made",
        Changed::NoFile => b"no file",
        Changed::NoPlace => b"no place",
        Changed::NoRoom => b"no room",
    }
}

// The reply to a request as a line, behind what stands in out. The words are those of its answer, and rules were told so often for it.
pub fn write_reply(
    out: &mut Vec<u8>,
    request: &Request,
    reply: &Reply,
    words: &[u64],
    told: u64,
) -> Result<(), AllocError>
    ensures { OnOk result (out.new.items ≡ (out.old.items ++ reply_text (call_of request.now) reply.now words.now told) ++ (10 ∷ [])) }
{
    match *reply {
        Reply::Changed(changed) => out.extend_from_slice(change_text(changed))?,
        Reply::Closed(true) => out.extend_from_slice(b"closed")?,
        Reply::Closed(false) => out.extend_from_slice(b"no file")?,
        Reply::Answered(Answer::Words(_)) => {
            push_answer(out, request, words)?;
            push_count(out, b" told ", told)?;
        }
        Reply::Answered(Answer::Missing) => out.extend_from_slice(b"missing")?,
        Reply::Answered(Answer::OutFull(n)) => push_count(out, b"output full ", n as u64)?,
    }
    out.push(b'\n')?;
    Ok(())
}

// That a line isn't understood, as a line behind what stands in out.
pub fn write_not_understood(out: &mut Vec<u8>) -> Result<(), AllocError>
    ensures { OnOk result (out.new.items ≡ out.old.items ++ codes "not understood\n") }
{
    out.extend_from_slice(b"not understood\n")
}
