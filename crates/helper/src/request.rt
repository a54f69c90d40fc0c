// What is asked of a helper and what it replies, one type each for every front end.
ghost use Rattle.std.specs.Prelude.{◌≡◌};
ghost use Rattle.helper.specs.Replies.{call_of, ReplySays};

use crate::contract::{Answer, Changed, Helper};

// A change or a question. Names and texts are any bytes.
#[derive(Clone, Copy, PartialEq, Eq, Debug)]
pub enum Request<'a> {
    Open {
        name: &'a [u8],
        text: &'a [u8],
    },
    Edit {
        name: &'a [u8],
        from: usize,
        to: usize,
        new: &'a [u8],
    },
    Close {
        name: &'a [u8],
    },
    Faults {
        name: &'a [u8],
    },
    TypeAt {
        name: &'a [u8],
        place: usize,
    },
    DeclaredAt {
        name: &'a [u8],
        place: usize,
    },
}

// What is replied: what came of a change, whether a file was closed, or how many words of answer there are.
#[derive(Clone, Copy, PartialEq, Eq, Debug)]
pub enum Reply {
    Changed(Changed),
    Closed(bool),
    Answered(Answer),
}

// The reply to a request; the words of an answer stand at the front of out.
pub fn answer<H: Helper>(helper: &mut H, request: &Request, out: &mut [u64]) -> Reply
    requires { H.fit helper.old }
    ensures fits { H.fit helper.new }
    ensures says { ReplySays (call_of request.now) (H.texts helper.old) (H.words helper.old) out.old out.new (H.texts helper.new) result }
    ensures lent { H.words helper.new ≡ H.words helper.old }
{
    match *request {
        Request::Open { name, text } => Reply::Changed(helper.open(name, text)),
        Request::Edit {
            name,
            from,
            to,
            new,
        } => Reply::Changed(helper.edit(name, from, to, new)),
        Request::Close { name } => Reply::Closed(helper.close(name)),
        Request::Faults { name } => Reply::Answered(helper.faults(name, out)),
        Request::TypeAt { name, place } => Reply::Answered(helper.type_at(name, place, out)),
        Request::DeclaredAt { name, place } => {
            Reply::Answered(helper.declared_at(name, place, out))
        }
    }
}
