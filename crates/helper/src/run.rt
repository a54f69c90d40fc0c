// Any list of requests, one after the other.
ghost use Rattle.std.specs.Prelude.{◌≡◌, [], ◌∷◌, ◌++◌, length, take, IfOk, OnOk};
ghost use Rattle.helper.specs.Replies.{calls_of, output_len};
ghost use Rattle.helper.specs.Runs.{Runs};

use crate::contract::{Answer, Helper};
use crate::request::{Reply, Request, answer};
use std::alloc::{AllocError, Global};

// What was replied to requests, in their order, and the words of the answers, one answer behind the other.
#[derive(Drop)]
pub struct Transcript {
    pub replies: Vec<Reply>,
    pub words: Vec<u64>,
}

// How many words of output a reply has.
pub fn output_len(reply: &Reply) -> usize
    ensures { result ≡ output_len reply.now }
{
    match *reply {
        Reply::Answered(Answer::Words(n)) => n,
        _ => 0,
    }
}

// The first n words of a row, as far as it goes.
fn front(words: &[u64], n: usize) -> &[u64]
    ensures { result.now ≡ take n words.now }
{
    &words[..n.min(words.len())]
}

impl Transcript {
    // Nothing was asked yet.
    fn new(heap: Global) -> Transcript
        ensures replies { result.replies.items ≡ [] }
        ensures words { result.words.items ≡ [] }
    {
        Transcript {
            replies: Vec::new(heap),
            words: Vec::new(heap),
        }
    }

    // One reply more, and the words of its answer, which stand at the front of out.
    fn note(&mut self, reply: Reply, out: &[u64]) -> Result<(), AllocError>
        ensures replies { OnOk result (self.new.replies.items ≡ self.old.replies.items ++ (reply ∷ [])) }
        ensures words { OnOk result (self.new.words.items ≡ self.old.words.items ++ take (output_len reply) out.now) }
    {
        self.words
            .extend_from_slice(front(out, output_len(&reply)))?;
        self.replies.push(reply)?;
        Ok(())
    }
}

// Each request in turn: each reply is that of the definition for the texts as they are then, or a refusal for want of room.
pub fn answer_all<H: Helper>(
    heap: Global,
    helper: &mut H,
    requests: &[Request],
    out: &mut [u64],
) -> Result<Transcript, AllocError>
    requires { H.fit helper.old }
    ensures fits { H.fit helper.new }
    ensures runs { IfOk result (λ t. Runs (H.words helper.old) (length out.old) (H.texts helper.old) (calls_of requests.now) t.replies.items t.words.items (H.texts helper.new)) }
    ensures lent { H.words helper.new ≡ H.words helper.old }
{
    let mut transcript = Transcript::new(heap);
    for request in requests {
        let reply = answer(helper, request, out);
        transcript.note(reply, out)?;
    }
    Ok(transcript)
}
