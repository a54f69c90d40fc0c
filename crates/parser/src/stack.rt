// The stack in words: four words a frame, from the row's end downwards.
ghost use Rattle.std.specs.Prelude.{◌≡◌, ℕ, ◌+◌, ◌-◌, ◌*◌, ◌<◌, ◌≤◌, List, [], ◌∷◌, length, take};
ghost use Rattle.parser.specs.Rows.{frame_of, frames, frames_of, frame_is, frame_in, NewestSays};

use crate::code::{Span, number_of, sign};
use lexer::token::Operator;

// What waits for a value: brackets that began here; a call, where in the code it begins and how many arguments it has so far;
// a let that began here, its name's value and its body; an if that began here, its condition and its branches; an operator's right side.
#[derive(Clone, Copy)]
pub enum Frame {
    Par(u32),
    Call(u32, u32),
    Bound(u32, Span),
    Body(u32),
    Cond(u32),
    Then(u32),
    Else(u32),
    Right(Operator),
}

// The words of a frame.
impl From<Frame> for [u32; 4] {
    ghost from_gives = { λ f ws. (line : List ℕ) → frames line ws ≡ frame_is line f ∷ [] };

    fn from(frame: Frame) -> [u32; 4] {
        match frame {
            Frame::Par(a) => [0, a, 0, 0],
            Frame::Call(p, k) => [1, p, k, 0],
            Frame::Bound(a, s) => [2, a, s.from, s.to],
            Frame::Body(a) => [3, a, 0, 0],
            Frame::Cond(a) => [4, a, 0, 0],
            Frame::Then(a) => [5, a, 0, 0],
            Frame::Else(a) => [6, a, 0, 0],
            Frame::Right(o) => [7, number_of(o), 0, 0],
        }
    }
}

// The frame of four words.
impl From<[u32; 4]> for Frame {
    ghost from_gives = { λ ws f. (line : List ℕ) → frame_is line f ≡ frame_in line ws 0 };

    fn from(words: [u32; 4]) -> Frame {
        let [tag, a, b, c] = words;
        match tag {
            0 => Frame::Par(a),
            1 => Frame::Call(a, b),
            2 => Frame::Bound(a, Span { from: b, to: c }),
            3 => Frame::Body(a),
            4 => Frame::Cond(a),
            5 => Frame::Then(a),
            6 => Frame::Else(a),
            _ => Frame::Right(sign(a)),
        }
    }
}

// One frame more on d of them.
pub fn push(words: &mut [u32], d: usize, f: Frame)
    requires { 4 * d + 4 ≤ length words.old }
    ensures adds { (line : List ℕ) → frames_of line (d + 1) words.new ≡ frame_is line f ∷ frames_of line d words.old }
    ensures below { (m : ℕ) → m + 4 * d + 4 ≤ length words.old → take m words.new ≡ take m words.old }
{
    let h = words.len() - 4 * d - 4;
    words[h..h + 4].copy_from_slice(&<[u32; 4]>::from(f));
}

// The newest of d frames, if there is one.
pub fn newest(words: &[u32], d: usize) -> Option<Frame>
    requires { 4 * d ≤ length words.now }
    ensures { NewestSays d words.now result }
{
    if d == 0 {
        return None;
    }
    let h = words.len() - 4 * d;
    Some(Frame::from([words[h], words[h + 1], words[h + 2], words[h + 3]]))
}
