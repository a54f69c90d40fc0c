// What was said of a line, read from the words in which the checker left it, and answers given.
#![tactic(auto)]

pub mod faults;
pub mod give;
pub mod links;
pub mod types;

ghost use Rattle.std.specs.Prelude.{◌≡◌, ◌+◌, ◌*◌, ◌≤◌, length};
ghost use Rattle.checker.specs.Rows.{events_of, events_at};

use checker::said::Events;
use diagnostics::Findings;

// All that was said of a line.
fn all_said(words: &[u32], f: Findings) -> Events<'_>
    requires { f.«at» + 4 * f.count ≤ length words.now }
    ensures { events_of result.0.now ≡ events_at words.now f.«at» f.count }
{
    Events(&words[f.at..f.at + 4 * f.count])
}
