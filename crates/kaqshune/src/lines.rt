// The lines of a text, one behind the other. An empty line at its very end is none.
ghost use Rattle.std.specs.Prelude.{◌≡◌};
ghost use Rattle.std.specs.Iterator.{YieldsFirstRef, item_count};
ghost use Rattle.lexer.specs.Tokens.{lines};
ghost use Rattle.kaqshune.specs.Lines.{rows, rows_from};

use lexer::lines::line_end;

// A text, and where its next line begins.
#[derive(Clone, Copy)]
pub struct Lines<'a> {
    text: &'a [u32],
    at: usize,
}

impl Lines<'_> {
    pub fn new(text: &[u32]) -> Lines<'_>
        ensures { rows_from result.text.now result.at ≡ rows (lines text.now) }
    {
        Lines { text, at: 0 }
    }
}

impl<'a> Iterator for Lines<'a> {
    type Item = &'a [u32];

    ghost next_gives = { YieldsFirstRef (λ s. rows_from s.text.now s.at) };

    ghost remaining = { item_count (λ s. rows_from s.text.now s.at) };

    fn next(&mut self) -> Option<&'a [u32]> {
        let Lines { text, at } = *self;
        if at >= text.len() {
            return None;
        }
        let end = line_end(text, at);
        self.at = end + 1;
        Some(&text[at..end])
    }
}
