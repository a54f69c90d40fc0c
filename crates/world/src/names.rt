// Names of the small world.
ghost use Rattle.std.specs.Prelude.{◌≡◌};
ghost use Rattle.std.specs.Option.{option_map};
ghost use Rattle.world.specs.World.{first_called, own_is, here_is, file_is};

use crate::cards::{CARDS, Card, NAMED_CARDS, OWN_CARDS};
use base::spells;
use checker::lookup::{Meaning, SigId};

// Where the first card of a name stands.
fn place(cards: &[Card], word: &[u32]) -> Option<usize>
    ensures { result ≡ first_called word.now 0 cards.now }
{
    cards
        .iter()
        .position(|card| spells(word, card.name.as_bytes()))
}

// What x itself declares.
pub fn own_name(word: &[u32]) -> Option<SigId>
    ensures { option_map (λ s. s.0) result ≡ own_is word.now }
{
    let own = place(&CARDS[..OWN_CARDS], word)?;
    Some(SigId(own as u32))
}

// What a name means in x. Both ports and more declare Sund.
pub fn name_here(word: &[u32]) -> Meaning
    ensures { result ≡ here_is word.now }
{
    if spells(word, b"Sund") {
        return Meaning::Several;
    }
    match place(&CARDS[..NAMED_CARDS], word) {
        Some(number) => Meaning::Found(SigId(number as u32)),
        None => Meaning::Unknown,
    }
}

// Whether there is another file than x of that name.
pub fn is_file(word: &[u32]) -> bool
    ensures { result ≡ file_is word.now }
{
    spells(word, b"ports") || spells(word, b"more") || spells(word, b"deep")
}
