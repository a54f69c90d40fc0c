// The small world as a lookup that knows all: a line is looked at as if it stood at the end of the file x.
ghost use Rattle.world.specs.World.{small_world};

use crate::cards::{card_of, type_sig};
use crate::names::{is_file, name_here, own_name};
use base::spells;
use checker::lookup::{Lookup, Meaning, SigId, Type, TypeId};
use checker::rows::Bounds;
use parser::code::Span;
use semantics::sort::Sort;

pub struct World;

impl Lookup for World {
    ghost book = { λ s ws. small_world };

    fn here(&self, words: &[u32], b: Bounds, name: Span) -> Option<Meaning> {
        Some(name_here(b.word_of(words, name)))
    }

    fn there(&self, words: &[u32], b: Bounds, ty: TypeId) -> Option<Meaning> {
        Some(Meaning::Found(type_sig(ty)))
    }

    fn file(&self, words: &[u32], b: Bounds, name: Span) -> Option<bool> {
        Some(is_file(b.word_of(words, name)))
    }

    fn before(&self, words: &[u32], b: Bounds, name: Span) -> Option<bool> {
        Some(own_name(b.word_of(words, name)).is_some())
    }

    fn sort(&self, words: &[u32], b: Bounds, sig: SigId) -> Sort {
        card_of(sig).sort
    }

    fn result(&self, words: &[u32], b: Bounds, sig: SigId) -> Option<Type> {
        card_of(sig).result
    }

    fn slots(&self, words: &[u32], b: Bounds, sig: SigId) -> u32 {
        card_of(sig).slots.len() as u32
    }

    fn slot(&self, words: &[u32], b: Bounds, sig: SigId, index: u32) -> Option<Type> {
        let slot = card_of(sig).slots.get(index as usize)?;
        slot.ty
    }

    fn field(&self, words: &[u32], b: Bounds, sig: SigId, name: Span) -> Option<Option<Type>> {
        let name = b.word_of(words, name);
        let card = card_of(sig);
        let slot = card
            .slots
            .iter()
            .find(|slot| spells(name, slot.name.as_bytes()))?;
        Some(slot.ty)
    }

    // Types that are declared in one place are the same.
    fn same(&self, words: &[u32], b: Bounds, x: TypeId, y: TypeId) -> bool {
        type_sig(x) == type_sig(y)
    }
}
