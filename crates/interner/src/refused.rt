// Why a change is refused: what it would have changed is as it was.
ghost use Rattle.std.specs.Prelude.{◌≡◌};
ghost use Rattle.interner.specs.declared.refused.Refused.TheVariants.{NoRoom};

// There is no room for it.
#[derive(Clone, Copy, Debug, PartialEq, Eq)]
pub struct NoRoom;

// Why a text wasn't changed.
#[derive(Clone, Copy, Debug, PartialEq, Eq)]
pub enum Refused {
    // no file of that name is open
    NoFile,
    // the places are not two places of the text, one after the other
    NoPlace,
    // there is no room for the texts as they would be
    NoRoom,
}

impl From<NoRoom> for Refused {
    ghost from_gives = { λ _ e. e ≡ NoRoom };

    fn from(_none: NoRoom) -> Refused {
        Refused::NoRoom
    }
}
