// What a name can be declared as.
ghost use Rattle.std.specs.Prelude.{◌≡◌};
ghost use Rattle.semantics.specs.Numbers.{sort_number, SortSays};

// A kind, a constant of one, a record, a def.
#[derive(Clone, Copy, PartialEq, Eq, Debug)]
pub enum Sort {
    Kind,
    Constant,
    Record,
    Def,
}

impl Sort {
    // The sort of a number, if it is one.
    pub fn from_number(n: u32) -> Option<Sort>
        ensures { SortSays n result }
    {
        match n {
            0 => Some(Sort::Kind),
            1 => Some(Sort::Constant),
            2 => Some(Sort::Record),
            3 => Some(Sort::Def),
            _ => None,
        }
    }
}

impl From<Sort> for u32 {
    ghost from_gives = { λ s n. n ≡ sort_number s };

    fn from(sort: Sort) -> u32 {
        sort as u32
    }
}
