// Each function is there for its contract, which is a theorem of specs/Theorems.
ghost use Rattle.engine.specs.Theorems.{UpToDate, AskedAgain, OnlyChanged, ToldExactly, ToldAtMost, LookedAtOnce};

// An answer brought up to date is the one that a fresh start gives, and what is kept stays honest.
pub fn up_to_date() -> u8
    ensures { UpToDate }
{
    0
}

// Asked again with nothing changed, no rule is told anything.
pub fn asked_again() -> u8
    ensures { AskedAgain }
{
    0
}

// A key is worked out only if it has no entry or something that it asked has another worth now, and no key twice.
pub fn only_changed() -> u8
    ensures { OnlyChanged }
{
    0
}

// Rules are told, for each key that is worked out, once for each thing that it asks and once more.
pub fn told_exactly() -> u8
    ensures { ToldExactly }
{
    0
}

// Rules are told no more often than the entries that a bringing leaves take words.
pub fn told_at_most() -> u8
    ensures { ToldAtMost }
{
    0
}

// As long as no input changes, no entry need be looked at twice.
pub fn looked_at_once() -> u8
    ensures { LookedAtOnce }
{
    0
}
