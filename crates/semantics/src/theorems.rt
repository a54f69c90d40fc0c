// Each function is there for its contract, which is a theorem of specs/Promise or specs/Theorems.
ghost use Rattle.semantics.specs.Promise.{LineSaid};
ghost use Rattle.semantics.specs.Theorems.{UntypedUnblamed, TypesMean, WithinLine, FaultNumbers, LittleSaid, FaultsInText, LinksMean, BoundInLine, ItemsOnly};

// The walk over a line's code says what the definition says of the line, and asks little.
pub fn line_said() -> u8
    ensures { LineSaid }
{
    0
}

// Another type is wanted only of an expression that has one.
pub fn untyped_unblamed() -> u8
    ensures { UntypedUnblamed }
{
    0
}

// Each type that is noted is that of an expression of the line, at its place.
pub fn types_mean() -> u8
    ensures { TypesMean }
{
    0
}

// All that is said of a line stands in it.
pub fn within_line() -> u8
    ensures { WithinLine }
{
    0
}

// Each link of a line stands at a name, and goes to what the name means there.
pub fn links_mean() -> u8
    ensures { LinksMean }
{
    0
}

// Names bound in a line are pieces of it.
pub fn bound_in_line() -> u8
    ensures { BoundInLine }
{
    0
}

// What is answered depends on what lines say, where they begin and how long they are.
pub fn items_only() -> u8
    ensures { ItemsOnly }
{
    0
}

// Each fault has a number from 1 to 9, and 1 only where the line isn't understood.
pub fn fault_numbers() -> u8
    ensures { FaultNumbers }
{
    0
}

// At most two faults, one type and one link are said for each byte of a line.
pub fn little_said() -> u8
    ensures { LittleSaid }
{
    0
}

// What is answered for the faults of a file are places in its text, each with a number from 1 to 9.
pub fn faults_in_text() -> u8
    ensures { FaultsInText }
{
    0
}
