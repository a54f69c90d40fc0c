// A function that is there for its contract, which is a theorem of specs/Theorems.
ghost use Rattle.declarations.specs.Theorems.{DeclaredInLine};

// What a line declares is named by pieces of the line, and a line that isn't understood declares nothing.
pub fn declared_in_line() -> u8
    ensures { DeclaredInLine }
{
    0
}
