// Functions that are there for their contracts, which are theorems of specs/Agreement.
ghost use Rattle.resolver.specs.Agreement.{PlainAgrees, DeclaredAgrees};

// In the symbol table of texts names mean what they mean in the texts.
pub fn plain_agrees() -> u8
    ensures { PlainAgrees }
{
    0
}

// In the symbol table of texts the first declaration of a name in a file is found at its handle.
pub fn declared_agrees() -> u8
    ensures { DeclaredAgrees }
{
    0
}
