// What can be wanted of the next piece.
ghost use Rattle.std.specs.Prelude.{◌≡◌};
ghost use Rattle.syntax.specs.Wanted.{fits};

use lexer::token::Token;

// No token by itself, as a type's word is one of three.
#[derive(Clone, Copy, PartialEq, Eq, Debug)]
pub enum Wanted {
    Name,
    TypeWord,
    Gets,
    Open,
    Close,
    Comma,
}

impl Wanted {
    // Whether a token is what is wanted.
    pub fn is(self, t: Token) -> bool
        ensures { result ≡ fits self t }
    {
        match self {
            Wanted::Name => t == Token::Name,
            Wanted::TypeWord => matches!(t, Token::Name | Token::Num | Token::Bool),
            Wanted::Gets => t == Token::Gets,
            Wanted::Open => t == Token::Open,
            Wanted::Close => t == Token::Close,
            Wanted::Comma => t == Token::Comma,
        }
    }
}
