//! Laws of the grammar of tokens.
ghost use Rattle.std.specs.Prelude.{◌≡◌, ◌++◌, ℕ, List, length};
ghost use Rattle.graphql_lexer.specs.Lexemes.{Lexeme, AreLexemes};
ghost use Rattle.graphql_lexer.specs.Lexical.{Token, IsToken};

/// A text has at most one token at its front, whatever its kind and length.
pub fn one_token()
    ensures { (t u : Token) (s r v w : List ℕ) → IsToken t s r → IsToken u v w → s ++ r ≡ v ++ w
        → (t ≡ u) × (s ≡ v) }
{}

/// A text has at most one list of lexemes.
pub fn one_list()
    ensures { (text : List ℕ) (xs ys : List Lexeme) → AreLexemes text xs → AreLexemes text ys → xs ≡ ys }
{}
