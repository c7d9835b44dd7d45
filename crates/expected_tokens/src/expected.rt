//! What may be expected in a document.
ghost use Rattle.std.specs.Prelude.{◌≡◌};
ghost use Rattle.std.specs.List.{Contains};
ghost use Rattle.expected_tokens.specs.Samples.{listed, sample, word};
ghost use Rattle.expected_tokens.specs.declared.expected.Expected.{Expected as AnyExpected};
ghost use Rattle.graphql_lexer.specs.Lexical.{spelling};

use graphql_lexer::lexer::Punctuator;
use std::fmt;

/// What may stand somewhere in a document.
///
/// Of a name that is no keyword, of a number and of a string one sample is asked for: `a`, `0`, `0.0`, `""` and
/// `""""""`. Where one goes on, any other of its kind does, but for strings with escapes that there are not.
#[derive(Clone, Copy, Debug, PartialEq, Eq)]
pub enum Expected {
    Punctuator(Punctuator),
    Keyword(Keyword),
    /// A name that is no keyword.
    Name,
    /// An integer (section 2.9.1).
    Int,
    /// A number with a fraction or an exponent (section 2.9.2).
    Float,
    /// A string between `"` and `"` (section 2.9.4).
    String,
    /// A block string, between `"""` and `"""` (section 2.9.4).
    BlockString,
    /// The end of the text: what stands before is a document.
    End,
}

/// A name that stands for itself somewhere in the grammar. Where any name may stand, it may too.
#[derive(Clone, Copy, Debug, PartialEq, Eq)]
pub enum Keyword {
    Query,
    Mutation,
    Subscription,
    Fragment,
    On,
    True,
    False,
    Null,
}

// All of them.
const EXPECTED: &[Expected] = &[
    Expected::Punctuator(Punctuator::Bang),
    Expected::Punctuator(Punctuator::Dollar),
    Expected::Punctuator(Punctuator::Ampersand),
    Expected::Punctuator(Punctuator::ParenOpen),
    Expected::Punctuator(Punctuator::ParenClose),
    Expected::Punctuator(Punctuator::Spread),
    Expected::Punctuator(Punctuator::Colon),
    Expected::Punctuator(Punctuator::Equals),
    Expected::Punctuator(Punctuator::At),
    Expected::Punctuator(Punctuator::BracketOpen),
    Expected::Punctuator(Punctuator::BracketClose),
    Expected::Punctuator(Punctuator::BraceOpen),
    Expected::Punctuator(Punctuator::Pipe),
    Expected::Punctuator(Punctuator::BraceClose),
    Expected::Keyword(Keyword::Query),
    Expected::Keyword(Keyword::Mutation),
    Expected::Keyword(Keyword::Subscription),
    Expected::Keyword(Keyword::Fragment),
    Expected::Keyword(Keyword::On),
    Expected::Keyword(Keyword::True),
    Expected::Keyword(Keyword::False),
    Expected::Keyword(Keyword::Null),
    Expected::Name,
    Expected::Int,
    Expected::Float,
    Expected::String,
    Expected::BlockString,
    Expected::End,
];

impl Expected {
    /// All of them, in order.
    pub(crate) fn all() -> &'static [Expected]
        ensures every { (x : AnyExpected) → Contains result.now x }
        ensures listed { result.now ≡ listed }
    {
        EXPECTED
    }

    // How one is written.
    pub(crate) fn sample(self) -> &'static str
        ensures { result.now ≡ sample self }
    {
        match self {
            Expected::Punctuator(punctuator) => sign(punctuator),
            Expected::Keyword(keyword) => keyword.word(),
            Expected::Name => "a",
            Expected::Int => "0",
            Expected::Float => "0.0",
            Expected::String => "\"\"",
            Expected::BlockString => "\"\"\"\"\"\"",
            Expected::End => "",
        }
    }
}

impl Keyword {
    fn word(self) -> &'static str
        ensures { result.now ≡ word self }
    {
        match self {
            Keyword::Query => "query",
            Keyword::Mutation => "mutation",
            Keyword::Subscription => "subscription",
            Keyword::Fragment => "fragment",
            Keyword::On => "on",
            Keyword::True => "true",
            Keyword::False => "false",
            Keyword::Null => "null",
        }
    }
}

fn sign(punctuator: Punctuator) -> &'static str
    ensures { result.now ≡ spelling punctuator }
{
    match punctuator {
        Punctuator::Bang => "!",
        Punctuator::Dollar => "$",
        Punctuator::Ampersand => "&",
        Punctuator::ParenOpen => "(",
        Punctuator::ParenClose => ")",
        Punctuator::Spread => "...",
        Punctuator::Colon => ":",
        Punctuator::Equals => "=",
        Punctuator::At => "@",
        Punctuator::BracketOpen => "[",
        Punctuator::BracketClose => "]",
        Punctuator::BraceOpen => "{",
        Punctuator::Pipe => "|",
        Punctuator::BraceClose => "}",
    }
}

/// A token that stands for itself in quotes, as `"{"`, and of the others what they are, as `a name`.
impl fmt::Display for Expected {
    fn fmt<W: fmt::Write>(&self, f: &mut fmt::Formatter<W>) -> fmt::Result {
        match self {
            Expected::Punctuator(_) | Expected::Keyword(_) => write!(f, "\"{}\"", self.sample()),
            Expected::Name => f.write_str("a name"),
            Expected::Int => f.write_str("an integer"),
            Expected::Float => f.write_str("a float"),
            Expected::String => f.write_str("a string"),
            Expected::BlockString => f.write_str("a block string"),
            Expected::End => f.write_str("the end of the text"),
        }
    }
}
