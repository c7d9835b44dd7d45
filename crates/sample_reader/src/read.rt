//! Texts of a document, of a value or of a type.
use crate::error::ReadError;
use crate::text::{Sizes, size_at, translated};
use crate::trees::Source;
use graphql_lexer::lexer::Punctuator;
use graphql_lexer::tokens::Tokens;
use language::error::OutOfMemory;
use language::position::Spanning;
use language::tree::Definition;
use language::types::Type;
use language::value::{DefaultScalarValue, InputValue};
use std::alloc::Global;

/// Parses an executable document, whose names are slices of the text. It takes time in proportion to the length of
/// the text.
///
/// Positions count bytes from 0: the index from the start of the text, the column from the start of the line. Only a
/// line feed ends a line.
///
/// # Errors
///
/// The position of the first token that doesn't fit, or out of memory.
pub fn read_document(
    alloc: Global,
    text: &[u8],
) -> Result<Vec<Definition<'_, DefaultScalarValue>>, ReadError> {
    let copy = translated(alloc, text, Sizes::Refused)?;
    let read = graphql_reader::read_document(alloc, copy.as_str())?;
    let source = Source { alloc, text };
    let mut definitions = Vec::with_capacity(alloc, read.len())?;
    for definition in read {
        definitions.push(source.definition(definition)?)?;
    }
    Ok(definitions)
}

/// Parses a text that is one value without variables, as values of variables are given.
///
/// # Errors
///
/// The position of the first token that doesn't fit, or out of memory.
pub fn read_value(
    alloc: Global,
    text: &[u8],
) -> Result<Spanning<InputValue<DefaultScalarValue>>, ReadError> {
    let copy = translated(alloc, text, Sizes::Refused)?;
    let read = graphql_reader::read_constant(alloc, copy.as_str())?;
    Source { alloc, text }.value(&read)
}

/// Parses a text that is one type. A list may have an expected size directly behind it, as in `[Int]#2!`, which no
/// document can express.
///
/// # Errors
///
/// The position of the first token that doesn't fit, or out of memory.
pub fn read_type(alloc: Global, text: &[u8]) -> Result<Spanning<Type>, ReadError> {
    let copy = translated(alloc, text, Sizes::Allowed)?;
    let mut tokens = Tokens::new(alloc, copy.as_bytes());
    let start = tokens.start();
    let item = read_levels(alloc, &mut tokens, text)?;
    let span = tokens.span_from(start);
    if !tokens.is_at_end() {
        return Err(tokens.fault("the end of the text").into());
    }
    Ok(Spanning { item, span })
}

// A type is made from its name outwards. `graphql_reader` has no sizes.
fn read_levels(alloc: Global, tokens: &mut Tokens<'_>, text: &[u8]) -> Result<Type, ReadError> {
    let levels = take_opening_brackets(tokens);
    let name = tokens.name("a type")?;
    let mut item = read_non_null(tokens, Type::nullable(alloc, name.item)?)?;
    for _ in 0..levels {
        let behind = text.get(tokens.span().end.index()..).unwrap_or(&[]);
        tokens.expect(Punctuator::BracketClose, "]")?;
        let size = size_at(behind).map(|(size, _)| size);
        item = read_non_null(tokens, item.wrap_list(size)?)?;
    }
    Ok(item)
}

fn take_opening_brackets(tokens: &mut Tokens<'_>) -> usize {
    let bound = tokens.bound();
    for taken in 0..bound {
        if !tokens.take(Punctuator::BracketOpen) {
            return taken;
        }
    }
    bound
}

// The type, or the type made non-null where an exclamation mark follows.
fn read_non_null(tokens: &mut Tokens<'_>, plain: Type) -> Result<Type, OutOfMemory> {
    if tokens.take(Punctuator::Bang) {
        plain.wrap_non_null()
    } else {
        Ok(plain)
    }
}
