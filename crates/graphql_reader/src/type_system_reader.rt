//! Type system documents (GraphQL, October 2021, section 3).
ghost use Rattle.std.specs.Prelude.{◌≡◌, ◌<◌, IfOk, IfErr, OnErr, length};
ghost use Rattle.graphql_lexer.specs.Ahead.{ahead_of, left};
ghost use Rattle.graphql_reader.specs.Parts.{IsDescription};
ghost use Rattle.value_reader.specs.Faults.{IsTextRefusal};

use crate::arguments::{Directives, read_directives};
use crate::definitions::{operation_type_ahead, read_default_value};
use crate::type_system::{
    Description, DirectiveDefinition, DirectivePlace, EnumValueDefinition, FieldDefinition,
    InputValueDefinition, RootOperationType, SchemaDefinition, TypeBody, TypeDefinition,
    TypeSystemDefinition,
};
use crate::types::read_type;
use graphql_lexer::error::ReadError;
use graphql_lexer::lexer::{Punctuator, Token};
use graphql_lexer::tokens::Tokens;
use language::position::{SourcePosition, Spanning};
use std::alloc::Global;
use value_reader::rules::Variables;
use value_reader::strings::read_string;

type Names<'a> = Vec<Spanning<&'a str>>;

/// Parses a type system document: one or more definitions and extensions in any order (section 3). Names are slices of
/// the text. It takes time in proportion to the length of the text.
///
/// # Errors
///
/// The text has a syntax error, whose position, expectation and finding the error holds, or out of memory.
pub fn read_type_system<'a>(
    alloc: Global,
    text: &'a str,
) -> Result<Vec<TypeSystemDefinition<'a>>, ReadError<'a>>
    ensures { IfOk result (λ definitions. 0 < length definitions.items) }
{
    read_type_system_within(alloc, text, None)
}

/// The same, where lists and objects of a value, and list types each nest at most `max_depth` levels deep, if it is
/// given.
///
/// # Errors
///
/// As [`read_type_system`], and the first token that begins a level too many.
pub fn read_type_system_within<'a>(
    alloc: Global,
    text: &'a str,
    max_depth: Option<usize>,
) -> Result<Vec<TypeSystemDefinition<'a>>, ReadError<'a>>
    ensures { IfOk result (λ definitions. 0 < length definitions.items) }
{
    let mut tokens = Tokens::new(alloc, text.as_bytes());
    let mut definitions = Vec::new(alloc);
    for _ in 0..tokens.bound() {
        let definition = read_definition(&mut tokens, max_depth)?;
        definitions.push(definition)?;
        if tokens.is_at_end() {
            return Ok(definitions);
        }
    }
    Err(tokens.fault("the end of the text"))
}

// An extension has no description.
fn read_definition<'a>(
    tokens: &mut Tokens<'a>,
    max_depth: Option<usize>,
) -> Result<TypeSystemDefinition<'a>, ReadError<'a>> {
    let start = tokens.start();
    if tokens.take_word("extend") {
        return read_described(tokens, max_depth, start, None, true);
    }
    let description = read_description(tokens)?;
    read_described(tokens, max_depth, start, description, false)
}

// The description that is next, if there is one.
fn read_description<'a>(tokens: &mut Tokens<'a>) -> Result<Description, ReadError<'a>>
    ensures text { IfOk result (IsDescription tokens.old tokens.new) }
    ensures refused { IfErr result (IsTextRefusal (ahead_of tokens.old)) }
    ensures unread { OnErr result (left tokens.new ≡ left tokens.old) }
{
    match tokens.ahead() {
        Token::String(_) | Token::BlockString(_) => {
            let span = tokens.span();
            let item = read_string(tokens)?;
            Ok(Some(Spanning { item, span }))
        }
        _ => Ok(None),
    }
}

// What follows a description or `extend`.
fn read_described<'a>(
    tokens: &mut Tokens<'a>,
    max_depth: Option<usize>,
    start: SourcePosition,
    description: Description,
    is_extension: bool,
) -> Result<TypeSystemDefinition<'a>, ReadError<'a>> {
    if tokens.take_word("schema") {
        return read_schema(tokens, max_depth, start, description, is_extension);
    }
    if !is_extension && tokens.take_word("directive") {
        return read_directive_definition(tokens, max_depth, start, description);
    }
    read_type_definition(tokens, max_depth, start, description, is_extension)
}

fn read_schema<'a>(
    tokens: &mut Tokens<'a>,
    max_depth: Option<usize>,
    start: SourcePosition,
    description: Description,
    is_extension: bool,
) -> Result<TypeSystemDefinition<'a>, ReadError<'a>> {
    let directives = read_directives(tokens, Variables::Refused, max_depth)?;
    let roots = if is_extension && directives.is_some() && !tokens.is(Punctuator::BraceOpen) {
        Vec::new(tokens.alloc())
    } else {
        read_roots(tokens)?
    };
    Ok(TypeSystemDefinition::Schema(Spanning {
        item: SchemaDefinition {
            is_extension,
            description,
            directives,
            roots,
        },
        span: tokens.span_from(start),
    }))
}

fn read_roots<'a>(tokens: &mut Tokens<'a>) -> Result<Vec<RootOperationType<'a>>, ReadError<'a>> {
    tokens.expect(Punctuator::BraceOpen, "{")?;
    let mut roots = Vec::new(tokens.alloc());
    for _ in 0..tokens.bound() {
        let root = read_root(tokens)?;
        roots.push(root)?;
        if tokens.take(Punctuator::BraceClose) {
            return Ok(roots);
        }
    }
    Err(tokens.fault("}"))
}

fn read_root<'a>(tokens: &mut Tokens<'a>) -> Result<RootOperationType<'a>, ReadError<'a>> {
    let Some(operation_type) = operation_type_ahead(tokens) else {
        return Err(tokens.fault("`query`, `mutation` or `subscription`"));
    };
    tokens.advance();
    tokens.expect(Punctuator::Colon, ":")?;
    Ok(RootOperationType {
        operation_type,
        name: tokens.name("a type's name")?,
    })
}

// The kinds of types.
#[derive(Clone, Copy, Debug)]
enum Kind {
    Scalar,
    Object,
    Interface,
    Union,
    Enum,
    InputObject,
}

// The kind of type whose keyword is next.
fn kind_ahead(tokens: &Tokens<'_>) -> Option<Kind> {
    match tokens.ahead() {
        Token::Name("scalar") => Some(Kind::Scalar),
        Token::Name("type") => Some(Kind::Object),
        Token::Name("interface") => Some(Kind::Interface),
        Token::Name("union") => Some(Kind::Union),
        Token::Name("enum") => Some(Kind::Enum),
        Token::Name("input") => Some(Kind::InputObject),
        _ => None,
    }
}

fn read_type_definition<'a>(
    tokens: &mut Tokens<'a>,
    max_depth: Option<usize>,
    start: SourcePosition,
    description: Description,
    is_extension: bool,
) -> Result<TypeSystemDefinition<'a>, ReadError<'a>> {
    let Some(kind) = kind_ahead(tokens) else {
        return Err(tokens.fault("a definition of a schema, a type or a directive"));
    };
    tokens.advance();
    let name = tokens.name("a type's name")?;
    let interfaces = read_interfaces(tokens, kind)?;
    let directives = read_directives(tokens, Variables::Refused, max_depth)?;
    let is_bare = interfaces.is_empty() && directives.is_none();
    let body = read_body(tokens, max_depth, kind)?;
    if is_extension && is_bare && is_empty_body(&body) {
        return Err(tokens.fault("an extension of the type"));
    }
    Ok(TypeSystemDefinition::Type(Spanning {
        item: TypeDefinition {
            is_extension,
            description,
            name,
            interfaces,
            directives,
            body,
        },
        span: tokens.span_from(start),
    }))
}

fn is_empty_body(body: &TypeBody<'_>) -> bool {
    match body {
        TypeBody::Scalar => true,
        TypeBody::Object(fields) | TypeBody::Interface(fields) => fields.is_empty(),
        TypeBody::Union(members) => members.is_empty(),
        TypeBody::Enum(values) => values.is_empty(),
        TypeBody::InputObject(fields) => fields.is_empty(),
    }
}

fn read_body<'a>(
    tokens: &mut Tokens<'a>,
    max_depth: Option<usize>,
    kind: Kind,
) -> Result<TypeBody<'a>, ReadError<'a>> {
    Ok(match kind {
        Kind::Scalar => TypeBody::Scalar,
        Kind::Object => TypeBody::Object(read_fields(tokens, max_depth)?),
        Kind::Interface => TypeBody::Interface(read_fields(tokens, max_depth)?),
        Kind::Union => TypeBody::Union(read_members(tokens)?),
        Kind::Enum => TypeBody::Enum(read_enum_values(tokens, max_depth)?),
        Kind::InputObject => TypeBody::InputObject(read_input_fields(tokens, max_depth)?),
    })
}

// The interfaces of an object or an interface. Elsewhere the keyword is a syntax error, since nothing takes it.
fn read_interfaces<'a>(tokens: &mut Tokens<'a>, kind: Kind) -> Result<Names<'a>, ReadError<'a>> {
    match kind {
        Kind::Object | Kind::Interface if tokens.take_word("implements") => {
            read_names(tokens, Punctuator::Ampersand)
        }
        _ => Ok(Vec::new(tokens.alloc())),
    }
}

fn read_members<'a>(tokens: &mut Tokens<'a>) -> Result<Names<'a>, ReadError<'a>> {
    if !tokens.take(Punctuator::Equals) {
        return Ok(Vec::new(tokens.alloc()));
    }
    read_names(tokens, Punctuator::Pipe)
}

// Names of types, with a punctuator between each two, which may stand before the first too.
fn read_names<'a>(
    tokens: &mut Tokens<'a>,
    between: Punctuator,
) -> Result<Names<'a>, ReadError<'a>> {
    tokens.take(between);
    let mut names = Vec::new(tokens.alloc());
    for _ in 0..tokens.bound() {
        let name = tokens.name("a type's name")?;
        names.push(name)?;
        if !tokens.take(between) {
            return Ok(names);
        }
    }
    Err(tokens.fault("a type's name"))
}

fn read_fields<'a>(
    tokens: &mut Tokens<'a>,
    max_depth: Option<usize>,
) -> Result<Vec<FieldDefinition<'a>>, ReadError<'a>> {
    let mut fields = Vec::new(tokens.alloc());
    if !tokens.take(Punctuator::BraceOpen) {
        return Ok(fields);
    }
    for _ in 0..tokens.bound() {
        let field = read_field_definition(tokens, max_depth)?;
        fields.push(field)?;
        if tokens.take(Punctuator::BraceClose) {
            return Ok(fields);
        }
    }
    Err(tokens.fault("}"))
}

fn read_field_definition<'a>(
    tokens: &mut Tokens<'a>,
    max_depth: Option<usize>,
) -> Result<FieldDefinition<'a>, ReadError<'a>> {
    let description = read_description(tokens)?;
    let name = tokens.name("a field's name")?;
    let arguments = read_argument_definitions(tokens, max_depth)?;
    tokens.expect(Punctuator::Colon, ":")?;
    let field_type = read_type(tokens, max_depth)?;
    let directives = read_directives(tokens, Variables::Refused, max_depth)?;
    Ok(FieldDefinition {
        description,
        name,
        arguments,
        field_type,
        directives,
    })
}

fn read_argument_definitions<'a>(
    tokens: &mut Tokens<'a>,
    max_depth: Option<usize>,
) -> Result<Vec<InputValueDefinition<'a>>, ReadError<'a>> {
    read_input_values(
        tokens,
        max_depth,
        Punctuator::ParenOpen,
        Punctuator::ParenClose,
    )
}

fn read_input_fields<'a>(
    tokens: &mut Tokens<'a>,
    max_depth: Option<usize>,
) -> Result<Vec<InputValueDefinition<'a>>, ReadError<'a>> {
    read_input_values(
        tokens,
        max_depth,
        Punctuator::BraceOpen,
        Punctuator::BraceClose,
    )
}

// Input values between two punctuators, one at least where the first is ahead.
fn read_input_values<'a>(
    tokens: &mut Tokens<'a>,
    max_depth: Option<usize>,
    open: Punctuator,
    close: Punctuator,
) -> Result<Vec<InputValueDefinition<'a>>, ReadError<'a>> {
    let mut values = Vec::new(tokens.alloc());
    if !tokens.take(open) {
        return Ok(values);
    }
    for _ in 0..tokens.bound() {
        let value = read_input_value(tokens, max_depth)?;
        values.push(value)?;
        if tokens.take(close) {
            return Ok(values);
        }
    }
    Err(tokens.fault("the end of the list"))
}

fn read_input_value<'a>(
    tokens: &mut Tokens<'a>,
    max_depth: Option<usize>,
) -> Result<InputValueDefinition<'a>, ReadError<'a>> {
    let description = read_description(tokens)?;
    let name = tokens.name("a name")?;
    tokens.expect(Punctuator::Colon, ":")?;
    let value_type = read_type(tokens, max_depth)?;
    let default_value = read_default_value(tokens, max_depth)?;
    let directives = read_directives(tokens, Variables::Refused, max_depth)?;
    Ok(InputValueDefinition {
        description,
        name,
        value_type,
        default_value,
        directives,
    })
}

fn read_enum_values<'a>(
    tokens: &mut Tokens<'a>,
    max_depth: Option<usize>,
) -> Result<Vec<EnumValueDefinition<'a>>, ReadError<'a>> {
    let mut values = Vec::new(tokens.alloc());
    if !tokens.take(Punctuator::BraceOpen) {
        return Ok(values);
    }
    for _ in 0..tokens.bound() {
        let value = read_enum_value(tokens, max_depth)?;
        values.push(value)?;
        if tokens.take(Punctuator::BraceClose) {
            return Ok(values);
        }
    }
    Err(tokens.fault("}"))
}

fn read_enum_value<'a>(
    tokens: &mut Tokens<'a>,
    max_depth: Option<usize>,
) -> Result<EnumValueDefinition<'a>, ReadError<'a>> {
    let description = read_description(tokens)?;
    if tokens.is_word("true") || tokens.is_word("false") || tokens.is_word("null") {
        return Err(tokens.fault("an enum value"));
    }
    let name = tokens.name("an enum value")?;
    let directives: Directives<'a> = read_directives(tokens, Variables::Refused, max_depth)?;
    Ok(EnumValueDefinition {
        description,
        name,
        directives,
    })
}

fn read_directive_definition<'a>(
    tokens: &mut Tokens<'a>,
    max_depth: Option<usize>,
    start: SourcePosition,
    description: Description,
) -> Result<TypeSystemDefinition<'a>, ReadError<'a>> {
    tokens.expect(Punctuator::At, "@")?;
    let name = tokens.name("a directive's name")?;
    let arguments = read_argument_definitions(tokens, max_depth)?;
    let is_repeatable = tokens.take_word("repeatable");
    let locations = read_locations(tokens)?;
    Ok(TypeSystemDefinition::Directive(Spanning {
        item: DirectiveDefinition {
            description,
            name,
            arguments,
            is_repeatable,
            locations,
        },
        span: tokens.span_from(start),
    }))
}

fn read_locations<'a>(
    tokens: &mut Tokens<'a>,
) -> Result<Vec<Spanning<DirectivePlace>>, ReadError<'a>> {
    if !tokens.take_word("on") {
        return Err(tokens.fault("`on`"));
    }
    tokens.take(Punctuator::Pipe);
    let mut locations = Vec::new(tokens.alloc());
    for _ in 0..tokens.bound() {
        let location = read_location(tokens)?;
        locations.push(location)?;
        if !tokens.take(Punctuator::Pipe) {
            return Ok(locations);
        }
    }
    Err(tokens.fault("a directive's location"))
}

fn read_location<'a>(tokens: &mut Tokens<'a>) -> Result<Spanning<DirectivePlace>, ReadError<'a>> {
    let place = match tokens.ahead() {
        Token::Name(name) => DirectivePlace::of_name(name),
        _ => None,
    };
    match place {
        Some(item) => {
            let span = tokens.span();
            tokens.advance();
            Ok(Spanning { item, span })
        }
        None => Err(tokens.fault("a directive's location")),
    }
}
