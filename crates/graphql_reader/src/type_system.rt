//! The tree of a type system document (GraphQL, October 2021, section 3).
use crate::arguments::Directives;
use language::position::Spanning;
use language::tree::OperationType;
use language::types::Type;
use language::value::InputValue;
use sdl_scalars::scalar::SourceScalar;

/// A description (section 3.4.1), with the span of its string.
pub type Description = Option<Spanning<String>>;

/// A definition or an extension of a type system document, with its span.
#[derive(Drop)]
pub enum TypeSystemDefinition<'a> {
    Schema(Spanning<SchemaDefinition<'a>>),
    Type(Spanning<TypeDefinition<'a>>),
    Directive(Spanning<DirectiveDefinition<'a>>),
}

/// The root types of a schema (section 3.3), or what an extension adds to them.
#[derive(Drop)]
pub struct SchemaDefinition<'a> {
    pub is_extension: bool,
    pub description: Description,
    pub directives: Directives<'a>,
    pub roots: Vec<RootOperationType<'a>>,
}

/// The type of the root of one kind of operation (section 3.3.1).
#[derive(Drop)]
pub struct RootOperationType<'a> {
    pub operation_type: OperationType,
    pub name: Spanning<&'a str>,
}

/// A type (section 3.4), or what an extension adds to it (section 3.4.3).
#[derive(Drop)]
pub struct TypeDefinition<'a> {
    pub is_extension: bool,
    pub description: Description,
    pub name: Spanning<&'a str>,
    pub interfaces: Vec<Spanning<&'a str>>,
    pub directives: Directives<'a>,
    pub body: TypeBody<'a>,
}

/// The parts of a type, by its kind. Only objects and interfaces implement interfaces.
#[derive(Drop)]
pub enum TypeBody<'a> {
    /// Section 3.5.
    Scalar,
    /// Section 3.6.
    Object(Vec<FieldDefinition<'a>>),
    /// Section 3.7.
    Interface(Vec<FieldDefinition<'a>>),
    /// The members (section 3.8).
    Union(Vec<Spanning<&'a str>>),
    /// Section 3.9.
    Enum(Vec<EnumValueDefinition<'a>>),
    /// Section 3.10.
    InputObject(Vec<InputValueDefinition<'a>>),
}

/// A field of an object or an interface (section 3.6).
#[derive(Drop)]
pub struct FieldDefinition<'a> {
    pub description: Description,
    pub name: Spanning<&'a str>,
    pub arguments: Vec<InputValueDefinition<'a>>,
    pub field_type: Spanning<Type>,
    pub directives: Directives<'a>,
}

/// An argument (section 3.6.1), or a field of an input object (section 3.10).
#[derive(Drop)]
pub struct InputValueDefinition<'a> {
    pub description: Description,
    pub name: Spanning<&'a str>,
    pub value_type: Spanning<Type>,
    pub default_value: Option<Spanning<InputValue<SourceScalar>>>,
    pub directives: Directives<'a>,
}

/// A value of an enum (section 3.9).
#[derive(Drop)]
pub struct EnumValueDefinition<'a> {
    pub description: Description,
    pub name: Spanning<&'a str>,
    pub directives: Directives<'a>,
}

/// A directive (section 3.13).
#[derive(Drop)]
pub struct DirectiveDefinition<'a> {
    pub description: Description,
    pub name: Spanning<&'a str>,
    pub arguments: Vec<InputValueDefinition<'a>>,
    pub is_repeatable: bool,
    pub locations: Vec<Spanning<DirectivePlace>>,
}

/// A location of a directive (section 3.13).
#[derive(Clone, Copy, Debug, PartialEq, Eq)]
pub enum DirectivePlace {
    Query,
    Mutation,
    Subscription,
    Field,
    FragmentDefinition,
    FragmentSpread,
    InlineFragment,
    VariableDefinition,
    Schema,
    Scalar,
    Object,
    FieldDefinition,
    ArgumentDefinition,
    Interface,
    Union,
    Enum,
    EnumValue,
    InputObject,
    InputFieldDefinition,
}

impl DirectivePlace {
    /// The location of this name, if it is the name of one.
    pub fn of_name(name: &str) -> Option<DirectivePlace> {
        Some(match name {
            "QUERY" => DirectivePlace::Query,
            "MUTATION" => DirectivePlace::Mutation,
            "SUBSCRIPTION" => DirectivePlace::Subscription,
            "FIELD" => DirectivePlace::Field,
            "FRAGMENT_DEFINITION" => DirectivePlace::FragmentDefinition,
            "FRAGMENT_SPREAD" => DirectivePlace::FragmentSpread,
            "INLINE_FRAGMENT" => DirectivePlace::InlineFragment,
            "VARIABLE_DEFINITION" => DirectivePlace::VariableDefinition,
            _ => return DirectivePlace::of_type_system_name(name),
        })
    }

    fn of_type_system_name(name: &str) -> Option<DirectivePlace> {
        Some(match name {
            "SCHEMA" => DirectivePlace::Schema,
            "SCALAR" => DirectivePlace::Scalar,
            "OBJECT" => DirectivePlace::Object,
            "FIELD_DEFINITION" => DirectivePlace::FieldDefinition,
            "ARGUMENT_DEFINITION" => DirectivePlace::ArgumentDefinition,
            "INTERFACE" => DirectivePlace::Interface,
            "UNION" => DirectivePlace::Union,
            "ENUM" => DirectivePlace::Enum,
            "ENUM_VALUE" => DirectivePlace::EnumValue,
            "INPUT_OBJECT" => DirectivePlace::InputObject,
            "INPUT_FIELD_DEFINITION" => DirectivePlace::InputFieldDefinition,
            _ => return None,
        })
    }
}
