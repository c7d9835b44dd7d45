//! Directives and their locations.
ghost use Rattle.std.specs.Prelude.{◌≡◌, IfOk, None, Some, option_map, string_bytes};
ghost use Rattle.schema_validation.specs.Locations.{location_words};

use language_types::error::OutOfMemory;
use language_values::value::DefaultScalarValue;
use meta::arguments::Argument;
use std::alloc::Global;
use std::fmt;

/// A location at which a directive may be used (section 3.13).
#[derive(Clone, Debug, PartialEq, Eq, Drop)]
pub enum DirectiveLocation {
    Query,
    Mutation,
    Subscription,
    Field,
    Scalar,
    FragmentDefinition,
    FieldDefinition,
    VariableDefinition,
    FragmentSpread,
    InlineFragment,
    EnumValue,
    Schema,
    Object,
    ArgumentDefinition,
    Interface,
    Union,
    Enum,
    InputObject,
    InputFieldDefinition,
}

/// The name of the location, in lower case with spaces between the words.
impl fmt::Display for DirectiveLocation {
    ghost output = { λ l. Some (location_words l) };

    fn fmt<W: fmt::Write>(&self, f: &mut fmt::Formatter<W>) -> fmt::Result {
        f.write_str(match self {
            DirectiveLocation::Query => "query",
            DirectiveLocation::Mutation => "mutation",
            DirectiveLocation::Subscription => "subscription",
            DirectiveLocation::Field => "field",
            DirectiveLocation::Scalar => "scalar",
            DirectiveLocation::FragmentDefinition => "fragment definition",
            DirectiveLocation::FieldDefinition => "field definition",
            DirectiveLocation::VariableDefinition => "variable definition",
            DirectiveLocation::FragmentSpread => "fragment spread",
            DirectiveLocation::InlineFragment => "inline fragment",
            DirectiveLocation::EnumValue => "enum value",
            DirectiveLocation::Schema => "schema",
            DirectiveLocation::Object => "object",
            DirectiveLocation::ArgumentDefinition => "argument definition",
            DirectiveLocation::Interface => "interface",
            DirectiveLocation::Union => "union",
            DirectiveLocation::Enum => "enum",
            DirectiveLocation::InputObject => "input object",
            DirectiveLocation::InputFieldDefinition => "input field definition",
        })
    }
}

/// A directive (section 3.13).
#[derive(Drop)]
pub struct DirectiveType<S = DefaultScalarValue> {
    pub name: String,
    pub description: Option<String>,
    /// The locations at which the directive may be used.
    pub locations: Vec<DirectiveLocation>,
    pub arguments: Vec<Argument<S>>,
    /// Whether the directive may be used twice at one location.
    pub is_repeatable: bool,
}

impl<S: Drop> DirectiveType<S> {
    /// A directive of this name, with no description.
    ///
    /// # Errors
    ///
    /// Out of memory.
    pub fn new(
        alloc: Global,
        name: &str,
        locations: Vec<DirectiveLocation>,
        arguments: Vec<Argument<S>>,
        is_repeatable: bool,
    ) -> Result<Self, OutOfMemory>
        ensures name { IfOk result (λ d. string_bytes d.name ≡ name.now) }
        ensures description { IfOk result (λ d. d.description ≡ None) }
        ensures locations { IfOk result (λ d. d.locations ≡ locations) }
        ensures arguments { IfOk result (λ d. d.arguments ≡ arguments) }
        ensures repeatable { IfOk result (λ d. d.is_repeatable ≡ is_repeatable) }
    {
        Ok(DirectiveType {
            name: String::from_str(alloc, name)?,
            description: None,
            locations,
            arguments,
            is_repeatable,
        })
    }

    /// Replaces the description.
    ///
    /// # Errors
    ///
    /// Out of memory.
    pub fn description(mut self, text: &str) -> Result<Self, OutOfMemory>
        ensures text { IfOk result (λ d. option_map string_bytes d.description ≡ Some text.now) }
        ensures others { IfOk result (λ d. d ≡ record self { description = d.description }) }
    {
        self.description = Some(String::from_str(*self.name.allocator(), text)?);
        Ok(self)
    }
}
