//! The types at the nodes of a document, each given by a rule on the node above it.

ghost use Rattle.std.specs.Prelude.{◌≡◌, string_bytes, Some, option_and_then, find};
ghost use Rattle.std.specs.Str.{bytes_eq};
ghost use Rattle.std.specs.Option.{option_copied, option_map};
ghost use Rattle.language_types.specs.Types.{borrowed_shape, list_inner_of, non_null_named};
ghost use Rattle.events.specs.SchemaView.{field_arguments, directive_arguments, argument_literal, field_literal};
ghost use Rattle.events.specs.SchemaView.{root_literal, input_field_literal};
ghost use Rattle.events.specs.Typing.{at_type, at_input, at_set, at_variable, at_argument, at_items, at_object_field};
ghost use Rattle.events.specs.Typing.{at_condition};
ghost use Rattle.events.specs.EventValue.{typing_of};

use language::position::Spanning;
use language::tree::{OperationType, VariableDefinition};
use language::types::BorrowedType;
use meta::{Argument, MetaTypeOf};
use schema::model::SchemaTypeOf;

/// The types at a node, borrowed from the schema and the document.
#[derive_where(Clone, Copy)]
pub struct TypesOf<'a, S, C> {
    pub current: Option<&'a MetaTypeOf<S, C>>,
    pub literal: Option<BorrowedType<'a>>,
    pub parent: Option<&'a MetaTypeOf<S, C>>,
    pub input: Option<BorrowedType<'a>>,
}

impl<'a, S, C> TypesOf<'a, S, C> {
    /// The types at a node where a type is written.
    pub fn at_type(self, schema: &'a SchemaTypeOf<S, C>, literal: Option<BorrowedType<'a>>) -> Self
        ensures { typing_of result
            ≡ at_type schema.now (typing_of self.entry) (option_map borrowed_shape literal.entry) }
    {
        let current = match literal {
            Some(t) => schema.concrete_type_by_name(t.innermost_name()),
            None => None,
        };
        TypesOf {
            current,
            literal,
            parent: self.parent,
            input: self.input,
        }
    }

    /// The types where an input of a type is expected.
    pub fn at_input(self, literal: Option<BorrowedType<'a>>) -> Self
        ensures { typing_of result ≡ at_input (typing_of self.entry) (option_map borrowed_shape literal.entry) }
    {
        TypesOf {
            current: self.current,
            literal: self.literal,
            parent: self.parent,
            input: literal,
        }
    }

    /// The types in the selection set of a node.
    pub fn at_set(self) -> Self
        ensures { typing_of result ≡ at_set (typing_of self.entry) }
    {
        TypesOf {
            current: self.current,
            literal: self.literal,
            parent: self.current,
            input: self.input,
        }
    }
}

// The type of the first field of the name.
fn type_of_field<'a, S, C>(
    parent: Option<&'a MetaTypeOf<S, C>>,
    name: &str,
) -> Option<BorrowedType<'a>>
    ensures { option_map borrowed_shape result ≡ field_literal (option_copied parent.entry) name.now }
{
    match parent?.field_by_name(name) {
        Some(field) => Some(field.field_type.as_borrowed()),
        None => None,
    }
}

/// The arguments of the parent type's first field of the name; `None` where there is no such field, or it has no list.
pub fn arguments_of_field<'a, S, C>(
    parent: Option<&'a MetaTypeOf<S, C>>,
    name: &str,
) -> Option<&'a [Argument<S>]>
    ensures { option_copied result ≡ field_arguments (option_copied parent.entry) name.now }
{
    match &parent?.field_by_name(name)?.arguments {
        Some(arguments) => Some(arguments.as_slice()),
        None => None,
    }
}

/// The arguments of the schema's directive of the name; `None` where there is no such directive.
pub fn arguments_of_directive<'a, S, C>(
    schema: &'a SchemaTypeOf<S, C>,
    name: &str,
) -> Option<&'a [Argument<S>]>
    ensures { option_copied result ≡ directive_arguments schema.now name.now }
{
    match schema.directive_by_name(name) {
        Some(directive) => Some(directive.arguments.as_slice()),
        None => None,
    }
}

// The first argument of the name.
fn first_argument<'a, S>(arguments: &'a [Argument<S>], name: &str) -> Option<&'a Argument<S>>
    ensures { option_copied result ≡ find (λ a. bytes_eq (string_bytes a.name) name.now) arguments.now }
{
    for argument in arguments {
        if argument.name.as_str() == name {
            return Some(argument);
        }
    }
    None
}

// The type of the first argument of the name.
fn type_of_argument<'a, S>(
    arguments: Option<&'a [Argument<S>]>,
    name: &str,
) -> Option<BorrowedType<'a>>
    ensures { option_map borrowed_shape result ≡ argument_literal (option_copied arguments.entry) name.now }
{
    match first_argument(arguments?, name) {
        Some(argument) => Some(argument.arg_type.as_borrowed()),
        None => None,
    }
}

// The type of the input field of the key.
fn type_of_input_field<'a, S, C>(
    schema: &'a SchemaTypeOf<S, C>,
    literal: Option<BorrowedType<'a>>,
    key: &str,
) -> Option<BorrowedType<'a>>
    ensures { option_map borrowed_shape result
        ≡ input_field_literal schema.now (option_map borrowed_shape literal.entry) key.now }
{
    let object = schema.concrete_type_by_name(literal?.name()?)?;
    match object.input_field_by_name(key) {
        Some(field) => Some(field.arg_type.as_borrowed()),
        None => None,
    }
}

// The type of the items of a list of a type.
fn type_of_items<'a>(literal: Option<BorrowedType<'a>>) -> Option<BorrowedType<'a>>
    ensures { option_map borrowed_shape result
        ≡ option_and_then list_inner_of (option_map borrowed_shape literal.entry) }
{
    literal?.borrow_list_inner()
}

// The root of the operations of a kind, as a type that is never null.
fn type_of_root<'a, S, C>(
    schema: &'a SchemaTypeOf<S, C>,
    kind: OperationType,
) -> Option<BorrowedType<'a>>
    ensures { option_map borrowed_shape result ≡ root_literal schema.now kind }
{
    let root = match kind {
        OperationType::Query => Some(schema.concrete_query_type()),
        OperationType::Mutation => schema.concrete_mutation_type(),
        OperationType::Subscription => schema.concrete_subscription_type(),
    };
    match root?.name() {
        Some(name) => Some(BorrowedType::non_null(name)),
        None => None,
    }
}

impl<'a, S, C> TypesOf<'a, S, C> {
    // To those at an operation of a kind.
    pub(crate) fn go_to_operation(&mut self, schema: &'a SchemaTypeOf<S, C>, kind: OperationType)
        ensures { typing_of self.new ≡ at_type schema.now (typing_of self.old) (root_literal schema.now kind) }
    {
        *self = self.at_type(schema, type_of_root(schema, kind));
    }

    // To those at the definition of a fragment on a type.
    pub(crate) fn go_to_named(&mut self, schema: &'a SchemaTypeOf<S, C>, name: &'a str)
        ensures { typing_of self.new
            ≡ at_type schema.now (typing_of self.old) (Some (non_null_named name.now)) }
    {
        *self = self.at_type(schema, Some(BorrowedType::non_null(name)));
    }

    // To those at a field of the name.
    pub(crate) fn go_to_field(&mut self, schema: &'a SchemaTypeOf<S, C>, name: &str)
        ensures { typing_of self.new
            ≡ at_type schema.now (typing_of self.old) (field_literal (typing_of self.old).parent name.now) }
    {
        *self = self.at_type(schema, type_of_field(self.parent, name));
    }

    // To those at an inline fragment, with or without a condition.
    pub(crate) fn go_to_condition(
        &mut self,
        schema: &'a SchemaTypeOf<S, C>,
        condition: &'a Option<Spanning<&'a str>>,
    )
        ensures { typing_of self.new
            ≡ at_condition schema.now (typing_of self.old) (option_map (λ c. c.item.now) condition.now) }
    {
        if let Some(name) = condition {
            self.go_to_named(schema, name.item);
        }
    }

    // To those at the definition of a variable of a type.
    pub(crate) fn go_to_variable(&mut self, variable: &'a VariableDefinition<'a, S>)
        ensures { typing_of self.new ≡ at_variable (typing_of self.old) variable.now }
    {
        *self = self.at_input(Some(variable.var_type.item.as_borrowed()));
    }

    // To those at an argument of the name, whose type is looked up among these.
    pub(crate) fn go_to_argument(&mut self, arguments: Option<&'a [Argument<S>]>, name: &str)
        ensures { typing_of self.new ≡ at_argument (option_copied arguments.entry) (typing_of self.old) name.now }
    {
        *self = self.at_input(type_of_argument(arguments, name));
    }

    // At the items of a list.
    pub(crate) fn at_items(self) -> Self
        ensures { typing_of result ≡ at_items (typing_of self.entry) }
    {
        self.at_input(type_of_items(self.input))
    }

    // To those at the field of an object.
    pub(crate) fn go_to_object_field(&mut self, schema: &'a SchemaTypeOf<S, C>, key: &str)
        ensures { typing_of self.new ≡ at_object_field schema.now (typing_of self.old) key.now }
    {
        *self = self.at_input(type_of_input_field(schema, self.input, key));
    }

    // To those in the selection set of a node.
    pub(crate) fn go_to_set(&mut self)
        ensures { typing_of self.new ≡ at_set (typing_of self.old) }
    {
        *self = self.at_set();
    }
}
