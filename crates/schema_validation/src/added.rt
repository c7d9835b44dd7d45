//! What a schema adds: two fields of the query root (section 4.1), and four directives (section 3.13).
ghost use Rattle.std.specs.Prelude.{◌≡◌, IfOk, [], ◌∷◌, codes, map};
ghost use Rattle.schema_validation.specs.Added.{argument_shape, field_shape, directive_shape, required, schema_field};
ghost use Rattle.schema_validation.specs.Added.{type_field, with_argument, conditional, deprecated_shape};
ghost use Rattle.schema_validation.specs.Added.{specified_by_shape, standard_directives};

use crate::directives::{DirectiveLocation, DirectiveType};
use language_types::error::OutOfMemory;
use language_types::types::Type;
use meta::arguments::Argument;
use meta::fields::Field;
use std::alloc::Global;

/// The argument `name: type_name!`.
fn required_argument<S: Drop>(
    alloc: Global,
    name: &str,
    type_name: &str,
) -> Result<Argument<S>, OutOfMemory>
    ensures { IfOk result (λ a. argument_shape a ≡ required name.now type_name.now) }
{
    Argument::new(alloc, name, Type::non_null(alloc, type_name)?)
}

/// The field `__schema: __Schema!`.
///
/// # Errors
///
/// Out of memory.
pub fn make_schema_field<S: Drop>(alloc: Global) -> Result<Field<S>, OutOfMemory>
    ensures { IfOk result (λ f. field_shape f ≡ schema_field) }
{
    Field::new(alloc, "__schema", Type::non_null(alloc, "__Schema")?)
}

/// The field `__type(name: String!): __Type!`.
///
/// # Errors
///
/// Out of memory.
pub fn make_type_field<S: Drop>(alloc: Global) -> Result<Field<S>, OutOfMemory>
    ensures { IfOk result (λ f. field_shape f ≡ type_field) }
{
    let name = required_argument(alloc, "name", "String")?;
    Field::new(alloc, "__type", Type::non_null(alloc, "__Type")?)?.argument(name)
}

/// A directive with one argument, `argument: type_name!`.
fn make_directive<S: Drop>(
    alloc: Global,
    name: &str,
    locations: Vec<DirectiveLocation>,
    argument: &str,
    type_name: &str,
) -> Result<DirectiveType<S>, OutOfMemory>
    ensures { IfOk result (λ d. directive_shape d ≡ with_argument name.now locations.items argument.now type_name.now) }
{
    let mut arguments = Vec::new(alloc);
    arguments.push(required_argument(alloc, argument, type_name)?)?;
    DirectiveType::new(alloc, name, locations, arguments, false)
}

/// The directive `skip` or `include`.
fn make_conditional<S: Drop>(alloc: Global, name: &str) -> Result<DirectiveType<S>, OutOfMemory>
    ensures { IfOk result (λ d. directive_shape d ≡ conditional name.now) }
{
    let locations = vec![in alloc;
        DirectiveLocation::Field,
        DirectiveLocation::FragmentSpread,
        DirectiveLocation::InlineFragment,
    ]?;
    make_directive(alloc, name, locations, "if", "Boolean")
}

fn make_deprecated<S: Drop>(alloc: Global) -> Result<DirectiveType<S>, OutOfMemory>
    ensures { IfOk result (λ d. directive_shape d ≡ deprecated_shape) }
{
    let locations = vec![in alloc;
        DirectiveLocation::FieldDefinition,
        DirectiveLocation::EnumValue,
    ]?;
    make_directive(alloc, "deprecated", locations, "reason", "String")
}

fn make_specified_by<S: Drop>(alloc: Global) -> Result<DirectiveType<S>, OutOfMemory>
    ensures { IfOk result (λ d. directive_shape d ≡ specified_by_shape) }
{
    let locations = vec![in alloc; DirectiveLocation::Scalar]?;
    make_directive(alloc, "specifiedBy", locations, "url", "String")
}

/// The four directives of every schema: `skip`, `include`, `deprecated` and `specifiedBy`.
///
/// # Errors
///
/// Out of memory.
pub fn make_directives<S: Drop>(alloc: Global) -> Result<Vec<DirectiveType<S>>, OutOfMemory>
    ensures { IfOk result (λ v. map directive_shape v.items ≡ standard_directives) }
{
    let mut directives = Vec::new(alloc);
    directives.push(make_conditional(alloc, "skip")?)?;
    directives.push(make_conditional(alloc, "include")?)?;
    directives.push(make_deprecated(alloc)?)?;
    directives.push(make_specified_by(alloc)?)?;
    Ok(directives)
}
