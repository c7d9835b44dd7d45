//! The type of a field is that of the interface's field, or a subtype (GraphQL, October 2021, sections 3.6 and 3.7).
ghost use Rattle.std.specs.Prelude.{◌≡◌, ◌++◌, OnOk};
ghost use Rattle.language_types.specs.Types.{shape};
ghost use Rattle.type_system_report.specs.Fault.{reported};
ghost use Rattle.type_system_interfaces.specs.FieldTypes.{is_field_type, is_implementer_named, is_member_named, may_stand_for};
ghost use Rattle.type_system_interfaces.specs.FieldTypes.{wrong_field_type};
ghost use Rattle.type_system_interfaces.specs.Pair.{pair_value};

use crate::layers::are_layers_below;
use crate::listed::is_text_among;
use crate::members::{interface_names, union_members};
use crate::pair::FieldPair;
use language_types::error::OutOfMemory;
use language_types::types::Type;
use schema::meta::MetaTypeOf;
use schema::model::SchemaTypeOf;
use type_system_report::report::report;
use type_system_report::{Fault, FaultKindOf};

/// Reports the type of a field that may not stand for that of the interface's field.
pub(crate) fn report_wrong_field_type<'a, S, C>(
    faults: &mut Vec<Fault<'a>>,
    schema: &SchemaTypeOf<S, C>,
    pair: &FieldPair<'a, S>,
) -> Result<(), OutOfMemory>
    ensures { OnOk result (reported faults.new ≡ reported faults.old
        ++ wrong_field_type schema.now (pair_value pair.now)) }
{
    let wanted = &pair.wanted.field_type;
    let given = &pair.given.field_type;
    if !is_field_type(schema, given, wanted) {
        report(
            faults,
            pair.given_field(),
            FaultKindOf::WrongFieldType(
                pair.wanted_field(),
                wanted.as_borrowed(),
                given.as_borrowed(),
            ),
        )?;
    }
    Ok(())
}

// Whether a field of the first type may stand for one of the second.
fn is_field_type<S, C>(schema: &SchemaTypeOf<S, C>, given: &Type, wanted: &Type) -> bool
    ensures { result ≡ is_field_type schema.now (shape given.now) (shape wanted.now) }
{
    let are_names_below = may_stand_for(schema, given.innermost_name(), wanted.innermost_name());
    are_layers_below(given.modifiers(), wanted.modifiers(), are_names_below)
}

// Whether the names are one, or the first type is a member of the second or implements it.
fn may_stand_for<S, C>(schema: &SchemaTypeOf<S, C>, given: &str, wanted: &str) -> bool
    ensures { result ≡ may_stand_for schema.now given.now wanted.now }
{
    given == wanted
        || is_member_named(schema, given, wanted)
        || is_implementer_named(schema, given, wanted)
}

fn is_member_named<S, C>(schema: &SchemaTypeOf<S, C>, given: &str, wanted: &str) -> bool
    ensures { result ≡ is_member_named schema.now given.now wanted.now }
{
    match schema.concrete_type_by_name(wanted) {
        Some(meta) => is_text_among(union_members(meta), given),
        None => false,
    }
}

fn is_implementer_named<S, C>(schema: &SchemaTypeOf<S, C>, given: &str, wanted: &str) -> bool
    ensures { result ≡ is_implementer_named schema.now given.now wanted.now }
{
    match schema.concrete_type_by_name(given) {
        Some(meta) => is_text_among(interface_names(meta), wanted),
        None => false,
    }
}
