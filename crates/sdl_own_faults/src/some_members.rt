//! An object, an interface and an input object have a field, an enum a value and a union a member (GraphQL, October
//! 2021, sections 3.6 to 3.10).
ghost use Rattle.std.specs.Prelude.{◌≡◌, ◌++◌, OnOk};
ghost use Rattle.type_system_report.specs.Fault.{kind_value};
ghost use Rattle.sdl_own_faults.specs.Fault.{reported};
ghost use Rattle.sdl_own_faults.specs.SomeMembers.{add_none, adds_none, are_typenames, lacks_members, missing_kind};
ghost use Rattle.sdl_own_faults.specs.SomeMembers.{missing_members};
ghost use Rattle.sdl_own_faults.specs.Parts.{definitions_of};

use crate::fault::{OwnFault, report};
use crate::parts::{Part, extends};
use graphql_reader::type_system::{FieldDefinition, TypeBody, TypeDefinition};
use language_types::error::OutOfMemory;
use type_system_report::{CoordinateOf, FaultKind, FaultKindOf};

/// Reports a type that lists no member, and none of whose extensions does, where it needs one.
pub(crate) fn report_missing_members<'d, 't>(
    faults: &mut Vec<OwnFault<'d>>,
    defined: &'d TypeDefinition<'t>,
    extensions: &[Part<'d, 't>],
) -> Result<(), OutOfMemory>
    ensures { OnOk result (reported faults.new ≡ reported faults.old
        ++ missing_members defined.now (definitions_of extensions.now)) }
{
    if lacks_members(&defined.body) && add_none(defined, extensions) {
        let at = CoordinateOf::Type(defined.name.item);
        report(faults, &defined.name, at, missing_kind(&defined.body))?;
    }
    Ok(())
}

// Whether none of the extensions adds a member.
fn add_none(defined: &TypeDefinition<'_>, extensions: &[Part<'_, '_>]) -> bool
    ensures { result ≡ add_none defined.now (definitions_of extensions.now) }
{
    for extension in extensions {
        if !adds_none(defined, extension.definition) {
            return false;
        }
    }
    true
}

fn adds_none(defined: &TypeDefinition<'_>, extension: &TypeDefinition<'_>) -> bool
    ensures { result ≡ adds_none defined.now extension.now }
{
    !extends(extension, defined) || lacks_members(&extension.body)
}

// Whether a type of this kind lists members, and there is none.
fn lacks_members(body: &TypeBody<'_>) -> bool
    ensures { result ≡ lacks_members body.now }
{
    match body {
        TypeBody::Object(fields) => are_typenames(fields.as_slice()),
        TypeBody::Interface(fields) => are_typenames(fields.as_slice()),
        TypeBody::Union(names) => names.is_empty(),
        TypeBody::Enum(values) => values.is_empty(),
        TypeBody::InputObject(fields) => fields.is_empty(),
        TypeBody::Scalar => false,
    }
}

// Whether each is `__typename`, which every type has.
fn are_typenames(fields: &[FieldDefinition<'_>]) -> bool
    ensures { result ≡ are_typenames fields.now }
{
    for field in fields {
        if field.name.item != "__typename" {
            return false;
        }
    }
    true
}

fn missing_kind<'d>(body: &TypeBody<'_>) -> FaultKind<'d>
    ensures { kind_value result ≡ missing_kind body.now }
{
    match body {
        TypeBody::Union(_) => FaultKindOf::NoMembers,
        TypeBody::Enum(_) => FaultKindOf::NoValues,
        _ => FaultKindOf::NoFields,
    }
}
