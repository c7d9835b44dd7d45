//! The faults of all default values.
ghost use Rattle.std.specs.Prelude.{◌≡◌, ◌++◌, ◌↔◌, [], List, IfOk, OnOk, map};
ghost use Rattle.std.specs.List.Sorted.{IsPermutation, IsSorted};
ghost use Rattle.language_values.specs.ValuesPrinted.{printed_value};
ghost use Rattle.schema.specs.Ordered.{directive_cmp};
ghost use Rattle.schema_validation.specs.declared.directives.DirectiveType.{DirectiveType};
ghost use Rattle.type_system_defaults.specs.Given.{all_defaults, given_value};
ghost use Rattle.type_system_defaults.specs.Faults.{AddsFaults, AreFaults, IsFaultOf, reported};
ghost use Rattle.type_system_defaults.specs.Conforming.{HasConformingDefaults};

use crate::fault::DefaultFault;
use crate::given::{GivenDefault, add_directives, add_types};
use language_types::error::OutOfMemory;
use literals::validate_written_value;
use meta::check::CheckedScalar;
use schema::model::SchemaType;
use std::alloc::Global;

/// The faults of the default values of a schema: first those of its types, in the order of the list that made the
/// schema, and of their members, and then those of its directives, in the order of their names.
///
/// There is none if and only if each default value conforms to its type.
///
/// # Errors
///
/// Out of memory, also in a check.
pub fn default_value_faults<'a, S: CheckedScalar>(
    alloc: Global,
    schema: &'a SchemaType<S>,
) -> Result<Vec<DefaultFault<'a>>, OutOfMemory>
    ensures faults { IfOk result (λ v. (ds : List (DirectiveType S)) × IsPermutation schema.now.directives ds
        × IsSorted directive_cmp ds × AreFaults schema.now S.may_answer (printed_value S.text S.str_of)
        (all_defaults schema.now ds) (reported v)) }
    ensures none { IfOk result (λ v. (reported v ≡ [])
        ↔ HasConformingDefaults schema.now S.may_answer (printed_value S.text S.str_of)) }
{
    let types = schema.concrete_type_list(alloc)?;
    let directives = schema.directive_list(alloc)?;
    let mut given = Vec::new(alloc);
    add_types(&mut given, types.as_slice())?;
    add_directives(&mut given, directives.as_slice())?;
    faults_of(alloc, schema, given.as_slice())
}

fn faults_of<'a, S: CheckedScalar>(
    alloc: Global,
    schema: &'a SchemaType<S>,
    given: &[GivenDefault<'a, S>],
) -> Result<Vec<DefaultFault<'a>>, OutOfMemory>
    ensures { IfOk result (λ v. AreFaults schema.now S.may_answer (printed_value S.text S.str_of)
        (map given_value given.now) (reported v)) }
{
    let mut faults = Vec::new(alloc);
    for default in given {
        report_default(&mut faults, alloc, schema, default)?;
    }
    Ok(faults)
}

fn report_default<'a, S: CheckedScalar>(
    faults: &mut Vec<DefaultFault<'a>>,
    alloc: Global,
    schema: &'a SchemaType<S>,
    given: &GivenDefault<'a, S>,
) -> Result<(), OutOfMemory>
    ensures { OnOk result (AddsFaults schema.now S.may_answer (printed_value S.text S.str_of) (given_value given.now)
        (reported faults.old) (reported faults.new)) }
{
    match validate_written_value(alloc, schema, given.expected, given.value)? {
        None => Ok(()),
        Some(reason) => {
            let coordinate = given.coordinate;
            faults.push(DefaultFault { coordinate, reason })?;
            Ok(())
        }
    }
}
