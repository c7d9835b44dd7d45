//! The faults of all values of arguments of directives.
ghost use Rattle.std.specs.Prelude.{◌≡◌, ◌↔◌, [], IfOk, OnOk, map};
ghost use Rattle.language_values.specs.ValuesPrinted.{printed_value};
ghost use Rattle.sdl_scalars.specs.Checks.{MayAnswer};
ghost use Rattle.sdl_scalars.specs.SourceScalar.{source_str, source_text};
ghost use Rattle.sdl_directive_values.specs.Conforming.{HasConformingValues};
ghost use Rattle.sdl_directive_values.specs.Faults.{AddsFaults, AreFaults, reported};
ghost use Rattle.sdl_directive_values.specs.Given.{document_values, given_value};

use crate::fault::ValueFault;
use crate::given::{GivenValue, add_sites};
use graphql_reader::SourceScalar;
use graphql_reader::type_system::TypeSystemDefinition;
use language::error::OutOfMemory;
use literals::validate_written_value;
use schema::model::SchemaType;
use sdl_directives::known::known_directives;
use sdl_directives::sites::sites_of;
use std::alloc::Global;

/// The faults of the values that a document gives to arguments of directives, in the order of the text. The directives
/// are those that it defines, and those of `standard`; the types are those of the schema.
///
/// # Errors
///
/// Out of memory, also in a check.
pub fn directive_value_faults<'d, 't>(
    alloc: Global,
    document: &'d [TypeSystemDefinition<'t>],
    standard: &'d [TypeSystemDefinition<'t>],
    schema: &SchemaType<SourceScalar>,
) -> Result<Vec<ValueFault<'d>>, OutOfMemory>
    ensures all { IfOk result (λ v. AreFaults schema.now MayAnswer (printed_value source_text source_str)
        (document_values document.now standard.now) (reported v.items)) }
    ensures none { IfOk result (λ v. (v.items ≡ [])
        ↔ HasConformingValues schema.now MayAnswer (printed_value source_text source_str) document.now standard.now) }
{
    let known = known_directives(alloc, document, standard)?;
    let sites = sites_of(alloc, document)?;
    let mut given = Vec::new(alloc);
    add_sites(&mut given, known.as_slice(), sites.as_slice())?;
    let faults = faults_of(alloc, schema, given.as_slice())?;
    Ok(faults)
}

fn faults_of<'d>(
    alloc: Global,
    schema: &SchemaType<SourceScalar>,
    given: &[GivenValue<'d>],
) -> Result<Vec<ValueFault<'d>>, OutOfMemory>
    ensures { IfOk result (λ v. AreFaults schema.now MayAnswer (printed_value source_text source_str)
        (map given_value given.now) (reported v.items)) }
{
    let mut faults = Vec::new(alloc);
    for value in given {
        report_value(&mut faults, alloc, schema, value)?;
    }
    Ok(faults)
}

fn report_value<'d>(
    faults: &mut Vec<ValueFault<'d>>,
    alloc: Global,
    schema: &SchemaType<SourceScalar>,
    given: &GivenValue<'d>,
) -> Result<(), OutOfMemory>
    ensures { OnOk result (AddsFaults schema.now MayAnswer (printed_value source_text source_str)
        (given_value given.now) (reported faults.old.items) (reported faults.new.items)) }
{
    match validate_written_value(alloc, schema, given.expected, given.value)? {
        None => Ok(()),
        Some(reason) => {
            let name = given.name;
            let position = given.position;
            faults.push(ValueFault {
                name,
                position,
                reason,
            })?;
            Ok(())
        }
    }
}
