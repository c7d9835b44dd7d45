//! The directives that a document may use.
ghost use Rattle.std.specs.Prelude.{◌≡◌, ◌++◌, IfOk, OnOk, option_copied};
ghost use Rattle.std.specs.List.{flat_map};
ghost use Rattle.sdl_directives.specs.Known.{definitions_of, directive_named, directive_of, known_directives};

use graphql_reader::type_system::{DirectiveDefinition, TypeSystemDefinition};
use language::error::OutOfMemory;
use std::alloc::Global;

/// A directive that a document may use.
#[derive(Clone, Copy)]
pub struct Known<'d, 't> {
    pub definition: &'d DirectiveDefinition<'t>,
}

/// The directives that a document may use: those that it defines, and then those of `standard`.
///
/// # Errors
///
/// Out of memory.
pub fn known_directives<'d, 't>(
    alloc: Global,
    document: &'d [TypeSystemDefinition<'t>],
    standard: &'d [TypeSystemDefinition<'t>],
) -> Result<Vec<Known<'d, 't>>, OutOfMemory>
    ensures { IfOk result (λ v. definitions_of v.items ≡ known_directives document.now standard.now) }
{
    let mut known = Vec::new(alloc);
    add_directives(&mut known, document)?;
    add_directives(&mut known, standard)?;
    Ok(known)
}

fn add_directives<'d, 't>(
    known: &mut Vec<Known<'d, 't>>,
    document: &'d [TypeSystemDefinition<'t>],
) -> Result<(), OutOfMemory>
    ensures { OnOk result (definitions_of known.new.items ≡ definitions_of known.old.items
        ++ flat_map directive_of document.now) }
{
    for definition in document {
        add_directive(known, definition)?;
    }
    Ok(())
}

// Appends the directive of a definition, if it is one.
fn add_directive<'d, 't>(
    known: &mut Vec<Known<'d, 't>>,
    definition: &'d TypeSystemDefinition<'t>,
) -> Result<(), OutOfMemory>
    ensures { OnOk result (definitions_of known.new.items ≡ definitions_of known.old.items
        ++ directive_of definition.now) }
{
    match definition {
        TypeSystemDefinition::Directive(defined) => {
            known.push(Known {
                definition: &defined.item,
            })?;
            Ok(())
        }
        TypeSystemDefinition::Schema(_) => Ok(()),
        TypeSystemDefinition::Type(_) => Ok(()),
    }
}

/// The first of these directives that has this name.
pub fn directive_named<'d, 't>(
    known: &[Known<'d, 't>],
    name: &str,
) -> Option<&'d DirectiveDefinition<'t>>
    ensures { option_copied result ≡ directive_named (definitions_of known.now) name.now }
{
    for directive in known {
        if directive.definition.name.item == name {
            return Some(directive.definition);
        }
    }
    None
}
