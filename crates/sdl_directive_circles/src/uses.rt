//! What a definition refers to, by names.
ghost use Rattle.std.specs.Prelude.{◌≡◌, ◌++◌, IfOk, OnOk};
ghost use Rattle.std.specs.List.{flat_map};
ghost use Rattle.sdl_directives.specs.Sites.{site_value};
ghost use Rattle.sdl_directive_circles.specs.Uses.{directive_used, directives_used, input_values, name_values};
ghost use Rattle.sdl_directive_circles.specs.Uses.{type_used, uses_of};

use crate::names::{Name, NameOf};
use graphql_reader::SourceScalar;
use graphql_reader::type_system::{InputValueDefinition, TypeBody, TypeSystemDefinition};
use language::error::OutOfMemory;
use language::position::Spanning;
use language::tree::Directive;
use sdl_directives::sites::{Site, sites_of};
use std::alloc::Global;
use std::slice;

/// The names to which a definition or an extension refers.
///
/// # Errors
///
/// Out of memory.
pub(crate) fn uses_of<'d, 't>(
    alloc: Global,
    definition: &'d TypeSystemDefinition<'t>,
) -> Result<Vec<Name<'d>>, OutOfMemory>
    ensures { IfOk result (λ v. name_values v.items ≡ uses_of definition.now) }
{
    let sites = sites_of(alloc, slice::from_ref(definition))?;
    let mut uses = Vec::new(alloc);
    add_sites(&mut uses, sites.as_slice())?;
    add_types(&mut uses, input_values(definition))?;
    Ok(uses)
}

fn add_sites<'d, 't>(uses: &mut Vec<Name<'d>>, sites: &[Site<'d, 't>]) -> Result<(), OutOfMemory>
    ensures { OnOk result (name_values uses.new.items ≡ name_values uses.old.items
        ++ flat_map (λ s. directives_used (site_value s)) sites.now) }
{
    for site in sites {
        add_directives(uses, site.directives)?;
    }
    Ok(())
}

fn add_directives<'d, 't>(
    uses: &mut Vec<Name<'d>>,
    directives: &'d [Spanning<Directive<'t, SourceScalar>>],
) -> Result<(), OutOfMemory>
    ensures { OnOk result (name_values uses.new.items ≡ name_values uses.old.items
        ++ flat_map directive_used directives.now) }
{
    for directive in directives {
        uses.push(NameOf::Directive(directive.item.name.item))?;
    }
    Ok(())
}

// The arguments of a directive, or the fields of an input object.
fn input_values<'d, 't>(definition: &'d TypeSystemDefinition<'t>) -> &'d [InputValueDefinition<'t>]
    ensures { result.now ≡ input_values definition.now }
{
    match definition {
        TypeSystemDefinition::Directive(defined) => defined.item.arguments.as_slice(),
        TypeSystemDefinition::Type(defined) => match &defined.item.body {
            TypeBody::InputObject(fields) => fields.as_slice(),
            _ => &[],
        },
        TypeSystemDefinition::Schema(_) => &[],
    }
}

fn add_types<'d, 't>(
    uses: &mut Vec<Name<'d>>,
    values: &'d [InputValueDefinition<'t>],
) -> Result<(), OutOfMemory>
    ensures { OnOk result (name_values uses.new.items ≡ name_values uses.old.items
        ++ flat_map type_used values.now) }
{
    for value in values {
        uses.push(NameOf::Type(value.value_type.item.innermost_name()))?;
    }
    Ok(())
}
