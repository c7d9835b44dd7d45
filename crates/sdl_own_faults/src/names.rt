//! The names of the types that a type lists: of the members of a union, or of interfaces.
ghost use Rattle.std.specs.Prelude.{◌≡◌, ◌++◌, IfOk, OnOk};
ghost use Rattle.std.specs.List.{flat_map};
ghost use Rattle.language_types.specs.Names.{is_among};
ghost use Rattle.language_types.specs.References.{list_copied};
ghost use Rattle.sdl_own_faults.specs.Names.{listed_names, names_in, written_names};
ghost use Rattle.sdl_own_faults.specs.Parts.{definitions_of};

use crate::parts::{Part, extends, listed_by};
use graphql_reader::type_system::TypeDefinition;
use language_types::error::OutOfMemory;
use language_types::position::Spanning;
use std::alloc::Global;

/// The names of the types that a type lists in its definition, and then in those of these extensions that extend it.
///
/// # Errors
///
/// Out of memory.
pub(crate) fn listed_names<'d, 't>(
    alloc: Global,
    defined: &'d TypeDefinition<'t>,
    listing: &[Part<'d, 't>],
) -> Result<Vec<&'d str>, OutOfMemory>
    ensures { IfOk result (λ v. list_copied v.items ≡ listed_names defined.now (definitions_of listing.now)) }
{
    let mut names = Vec::new(alloc);
    add_names(&mut names, listed_by(defined))?;
    add_extending(&mut names, defined, listing)?;
    Ok(names)
}

fn add_extending<'d, 't>(
    names: &mut Vec<&'d str>,
    defined: &TypeDefinition<'t>,
    listing: &[Part<'d, 't>],
) -> Result<(), OutOfMemory>
    ensures { OnOk result (list_copied names.new.items ≡ list_copied names.old.items
        ++ flat_map (names_in defined.now) (definitions_of listing.now)) }
{
    for extension in listing {
        add_extended(names, defined, extension.definition)?;
    }
    Ok(())
}

fn add_extended<'d, 't>(
    names: &mut Vec<&'d str>,
    defined: &TypeDefinition<'t>,
    extension: &'d TypeDefinition<'t>,
) -> Result<(), OutOfMemory>
    ensures { OnOk result (list_copied names.new.items ≡ list_copied names.old.items
        ++ names_in defined.now extension.now) }
{
    if extends(extension, defined) {
        add_names(names, listed_by(extension))?;
    }
    Ok(())
}

fn add_names<'d, 't>(
    names: &mut Vec<&'d str>,
    written: &'d [Spanning<&'t str>],
) -> Result<(), OutOfMemory>
    ensures { OnOk result (list_copied names.new.items ≡ list_copied names.old.items
        ++ written_names written.now) }
{
    for name in written {
        names.push(name.item)?;
    }
    Ok(())
}

/// Whether the name is one of these.
pub(crate) fn is_name_among(names: &[&str], name: &str) -> bool
    ensures { result ≡ is_among (list_copied names.now) name.now }
{
    for listed in names {
        if *listed == name {
            return true;
        }
    }
    false
}
