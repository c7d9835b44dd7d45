//! Names of directives and of types.
ghost use Rattle.std.specs.Prelude.{◌≡◌, option_map};
ghost use Rattle.sdl_directive_circles.specs.Uses.{defined_name, name_value};

use graphql_reader::type_system::TypeSystemDefinition;

/// The name of a directive or of a type.
#[derive(Clone, Copy)]
pub(crate) enum NameOf<N> {
    Directive(N),
    Type(N),
}

/// A name, by what the document has.
pub(crate) type Name<'d> = NameOf<&'d str>;

/// The name that is defined or extended; a schema has none.
pub(crate) fn defined_name<'d, 't>(definition: &'d TypeSystemDefinition<'t>) -> Option<Name<'d>>
    ensures { option_map name_value result ≡ defined_name definition.now }
{
    match definition {
        TypeSystemDefinition::Schema(_) => None,
        TypeSystemDefinition::Type(defined) => Some(NameOf::Type(defined.item.name.item)),
        TypeSystemDefinition::Directive(defined) => {
            Some(NameOf::Directive(defined.item.name.item))
        }
    }
}
