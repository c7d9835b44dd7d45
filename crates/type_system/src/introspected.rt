//! Names that introspection reserves (GraphQL, October 2021, sections 3.3 and 4.1).
ghost use Rattle.std.specs.Prelude.{◌≡◌};
ghost use Rattle.type_system.specs.Introspected.{is_introspection_field, is_introspection_type, is_query_root};
ghost use Rattle.type_system.specs.Introspected.{is_reserved};

use crate::root_types::query_name;
use schema::model::SchemaTypeOf;

/// Whether the name begins with `__`.
pub(crate) fn is_reserved(name: &str) -> bool
    ensures { result ≡ is_reserved name.now }
{
    name.starts_with("__")
}

/// Whether the name is that of a type of introspection.
pub(crate) fn is_introspection_type(name: &str) -> bool
    ensures { result ≡ is_introspection_type name.now }
{
    name == "__Schema"
        || name == "__Type"
        || name == "__Field"
        || name == "__InputValue"
        || name == "__EnumValue"
        || name == "__TypeKind"
        || name == "__Directive"
        || name == "__DirectiveLocation"
}

/// Whether the field is one of introspection: `__typename` of any type, `__schema` and `__type` of the
/// query root.
pub(crate) fn is_introspection_field<S, C>(
    schema: &SchemaTypeOf<S, C>,
    type_name: &str,
    field: &str,
) -> bool
    ensures { result ≡ is_introspection_field schema.now type_name.now field.now }
{
    field == "__typename"
        || is_query_root(schema, type_name) && (field == "__schema" || field == "__type")
}

fn is_query_root<S, C>(schema: &SchemaTypeOf<S, C>, name: &str) -> bool
    ensures { result ≡ is_query_root schema.now name.now }
{
    query_name(schema) == name
}
