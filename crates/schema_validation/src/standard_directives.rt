//! The standard directives by name.
ghost use Rattle.std.specs.Prelude.{◌≡◌, IfErr, IfOk, map, true};
ghost use Rattle.indexmap.specs.IndexMap.{values};
ghost use Rattle.schema_validation.specs.Added.{directive_shape, standard_directives};
ghost use Rattle.schema_validation.specs.Directives.{directive_name};
ghost use Rattle.schema_validation.specs.Named.{are_keyed};

use crate::added::make_directives;
use crate::directives::DirectiveType;
use crate::error::SchemaError;
use crate::keyed::map_by_name;
use indexmap::IndexMap;
use std::alloc::Global;

/// The four directives of every schema, by name.
///
/// # Errors
///
/// Out of memory.
pub fn directives_by_name<S: Drop>(
    alloc: Global,
) -> Result<IndexMap<String, DirectiveType<S>>, SchemaError>
    ensures standard { IfOk result (λ m. map directive_shape (values m) ≡ standard_directives) }
    ensures keyed { IfOk result (λ m. are_keyed directive_name m.entries ≡ true) }
    ensures err { IfErr result (λ e. e ≡ SchemaError.OutOfMemory) }
{
    let directives = make_directives(alloc)?;
    map_by_name(alloc, directives)
}
