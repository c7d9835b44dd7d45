//! The index of a document, which the rules that look across it share.
ghost use Rattle.std.specs.Prelude.{IfOk};
ghost use Rattle.fragment_graph.specs.Numbers.{NumberedDefinitions};
ghost use Rattle.variable_usages.specs.DocumentIndex.{IsDocumentIndex};

use crate::uses::{VariableUse, all_uses};
use fragment_graph::numbers::NumberedNames;
use language::error::OutOfMemory;
use language::tree::Document;
use operation_scopes::index::{ScopeIndex, index_scopes};
use std::alloc::Global;

/// The scopes of a document, and the uses of variables in each of its definitions, in order.
#[derive(Drop)]
pub struct DocumentIndex<'a> {
    pub scopes: ScopeIndex<'a>,
    pub uses: Vec<Vec<VariableUse<'a>>>,
}

/// The index of a document, by the numbers of the names of its fragments.
///
/// # Errors
///
/// Out of memory.
pub fn index_document<'a, S>(
    alloc: Global,
    document: Document<'a, S>,
    names: NumberedNames<'a>,
) -> Result<DocumentIndex<'a>, OutOfMemory>
    requires { NumberedDefinitions document.now names.numbers names.defined.items }
    ensures { IfOk result (IsDocumentIndex document.now) }
{
    let scopes = index_scopes(alloc, document, names)?;
    let uses = all_uses(alloc, document)?;
    Ok(DocumentIndex { scopes, uses })
}
