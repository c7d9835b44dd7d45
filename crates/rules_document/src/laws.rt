//! Laws of the rules, and of what they use.

ghost use Rattle.rules_document.specs.NoFragmentCycles.{CyclesAreTold};
ghost use Rattle.rules_document.specs.NoUnusedFragments.{UnusedAreTold};
ghost use Rattle.rules_document.specs.ScopeOrder.{AreOrdered};

use operation_scopes::scope::Scope;

/// Of the lists of errors that `NoFragmentCycles` may report of a document, each is empty if and only if no fragment
/// leads back to itself.
pub fn cycles_are_told<S>()
    ensures { CyclesAreTold S }
{}

/// Of the lists of errors that `NoUnusedFragments` may report of a document, each is empty if and only if an operation
/// reaches every fragment.
pub fn unused_are_told<S>()
    ensures { UnusedAreTold S }
{}

/// The order of scopes is total, and two scopes compare as equal if and only if they have the same kind and the same
/// name.
pub fn scopes_are_ordered<'a>()
    ensures { AreOrdered ⟦<Scope<'a> as Ord>⟧.cmp }
{}
