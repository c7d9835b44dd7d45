//! The uses of variables in a document, each judged by the first definition of its variable in all operations of a
//! name. How a use is judged, the rule says.

ghost use Rattle.std.specs.Prelude.{◌≡◌, ℕ, List, Option, IfOk, OnErr, OnOk, map};
ghost use Rattle.walk.specs.Entering.{EachGives};
ghost use Rattle.walk.specs.Rule.{Appended};
ghost use Rattle.walk.specs.Step.{KeepsPlace};
ghost use Rattle.fragment_reach.specs.Reach.{operation};
ghost use Rattle.operation_scopes.specs.Index.{IsIndexOf, operation_names};
ghost use Rattle.operation_scopes.specs.Places.{places_of};
ghost use Rattle.operation_scopes.specs.Searches.{IsReady};
ghost use Rattle.rules_positions.specs.FirstVariables.{kept_first};
ghost use Rattle.rules_positions.specs.JudgedUses.{uses_in, values_in, DocumentGives, JudgedIfDefined, Judgement};
ghost use Rattle.rules_positions.specs.JudgedUses.{OperationsGive, UsesGive};

use crate::first_variables::{FirstVariables, VariableEntry};
use language::error::OutOfMemory;
use language::tree::Definition;
use meta::check::CheckedScalar;
use operation_scopes::index::{ScopeIndex, operation_places};
use operation_scopes::reach::{Search, found_places, new_search, reached_definitions};
use std::alloc::Global;
use walk::ValidatorContext;

/// How a rule judges uses of variables, each by the definition of its variable.
pub trait Judge<S: CheckedScalar, U> {
    // What a use says, which may be less than what it holds.
    ghost value_type: { Type 0 };

    ghost value: { U → value_type };

    // The variable that is used.
    ghost variable_of: { value_type → List ℕ };

    // What may be reported of a use.
    ghost judged: { Judgement S S.Check value_type };

    /// The name of the variable that is used.
    fn variable<'u>(found: &'u U) -> &'u str
        ensures { result.now ≡ variable_of (value found.now) };

    /// Reports a use of a variable, if the variable may not stand there.
    ///
    /// # Errors
    ///
    /// Out of memory. The types at hand stay; some of the errors may be reported then.
    fn judge<'a>(
        alloc: Global,
        ctx: &mut ValidatorContext<'a, S>,
        entry: &VariableEntry<'_, S>,
        found: &U,
    ) -> Result<(), OutOfMemory>
        ensures ok { IfOk result
            (λ _. Appended (judged ctx.old.schema.types entry.now (value found.now)) ctx.old ctx.new) }
        ensures err { OnErr result (KeepsPlace ctx.old ctx.new) };
}

// Reports a use, if its variable is defined.
fn report_use<'a, S: CheckedScalar, U, J: Judge<S, U>>(
    alloc: Global,
    ctx: &mut ValidatorContext<'a, S>,
    variables: &FirstVariables<'_, S>,
    found: &U,
) -> Result<(), OutOfMemory>
    ensures ok { IfOk result (λ _. Appended
        (JudgedIfDefined J.judged ctx.old.schema.types (kept_first variables.now (J.variable_of (J.value found.now)))
        (J.value found.now)) ctx.old ctx.new) }
    ensures err { OnErr result (KeepsPlace ctx.old ctx.new) }
{
    match variables.get(J::variable(found)) {
        Some(entry) => J::judge(alloc, ctx, entry, found),
        None => Ok(()),
    }
}

// Reports the uses in a definition.
fn report_uses<'a, S: CheckedScalar, U, J: Judge<S, U>>(
    alloc: Global,
    ctx: &mut ValidatorContext<'a, S>,
    variables: &FirstVariables<'_, S>,
    uses: &[U],
) -> Result<(), OutOfMemory>
    ensures ok { IfOk result (λ _. Appended
        (UsesGive J.variable_of J.judged ctx.old.schema.types (kept_first variables.now) (map J.value uses.now))
        ctx.old ctx.new) }
    ensures err { OnErr result (KeepsPlace ctx.old ctx.new) }
{
    for found in uses {
        report_use::<S, U, J>(alloc, ctx, variables, found)?;
    }
    Ok(())
}

// Reports the uses in the definition at a place.
fn report_place<'a, S: CheckedScalar, U, J: Judge<S, U>>(
    alloc: Global,
    ctx: &mut ValidatorContext<'a, S>,
    variables: &FirstVariables<'_, S>,
    uses: &[Vec<U>],
    place: usize,
) -> Result<(), OutOfMemory>
    ensures ok { IfOk result (λ _. Appended
        (UsesGive J.variable_of J.judged ctx.old.schema.types (kept_first variables.now)
        (uses_in (values_in J.value uses.now) place)) ctx.old ctx.new) }
    ensures err { OnErr result (KeepsPlace ctx.old ctx.new) }
{
    match uses.get(place) {
        Some(found) => report_uses::<S, U, J>(alloc, ctx, variables, found.as_slice()),
        None => Ok(()),
    }
}

// Reports the uses in the definitions at these places.
fn report_places<'a, S: CheckedScalar, U, J: Judge<S, U>>(
    alloc: Global,
    ctx: &mut ValidatorContext<'a, S>,
    variables: &FirstVariables<'_, S>,
    uses: &[Vec<U>],
    places: &[usize],
) -> Result<(), OutOfMemory>
    ensures ok { IfOk result (λ _. Appended
        (EachGives
        (λ place fs. UsesGive J.variable_of J.judged ctx.old.schema.types (kept_first variables.now)
        (uses_in (values_in J.value uses.now) place) fs) places.now) ctx.old ctx.new) }
    ensures err { OnErr result (KeepsPlace ctx.old ctx.new) }
{
    for place in places {
        report_place::<S, U, J>(alloc, ctx, variables, uses, *place)?;
    }
    Ok(())
}

// Reports the uses in what the operations of a name reach, by the places of all of these operations. If these define no
// variable, it does not look at what they reach.
fn report_operations<'a, S: CheckedScalar, U, J: Judge<S, U>>(
    alloc: Global,
    ctx: &mut ValidatorContext<'a, S>,
    document: &'a [Definition<'a, S>],
    index: &ScopeIndex<'_>,
    search: &mut Search,
    own: &[usize],
    uses: &[Vec<U>],
) -> Result<(), OutOfMemory>
    requires index { IsIndexOf document.now index.now }
    requires ready { IsReady index.now search.old }
    ensures ok { IfOk result (λ _. (name : Option (List ℕ)) → own.now ≡ places_of document.now (operation name)
        → Appended (OperationsGive J.variable_of J.judged ctx.old.schema.types document.now
        (values_in J.value uses.now) name) ctx.old ctx.new) }
    ensures ready { OnOk result (IsReady index.now search.new) }
    ensures err { OnErr result (KeepsPlace ctx.old ctx.new) }
{
    let variables = FirstVariables::at(alloc, document, own)?;
    if variables.is_empty() {
        return Ok(());
    }
    reached_definitions(document, index, search, own)?;
    report_places::<S, U, J>(alloc, ctx, &variables, uses, found_places(search))
}

// Reports the uses in what the operations of each name reach.
fn report_names<'a, S: CheckedScalar, U, J: Judge<S, U>>(
    alloc: Global,
    ctx: &mut ValidatorContext<'a, S>,
    document: &'a [Definition<'a, S>],
    index: &ScopeIndex<'_>,
    search: &mut Search,
    uses: &[Vec<U>],
) -> Result<(), OutOfMemory>
    requires index { IsIndexOf document.now index.now }
    requires ready { IsReady index.now search.old }
    ensures ok { IfOk result (λ _. Appended
        (EachGives
        (OperationsGive J.variable_of J.judged ctx.old.schema.types document.now (values_in J.value uses.now))
        (operation_names index.now)) ctx.old ctx.new) }
    ensures err { OnErr result (KeepsPlace ctx.old ctx.new) }
{
    for number in 0..index.names.len() {
        let own = operation_places(index, number);
        report_operations::<S, U, J>(alloc, ctx, document, index, search, own, uses)?;
    }
    Ok(())
}

/// Reports the uses in a document, definition by definition, where they are misplaced. `index` is that of the document.
///
/// # Errors
///
/// Out of memory. The types at hand stay; some of the errors may be reported then.
pub fn report_document<'a, S: CheckedScalar, U, J: Judge<S, U>>(
    alloc: Global,
    ctx: &mut ValidatorContext<'a, S>,
    document: &'a [Definition<'a, S>],
    index: &ScopeIndex<'_>,
    uses: &[Vec<U>],
) -> Result<(), OutOfMemory>
    requires { IsIndexOf document.now index.now }
    ensures ok { IfOk result (λ _. Appended
        (DocumentGives J.variable_of J.judged ctx.old.schema.types document.now (values_in J.value uses.now))
        ctx.old ctx.new) }
    ensures err { OnErr result (KeepsPlace ctx.old ctx.new) }
{
    let mut search = new_search(alloc, index)?;
    report_names::<S, U, J>(alloc, ctx, document, index, &mut search, uses)
}
