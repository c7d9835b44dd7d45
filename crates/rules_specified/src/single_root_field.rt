//! A subscription selects exactly one field at its root (GraphQL, October 2021, section 5.2.3.1).

ghost use Rattle.std.specs.Prelude.{◌≡◌, ◌++◌, ◌∷◌, [], ℕ, List, Some, IfOk, OnOk, OnErr, codes, option_map};
ghost use Rattle.std.specs.Prelude.{string_bytes};
ghost use Rattle.std.specs.List.{filter, list_any};
ghost use Rattle.language_types.specs.References.{list_copied};
ghost use Rattle.language_types.specs.Position.{Placed};
ghost use Rattle.language.specs.declared.tree.Field.{Field};
ghost use Rattle.walk.specs.ContextState.{with_errors};
ghost use Rattle.walk.specs.ErrorValue.{ErrorValue};
ghost use Rattle.walk.specs.Rule.{any_value};
ghost use Rattle.walk.specs.Step.{KeepsPlace};
ghost use Rattle.rules_document.specs.AtDocument.{document_step, given_at_end};
ghost use Rattle.rules_document.specs.AtDocumentLaws.{document_keeps};
ghost use Rattle.rules_specified.specs.Collecting.{CollectsAt, IsRoot};
ghost use Rattle.rules_specified.specs.FoundAtRoot.{IsFound};
ghost use Rattle.rules_specified.specs.SingleRootField.{at_places, has_other_name, introspections, is_subscription};
ghost use Rattle.rules_specified.specs.SingleRootField.{message, places, response_name, root_errors, root_name};
ghost use Rattle.rules_specified.specs.SingleRootField.{single_root_errors, SelectOne, Tells, TellsEach};
ghost use Rattle.rules_specified.specs.SingleRootFieldLaws.{single_root_silent};

use crate::collected::{Root, collected, root_of};
use language::error::OutOfMemory;
use language::position::{SourcePosition, Spanning};
use language::scalar::ScalarValue;
use language::tree::{Definition, Field, Operation, OperationType, Selection};
use meta::check::CheckedScalar;
use schema::model::SchemaTypeOf;
use std::alloc::{AllocError, Global};
use walk::{Criterion, Event, Fresh, Machine, Rule, SettledRule, ValidatorContext, Visitor};

/// Reports each subscription that selects no field at its root, fields of several response names, or fields of
/// introspection. Fragments are opened where their type condition applies to the root. What `@skip` or `@include`
/// leaves out without values of variables does not count.
#[derive(Drop)]
pub struct SingleRootField {
    alloc: Global,
}

// What is to be said of the fields at a root: whether there are none, the places of those with another response name
// than the first, and the places of those of introspection.
#[derive(Drop)]
pub(crate) struct FoundAtRoot {
    is_empty: bool,
    others: Vec<SourcePosition>,
    introspections: Vec<SourcePosition>,
}

/// Makes the rule, for one document.
pub fn factory(alloc: Global) -> SingleRootField
    ensures { ⟦<SingleRootField as Fresh>⟧.fresh result }
{
    SingleRootField { alloc }
}

impl Fresh for SingleRootField {
    ghost fresh = { any_value };
}

impl<S: CheckedScalar> Machine<S, S::Check> for SingleRootField {
    ghost step = { document_step (single_root_errors S.bool_of) };
}

impl<S: CheckedScalar> Rule<S, S::Check> for SingleRootField {
    ghost allows = { given_at_end (single_root_errors S.bool_of) };

    ghost keeps = { document_keeps (single_root_errors S.bool_of) };
}

impl<S: CheckedScalar> Criterion<S, S::Check> for SingleRootField {
    ghost finds_nothing = { λ scope t doc. SelectOne S.bool_of scope doc };
}

impl<S: CheckedScalar> SettledRule<S, S::Check> for SingleRootField {
    ghost silent = { single_root_silent S.bool_of };
}

impl<'a, S: CheckedScalar> Visitor<'a, S> for SingleRootField {
    fn on(
        &mut self,
        ctx: &mut ValidatorContext<'a, S>,
        event: &Event<'a, S>,
    ) -> Result<(), OutOfMemory> {
        match *event {
            Event::ExitDocument(document) => report_all(self.alloc, ctx, document),
            _ => Ok(()),
        }
    }
}

// The name of the root of subscriptions.
fn root_name<S, C>(schema: &SchemaTypeOf<S, C>) -> Option<&str>
    ensures { option_map (λ name. name.now) result ≡ root_name schema.now }
{
    match schema.concrete_subscription_type() {
        Some(meta) => meta.name(),
        None => None,
    }
}

fn is_subscription<S>(definition: &Definition<'_, S>) -> bool
    ensures { result ≡ is_subscription definition.now }
{
    match definition {
        Definition::Operation(operation) => {
            operation.item.operation_type == OperationType::Subscription
        }
        Definition::Fragment(_) => false,
    }
}

fn has_subscription<S>(document: &[Definition<'_, S>]) -> bool
    ensures { result ≡ list_any is_subscription document.now }
{
    document
        .iter()
        .any(|definition| is_subscription(definition))
}

// Reports the subscriptions of a document.
fn report_all<'a, S: CheckedScalar>(
    alloc: Global,
    ctx: &mut ValidatorContext<'a, S>,
    document: &'a [Definition<'a, S>],
) -> Result<(), OutOfMemory>
    ensures ok { OnOk result ((es : List ErrorValue)
        × TellsEach S.bool_of ctx.old.schema document.now document.now es
        × (ctx.new ≡ with_errors ctx.old es)) }
    ensures err { OnErr result (KeepsPlace ctx.old ctx.new) }
{
    let Some(name) = root_name(ctx.schema) else {
        return Ok(());
    };
    if !has_subscription(document) {
        return Ok(());
    }
    let names = ctx.numbered_names(document)?;
    let root = root_of(alloc, ctx.schema, name, document, names)?;
    report_each(alloc, ctx, &root, document)
}

// Reports the subscriptions among these definitions.
fn report_each<'a, S: CheckedScalar>(
    alloc: Global,
    ctx: &mut ValidatorContext<'a, S>,
    root: &Root<'a, S, S::Check>,
    definitions: &'a [Definition<'a, S>],
) -> Result<(), OutOfMemory>
    requires root { IsRoot root.now }
    requires schema { root.now.schema.now ≡ ctx.old.schema }
    requires name { root_name ctx.old.schema ≡ Some root.now.name.now }
    ensures ok { OnOk result ((es : List ErrorValue)
        × TellsEach S.bool_of ctx.old.schema root.now.document.now definitions.now es
        × (ctx.new ≡ with_errors ctx.old es)) }
    ensures err { OnErr result (KeepsPlace ctx.old ctx.new) }
{
    for definition in definitions {
        report_definition(alloc, ctx, root, definition)?;
    }
    Ok(())
}

// Reports a definition, if it is a subscription.
fn report_definition<'a, S: CheckedScalar>(
    alloc: Global,
    ctx: &mut ValidatorContext<'a, S>,
    root: &Root<'a, S, S::Check>,
    definition: &'a Definition<'a, S>,
) -> Result<(), OutOfMemory>
    requires root { IsRoot root.now }
    requires schema { root.now.schema.now ≡ ctx.old.schema }
    requires name { root_name ctx.old.schema ≡ Some root.now.name.now }
    ensures ok { OnOk result ((es : List ErrorValue)
        × Tells S.bool_of ctx.old.schema root.now.document.now definition.now es
        × (ctx.new ≡ with_errors ctx.old es)) }
    ensures err { OnErr result (KeepsPlace ctx.old ctx.new) }
{
    match definition {
        Definition::Operation(operation) => match operation.item.operation_type {
            OperationType::Subscription => {
                let set = operation.item.selection_set.as_slice();
                let found = found_at_root(alloc, root, set)?;
                report_found(alloc, ctx, operation, &found)
            }
            OperationType::Query | OperationType::Mutation => Ok(()),
        },
        Definition::Fragment(_) => Ok(()),
    }
}

// What is collected from a set at a root.
fn found_at_root<'a, S: ScalarValue, C>(
    alloc: Global,
    root: &Root<'a, S, C>,
    set: &'a [Selection<'a, S>],
) -> Result<FoundAtRoot, OutOfMemory>
    requires { IsRoot root.now }
    ensures { IfOk result (λ found. (fs : List (Placed (Field S))) × (after : List (List ℕ))
        × CollectsAt S.bool_of root.now [] set.now fs after × IsFound fs found) }
{
    let fields = collected(alloc, root, set)?;
    let mut found = FoundAtRoot {
        is_empty: true,
        others: Vec::new(alloc),
        introspections: Vec::new(alloc),
    };
    let Some(first) = fields.first() else {
        return Ok(found);
    };
    found.is_empty = false;
    let name = response_name(&first.field.item);
    for collected in &fields {
        note(&mut found, name, collected.field)?;
    }
    Ok(found)
}

// Notes a field, if its response name is another than that of the first or it is one of introspection.
fn note<S>(
    found: &mut FoundAtRoot,
    first: &str,
    field: &Spanning<Field<'_, S>>,
) -> Result<(), AllocError>
    ensures empty { OnOk result (found.new.is_empty ≡ found.old.is_empty) }
    ensures others { OnOk result (found.new.others.items
        ≡ found.old.others.items ++ places (filter (has_other_name first.now) (field.now ∷ []))) }
    ensures introspections { OnOk result (found.new.introspections.items
        ≡ found.old.introspections.items ++ places (introspections (field.now ∷ []))) }
{
    if response_name(&field.item) != first {
        found.others.push(field.span.start)?;
    }
    if field.item.name.item.starts_with("__") {
        found.introspections.push(field.span.start)?;
    }
    Ok(())
}

// Reports a subscription by what is found at its root.
fn report_found<'a, S: CheckedScalar>(
    alloc: Global,
    ctx: &mut ValidatorContext<'a, S>,
    operation: &Spanning<Operation<'_, S>>,
    found: &FoundAtRoot,
) -> Result<(), OutOfMemory>
    ensures ok { OnOk result ((fs : List (Placed (Field S))) → IsFound fs found.now
        → ctx.new ≡ with_errors ctx.old (root_errors operation.now fs)) }
    ensures err { OnErr result (KeepsPlace ctx.old ctx.new) }
{
    if found.is_empty {
        let place = operation.span.start;
        return report(
            alloc,
            ctx,
            " must select a top level field",
            operation,
            &[place],
        );
    }
    let text = " must select only one top level field";
    report(alloc, ctx, text, operation, found.others.as_slice())?;
    let text = " must not select an introspection top level field";
    report(alloc, ctx, text, operation, found.introspections.as_slice())
}

// Reports a subscription at these places, if there are any.
fn report<'a, S: CheckedScalar>(
    alloc: Global,
    ctx: &mut ValidatorContext<'a, S>,
    text: &str,
    operation: &Spanning<Operation<'_, S>>,
    places: &[SourcePosition],
) -> Result<(), OutOfMemory>
    ensures ok { OnOk result (ctx.new
        ≡ with_errors ctx.old (at_places (message text.now operation.now.item.name) places.now)) }
    ensures err { OnErr result (KeepsPlace ctx.old ctx.new) }
{
    if places.is_empty() {
        return Ok(());
    }
    let message = error_message(alloc, text, &operation.item.name)?;
    ctx.report_error(message.as_str(), places)
}

fn named_message(alloc: Global, name: &str, text: &str) -> Result<String, AllocError>
    ensures { IfOk result (λ s. string_bytes s
        ≡ codes "Subscription \"" ++ (name.now ++ (codes "\"" ++ text.now))) }
{
    format!(in alloc; "Subscription \"{name}\"{text}")
}

fn error_message(
    alloc: Global,
    text: &str,
    name: &Option<Spanning<&str>>,
) -> Result<String, AllocError>
    ensures { IfOk result (λ s. string_bytes s ≡ message text.now name.now) }
{
    match name {
        Some(name) => named_message(alloc, name.item, text),
        None => format!(in alloc; "Anonymous Subscription{text}"),
    }
}

// The alias of a field, or its name.
fn response_name<'d, S>(field: &'d Field<'_, S>) -> &'d str
    ensures { result.now ≡ response_name field.now }
{
    match &field.alias {
        Some(alias) => alias.item,
        None => field.name.item,
    }
}
