//! The walk over a document.

ghost use Rattle.std.specs.Prelude.{◌≡◌, IfOk, OnOk, OnErr, IsErr, true};
ghost use Rattle.walk.specs.ContextState.{HasTypes, IsMadeFor, popped, typing};
ghost use Rattle.walk.specs.Rule.{Appended, AppendsAllowed, any_value, settled_by};
ghost use Rattle.events.specs.EventValue.{typed_event, typing_of};
ghost use Rattle.events.specs.Cursor.{events_left};
ghost use Rattle.events.specs.Outline.{each, outline_of_definition};
ghost use Rattle.walk.specs.Step.{KeepsPlace, Ran, Stepped, events_in};
ghost use Rattle.events.specs.TypedEvent.{events_of};

use crate::ValidatorContext;
use crate::multi_visitor::MultiVisitorCons;
use crate::rule::{Rule, SettledRule};
use crate::visitor::{Machine, Visitor};
use events::{Event, EventCursor, EventCursorOf, TypesOf};
use language::error::OutOfMemory;
use language::shorten::shorten;
use language::tree::Definition;
use meta::check::CheckedScalar;

// Calls a visitor at one event, at the current types.
fn tell_here<'a, S: CheckedScalar, V: Visitor<'a, S>>(
    v: &mut V,
    ctx: &mut ValidatorContext<'a, S>,
    event: &Event<'a, S>,
) -> Result<(), OutOfMemory>
    ensures stepped { IfOk result (λ _. Stepped V.step (typed_event event.now (typing ctx.old))
        v.old v.new ctx.old ctx.new) }
    ensures err { OnErr result (KeepsPlace ctx.old ctx.new) }
    ensures failed { OnErr result (ctx.new.failed ≡ true) }
{
    let done = v.on(ctx, event);
    if done.is_err() {
        ctx.fail();
    }
    done
}

// Calls a visitor at one event, at these types.
fn tell_one<'a, S: CheckedScalar, V: Visitor<'a, S>>(
    v: &mut V,
    ctx: &mut ValidatorContext<'a, S>,
    event: &Event<'a, S>,
    types: TypesOf<'a, S, S::Check>,
) -> Result<(), OutOfMemory>
    ensures stepped { IfOk result (λ _. Stepped V.step (typed_event event.now (typing_of types.entry))
        v.old v.new ctx.old ctx.new) }
    ensures err { OnErr result (KeepsPlace ctx.old ctx.new) }
    ensures failed { OnErr result (ctx.new.failed ≡ true) }
    ensures stays { ctx.old.failed ≡ true → IsErr result }
{
    ctx.push_types(types)?;
    let done = tell_here(v, ctx, event);
    ctx.pop_types();
    done
}

// Calls a visitor at the events that are left, each at types that replace the current ones.
fn tell_all<'a, S: CheckedScalar, V: Visitor<'a, S>>(
    v: &mut V,
    ctx: &mut ValidatorContext<'a, S>,
    cursor: &mut EventCursor<'a, S>,
) -> Result<(), OutOfMemory>
    requires typed { HasTypes ctx.old }
    ensures ran { IfOk result (λ _. Ran V.step (events_left cursor.old) v.old v.new (popped ctx.old) (popped ctx.new)) }
    ensures err { OnErr result (KeepsPlace (popped ctx.old) (popped ctx.new)) }
    ensures failed { OnErr result (ctx.new.failed ≡ true) }
{
    'events: loop {
        match ctx.next_event(cursor)? {
            Some(event) => tell_here(v, ctx, &event)?,
            None => return Ok(()),
        }
    }
}

// The same at types that are pushed for it, and popped again.
fn tell_pushed<'a, S: CheckedScalar, V: Visitor<'a, S>>(
    v: &mut V,
    ctx: &mut ValidatorContext<'a, S>,
    cursor: &mut EventCursor<'a, S>,
    types: TypesOf<'a, S, S::Check>,
) -> Result<(), OutOfMemory>
    ensures ran { IfOk result (λ _. Ran V.step (events_left cursor.old) v.old v.new ctx.old ctx.new) }
    ensures err { OnErr result (KeepsPlace ctx.old ctx.new) }
    ensures failed { OnErr result (ctx.new.failed ≡ true) }
{
    ctx.push_types(types)?;
    let done = tell_all(v, ctx, cursor);
    ctx.pop_types();
    done
}

// Calls a visitor at the events of definitions, which stand at these types.
fn visit_definitions<'a, S: CheckedScalar, V: Visitor<'a, S>>(
    v: &mut V,
    ctx: &mut ValidatorContext<'a, S>,
    definitions: &'a [Definition<'a, S>],
    types: TypesOf<'a, S, S::Check>,
) -> Result<(), OutOfMemory>
    ensures ran { IfOk result
        (λ _. Ran V.step
        (events_of (each (outline_of_definition ctx.old.schema (typing_of types.entry)) definitions.now)) v.old v.new
        ctx.old ctx.new) }
    ensures err { OnErr result (KeepsPlace ctx.old ctx.new) }
    ensures failed { OnErr result (ctx.new.failed ≡ true) }
{
    match EventCursorOf::over(ctx.allocator(), ctx.schema, definitions, types) {
        Ok(mut cursor) => tell_pushed(v, ctx, &mut cursor, types),
        Err(_) => {
            ctx.fail();
            Err(OutOfMemory)
        }
    }
}

/// Calls a visitor at all events of a document, in their order, each at the types of its node.
///
/// It allocates for the nodes around the current one.
///
/// # Errors
///
/// Out of memory, or an error of the visitor, where it stops. The context fails from then on.
pub fn walk_with<'a, S: CheckedScalar, V: Visitor<'a, S>>(
    v: &mut V,
    ctx: &mut ValidatorContext<'a, S>,
    document: &'a [Definition<'a, S>],
) -> Result<(), OutOfMemory>
    ensures ran { IfOk result (λ _. Ran V.step (events_in ctx.old document.now) v.old v.new ctx.old ctx.new) }
    ensures err { OnErr result (KeepsPlace ctx.old ctx.new) }
    ensures failed { OnErr result (ctx.new.failed ≡ true) }
    ensures stays { ctx.old.failed ≡ true → IsErr result }
{
    let types = ctx.types();
    tell_one(v, ctx, &Event::EnterDocument(document), types)?;
    visit_definitions(v, ctx, document, types)?;
    tell_one(v, ctx, &Event::ExitDocument(document), types)
}

/// Walks over a document with the visitors of the list, of which the newest is called first at each event.
///
/// `laws::rules_append` says which errors rules append in such a walk.
///
/// # Errors
///
/// Out of memory, or an error of a visitor, where it stops. The context fails from then on.
pub fn visit<'a, 't, A: Visitor<'a, S>, B: Visitor<'a, S>, S: CheckedScalar>(
    v: &mut MultiVisitorCons<A, B>,
    ctx: &mut ValidatorContext<'a, S>,
    document: &'a [Definition<'t, S>],
) -> Result<(), OutOfMemory>
    ensures ran { IfOk result
        (λ _. Ran ⟦<MultiVisitorCons<A, B> as Machine<S, S::Check>>⟧.step (events_in ctx.old document.now)
        v.old v.new ctx.old ctx.new) }
    ensures err { OnErr result (KeepsPlace ctx.old ctx.new) }
    ensures failed { OnErr result (ctx.new.failed ≡ true) }
    ensures stays { ctx.old.failed ≡ true → IsErr result }
{
    walk_with(v, ctx, shorten(document))
}

/// Walks over a document with fresh rules.
///
/// In a context that was made for this document the rules append what they are allowed to, in the states that they end
/// in. In any other they only append errors. In both they go through the document's events, each by its step.
///
/// # Errors
///
/// Out of memory. The context fails from then on.
pub fn visit_rules<'a, 't, S: CheckedScalar, R: Visitor<'a, S> + Rule<S, S::Check>>(
    rules: &mut R,
    ctx: &mut ValidatorContext<'a, S>,
    document: &'a [Definition<'t, S>],
) -> Result<(), OutOfMemory>
    requires fresh { R.fresh rules.old }
    ensures appended { OnOk result (IsMadeFor ctx.old document.now
        → AppendsAllowed (R.allows rules.new) document.now ctx.old ctx.new) }
    ensures ran { OnOk result (Ran R.step (events_in ctx.old document.now) rules.old rules.new ctx.old ctx.new) }
    ensures only { OnOk result (Appended any_value ctx.old ctx.new) }
    ensures err { OnErr result (KeepsPlace ctx.old ctx.new) }
    ensures failed { OnErr result (ctx.new.failed ≡ true) }
    ensures stays { ctx.old.failed ≡ true → IsErr result }
{
    walk_with(rules, ctx, shorten(document))
}

/// Walks over a document with fresh rules, as `visit_rules`. In a context that was made for this document they report
/// nothing if and only if each of them finds nothing.
///
/// # Errors
///
/// Out of memory. The context fails from then on.
pub fn visit_settled<'a, 't, S: CheckedScalar, R: Visitor<'a, S> + SettledRule<S, S::Check>>(
    rules: &mut R,
    ctx: &mut ValidatorContext<'a, S>,
    document: &'a [Definition<'t, S>],
) -> Result<(), OutOfMemory>
    requires fresh { R.fresh rules.old }
    ensures appended { OnOk result (IsMadeFor ctx.old document.now
        → AppendsAllowed (settled_by R.finds_nothing (R.allows rules.new)) document.now ctx.old ctx.new) }
    ensures ran { OnOk result (Ran R.step (events_in ctx.old document.now) rules.old rules.new ctx.old ctx.new) }
    ensures only { OnOk result (Appended any_value ctx.old ctx.new) }
    ensures err { OnErr result (KeepsPlace ctx.old ctx.new) }
    ensures failed { OnErr result (ctx.new.failed ≡ true) }
    ensures stays { ctx.old.failed ≡ true → IsErr result }
{
    visit_rules(rules, ctx, document)
}
