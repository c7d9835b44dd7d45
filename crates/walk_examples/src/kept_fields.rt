//! The smallest rule that keeps nodes of a document, and a caller that owns the document and frees it after the walk.

ghost use Rattle.std.specs.Prelude.{◌≡◌, [], IfOk, length};
ghost use Rattle.walk.specs.ContextState.{IsMadeFor, typing, scope_of};
ghost use Rattle.walk.specs.Entering.{keeping_step, kept_to, nothing_on_the_way};
ghost use Rattle.walk.proofs.Entering.{keeping_keeps_to};
ghost use Rattle.walk_examples.specs.KeptFields.{field_count, fields_kept, fields_of, next_fields};

use language::error::OutOfMemory;
use language::position::Spanning;
use language::tree::{Definition, Field};
use meta::check::CheckedScalar;
use schema::model::SchemaType;
use std::alloc::Global;
use walk::{Event, Fresh, Machine, MultiVisitorNil, Rule, ValidatorContext, Visitor, visit_rules};

/// Keeps the fields that it is called at, and reports nothing.
#[derive(Drop)]
pub struct KeptFields<'a, S> {
    fields: Vec<&'a Spanning<Field<'a, S>>>,
}

/// The rule, made ready for one document.
pub fn factory<'a, S>(alloc: Global) -> KeptFields<'a, S>
    ensures { ⟦<KeptFields<'a, S> as Fresh>⟧.fresh result }
{
    KeptFields {
        fields: Vec::new(alloc),
    }
}

impl<'a, S> Fresh for KeptFields<'a, S> {
    ghost fresh = { λ a. fields_kept a ≡ [] };
}

impl<'a, S, C> Machine<S, C> for KeptFields<'a, S> {
    ghost step = { keeping_step fields_kept next_fields nothing_on_the_way };
}

impl<'a, S, C> Rule<S, C> for KeptFields<'a, S> {
    ghost allows = { kept_to fields_kept next_fields nothing_on_the_way [] };

    ghost keeps = { keeping_keeps_to fields_kept next_fields nothing_on_the_way [] };
}

impl<'a, S: CheckedScalar> Visitor<'a, S> for KeptFields<'a, S> {
    fn on(
        &mut self,
        ctx: &mut ValidatorContext<'a, S>,
        event: &Event<'a, S>,
    ) -> Result<(), OutOfMemory> {
        if let Event::EnterField(field) = event {
            self.fields.push(*field)?;
        }
        Ok(())
    }
}

/// How many fields a document has, by a walk that keeps them.
///
/// # Errors
///
/// Out of memory. The context fails from then on.
pub fn count_fields<'a, S: CheckedScalar>(
    ctx: &mut ValidatorContext<'a, S>,
    document: &'a [Definition<'_, S>],
) -> Result<usize, OutOfMemory>
    ensures { IfOk result (λ count. IsMadeFor ctx.old document.now
        → count ≡ length (fields_of (scope_of ctx.old.schema document.now) (typing ctx.old) document.now)) }
{
    let alloc = ctx.allocator();
    let mut rules = MultiVisitorNil.with_rule(factory(alloc));
    visit_rules(&mut rules, ctx, document)?;
    Ok(rules.newest().fields.len())
}

// The same in a context of its own.
fn count_lent<'a, S: CheckedScalar>(
    alloc: Global,
    schema: &'a SchemaType<S>,
    document: &'a [Definition<'_, S>],
) -> Result<usize, OutOfMemory>
    ensures { IfOk result (λ count. count ≡ field_count schema.now document.now) }
{
    let mut ctx = ValidatorContext::new(alloc, schema, document)?;
    count_fields(&mut ctx, document)
}

/// How many fields a document has that the caller owns. The document is freed after the walk.
///
/// # Errors
///
/// Out of memory. The document is freed.
pub fn count_and_free<S: CheckedScalar>(
    alloc: Global,
    schema: &SchemaType<S>,
    document: Vec<Definition<'_, S>>,
) -> Result<usize, OutOfMemory>
    ensures { IfOk result (λ count. count ≡ field_count schema.now document.entry.items) }
{
    let count = count_lent(alloc, schema, document.as_slice())?;
    drop(document);
    Ok(count)
}
