//! Two fields of one response name in one selection set, with its spreads written out, can be merged (GraphQL, October
//! 2021, section 5.3.2).

ghost use Rattle.std.specs.Prelude.{◌≡◌, ◌∷◌, [], List, IfOk, OnErr, OnOk, map};
ghost use Rattle.walk.specs.ContextState.{with_errors};
ghost use Rattle.walk.specs.ErrorValue.{ErrorValue};
ghost use Rattle.walk.specs.Rule.{any_value};
ghost use Rattle.walk.specs.Step.{KeepsPlace};
ghost use Rattle.rules_document.specs.AtDocument.{document_step, given_at_end};
ghost use Rattle.rules_document.specs.AtDocumentLaws.{document_keeps};
ghost use Rattle.fragment_graph.specs.DocumentCycles.{SearchedDocument};
ghost use Rattle.merge_field_pairs.specs.Entries.{PlainEntry, plain};
ghost use Rattle.merge_sets.specs.declared.node.Entry.{Entry};
ghost use Rattle.merge_conflicts.specs.Reports.{Reports, postfix, AreReportsOf};
ghost use Rattle.merge_conflicts.specs.Telling.{IsToldOf};
ghost use Rattle.merge_conflicts.specs.Texts.{Told, error_of, errors_of};
ghost use Rattle.rules_merge.specs.OverlappingFieldsCanBeMerged.{ErrorsWithin, IsToldOfSearch, MergeErrors};
ghost use Rattle.rules_merge.specs.OverlappingFieldsCanBeMerged.{error_value, merge_errors, stop_error};

use fragment_graph::cycles::{DocumentCycles, search_document};
use language::error::OutOfMemory;
use language::scalar::ScalarValue;
use language::tree::Definition;
use merge_conflicts::conflict::conflict_of;
use merge_conflicts::parts::{Part, parts_of};
use merge_document::search::{FoundConflicts, search_fields};
use meta::check::CheckedScalar;
use std::alloc::Global;
use walk::{Event, Fresh, Machine, Rule, ValidatorContext, Visitor};

/// Reports, where the document is left, fields of one response name that can't be merged. The error of a conflict has
/// all its places.
///
/// No fragment is written out: with `n` definitions of fragments at most `n (n - 1)` pairs are compared.
///
/// Let the document have `s` selections, at any depth, and `m` definitions of any kind. Let `d` be the sum of the
/// depths of its selections; those of a definition are at depth 1. Where the type conditions of inline fragments are
/// known:
///
/// - at most `48 s d + 64 d + 500,000` pairs of fields are compared, what is asked and looked at to pass many at once
///   counted with them;
/// - each fragment is opened at most `8 s + 4 m + 100` times;
/// - at most `s (8 s + 4 m + 100)` spreads of opened fragments are looked at.
#[derive(Drop)]
pub struct OverlappingFieldsCanBeMerged {
    alloc: Global,
    compared: u128,
    opened: u128,
    looked: u128,
    lists: u128,
    judged: u128,
}

/// The rule, made ready for one document.
pub fn factory(alloc: Global) -> OverlappingFieldsCanBeMerged
    ensures { ⟦<OverlappingFieldsCanBeMerged as Fresh>⟧.fresh result }
{
    OverlappingFieldsCanBeMerged {
        alloc,
        compared: 0,
        opened: 0,
        looked: 0,
        lists: 0,
        judged: 0,
    }
}

impl OverlappingFieldsCanBeMerged {
    /// How many pairs of fragments were compared, each under one flag, in the document that was left last.
    pub fn compared(&self) -> u128
        ensures { result ≡ self.now.compared }
    {
        self.compared
    }

    /// How many fragments its searches opened, in the document that was left last. No search opens one twice.
    pub fn opened(&self) -> u128
        ensures { result ≡ self.now.opened }
    {
        self.opened
    }

    /// How many spreads of opened fragments its searches looked at, in the document that was left last.
    pub fn looked(&self) -> u128
        ensures { result ≡ self.now.looked }
    {
        self.looked
    }

    /// How many searches there were of a set's fields against a spread fragment, in the document that was left last.
    pub fn lists(&self) -> u128
        ensures { result ≡ self.now.lists }
    {
        self.lists
    }

    /// How many pairs of fields were compared in the document that was left last, what was asked and looked at to pass
    /// many at once counted with them.
    pub fn judged(&self) -> u128
        ensures { result ≡ self.now.judged }
    {
        self.judged
    }

    /// Reports the conflicts of a document whose fragments were searched for cycles.
    ///
    /// # Errors
    ///
    /// Out of memory. Errors may have been appended to the context, which is unchanged otherwise.
    pub fn leave<'a, S: CheckedScalar>(
        &mut self,
        ctx: &mut ValidatorContext<'a, S>,
        document: &'a [Definition<'a, S>],
        cycles: DocumentCycles<'a>,
    ) -> Result<(), OutOfMemory>
        requires { SearchedDocument document.now cycles }
        ensures ok { IfOk result (λ _. (es : List ErrorValue)
            × MergeErrors S.eq ctx.old.schema document.now self.new es × (ctx.new ≡ with_errors ctx.old es)) }
        ensures err { OnErr result (KeepsPlace ctx.old ctx.new) }
    {
        self.leave_within(ctx, document, cycles, 0)
    }

    /// Reports the conflicts of a document whose fragments were searched for cycles. The search stops once it has
    /// `enough` findings, nested conflicts included, or never for 0. That it stopped is one more error, without a
    /// place.
    ///
    /// # Errors
    ///
    /// Out of memory. Errors may have been appended to the context, which is unchanged otherwise.
    pub fn leave_within<'a, S: CheckedScalar>(
        &mut self,
        ctx: &mut ValidatorContext<'a, S>,
        document: &'a [Definition<'a, S>],
        cycles: DocumentCycles<'a>,
        enough: usize,
    ) -> Result<(), OutOfMemory>
        requires { SearchedDocument document.now cycles }
        ensures ok { IfOk result (λ _. (es : List ErrorValue)
            × ErrorsWithin S.eq enough ctx.old.schema document.now self.new es × (ctx.new ≡ with_errors ctx.old es)) }
        ensures err { OnErr result (KeepsPlace ctx.old ctx.new) }
    {
        match search_fields(self.alloc, ctx.schema, document, cycles, enough)? {
            Some(found) => {
                self.compared = found.compared;
                self.opened = found.opened;
                self.looked = found.looked;
                self.lists = found.lists;
                self.judged = found.judged;
                report_found(self.alloc, ctx, &found)
            }
            None => {
                self.compared = 0;
                self.opened = 0;
                self.looked = 0;
                self.lists = 0;
                self.judged = 0;
                Ok(())
            }
        }
    }
}

impl Fresh for OverlappingFieldsCanBeMerged {
    ghost fresh = { any_value };
}

impl<S: ScalarValue, C> Machine<S, C> for OverlappingFieldsCanBeMerged {
    ghost step = { document_step (merge_errors S.eq) };
}

impl<S: ScalarValue, C> Rule<S, C> for OverlappingFieldsCanBeMerged {
    ghost allows = { given_at_end (merge_errors S.eq) };

    ghost keeps = { document_keeps (merge_errors S.eq) };
}

impl<'a, S: CheckedScalar> Visitor<'a, S> for OverlappingFieldsCanBeMerged {
    fn on(
        &mut self,
        ctx: &mut ValidatorContext<'a, S>,
        event: &Event<'a, S>,
    ) -> Result<(), OutOfMemory> {
        match *event {
            Event::ExitDocument(document) => {
                let names = ctx.numbered_names(document)?;
                let cycles = search_document(self.alloc, document, names)?;
                self.leave(ctx, document, cycles)
            }
            _ => Ok(()),
        }
    }
}

// Reports the conflicts that were found, and that there may be more.
fn report_found<'a, S: CheckedScalar>(
    alloc: Global,
    ctx: &mut ValidatorContext<'a, S>,
    found: &FoundConflicts<'a, S, S::Check>,
) -> Result<(), OutOfMemory>
    ensures ok { (rs : Reports Entry) (ts : Reports (PlainEntry S S.Check)) → found.now.found.items ≡ postfix rs
        → AreReportsOf (map plain found.now.fields.items) rs ts → IfOk result (λ _. (es : List ErrorValue)
        × IsToldOfSearch found.now (map error_value (errors_of S.eq ctx.old.schema ts)) es
        × (ctx.new ≡ with_errors ctx.old es)) }
    ensures err { OnErr result (KeepsPlace ctx.old ctx.new) }
{
    report_conflicts(alloc, ctx, found)?;
    if found.is_finished() {
        return Ok(());
    }
    report_stop(ctx)
}

// Reports that the search stopped.
fn report_stop<'a, S: CheckedScalar>(ctx: &mut ValidatorContext<'a, S>) -> Result<(), OutOfMemory>
    ensures ok { OnOk result (ctx.new ≡ with_errors ctx.old (stop_error ∷ [])) }
    ensures err { OnErr result (KeepsPlace ctx.old ctx.new) }
{
    ctx.report_error(
        "There may be more fields that conflict: the search for them was stopped",
        &[],
    )
}

// Reports the conflicts that were found, each before the message of the next is made.
fn report_conflicts<'a, S: CheckedScalar>(
    alloc: Global,
    ctx: &mut ValidatorContext<'a, S>,
    found: &FoundConflicts<'a, S, S::Check>,
) -> Result<(), OutOfMemory>
    ensures ok { (rs : Reports Entry) (ts : Reports (PlainEntry S S.Check)) → found.now.found.items ≡ postfix rs
        → AreReportsOf (map plain found.now.fields.items) rs ts
        → OnOk result (ctx.new ≡ with_errors ctx.old (map error_value (errors_of S.eq ctx.old.schema ts))) }
    ensures place { KeepsPlace ctx.old ctx.new }
{
    let parts = parts_of(alloc, found.found.as_slice())?;
    for part in &parts {
        report(alloc, ctx, found, part)?;
    }
    Ok(())
}

// Reports a conflict, unless no more errors are kept.
fn report<'a, S: CheckedScalar>(
    alloc: Global,
    ctx: &mut ValidatorContext<'a, S>,
    found: &FoundConflicts<'a, S, S::Check>,
    part: &Part<'_>,
) -> Result<(), OutOfMemory>
    ensures ok { (t : Told) → IsToldOf S.eq ctx.old.schema (map plain found.now.fields.items) part.now t
        → OnOk result (ctx.new ≡ with_errors ctx.old (error_value (error_of t) ∷ [])) }
    ensures place { KeepsPlace ctx.old ctx.new }
{
    if ctx.is_full() {
        return Ok(());
    }
    let conflict = conflict_of(alloc, ctx.schema, found.fields.as_slice(), part)?;
    ctx.report_error(conflict.message.as_str(), conflict.places.as_slice())
}
