//! The report on a document.
ghost use Rattle.std.specs.Prelude.{◌≡◌, ◌==◌, ◌++◌, IfErr, IfOk, OnOk, false, length, string_bytes};
ghost use Rattle.check_app.specs.Report.{error_lines, pairs_line};

use std::alloc::Global;
use validation::ast::Definition;
use validation::rules::overlapping_fields_can_be_merged;
use validation::walk::visit_rules;
use validation::{
    AllRules, DefaultScalarValue, MultiVisitorNil, OutOfMemory, RuleError, ScalarValue, SchemaType,
    ValidatorContext, visit_root_rules,
};

/// The report on a document.
#[derive(Drop)]
pub struct Report {
    /// The errors in order, a line each, and then the number of pairs of fragments that were compared, if it is known.
    pub text: String,
    /// Whether there is no error.
    pub is_clean: bool,
}

impl Report {
    ghost use Rattle.check_app.specs.Report.{report_text};
    ghost use Rattle.check_app.specs.Told.{IsReportOn, IsMergeReport};

    /// Validates a document by all rules, and if `closed` also by `disable_introspection`.
    ///
    /// # Errors
    ///
    /// Out of memory.
    pub fn on<'a>(
        alloc: Global,
        schema: &'a SchemaType<DefaultScalarValue>,
        document: &'a [Definition<'_, DefaultScalarValue>],
        closed: bool,
    ) -> Result<Report, OutOfMemory>
        ensures { IfOk result
            (λ report. IsReportOn ⟦<DefaultScalarValue as AllRules<'static>>⟧.rules
            closed schema.now document.now report) }
    {
        let mut ctx = ValidatorContext::new(alloc, schema, document)?;
        let compared = visit_root_rules(&mut ctx, document, closed)?;
        let errors = ctx.into_errors()?;
        let report = Report::of(alloc, errors.as_slice(), Some(compared))?;
        Ok(report)
    }

    /// Validates a document by the rule `overlapping_fields_can_be_merged` alone.
    ///
    /// # Errors
    ///
    /// Out of memory.
    pub fn on_merging<'a>(
        alloc: Global,
        schema: &'a SchemaType<DefaultScalarValue>,
        document: &'a [Definition<'_, DefaultScalarValue>],
    ) -> Result<Report, OutOfMemory>
        ensures { IfOk result (IsMergeReport ⟦<DefaultScalarValue as ScalarValue>⟧.eq schema.now document.now) }
    {
        let mut ctx = ValidatorContext::new(alloc, schema, document)?;
        let rule = overlapping_fields_can_be_merged::factory(alloc);
        let mut rules = MultiVisitorNil.with_rule(rule);
        visit_rules(&mut rules, &mut ctx, document)?;
        let errors = ctx.into_errors()?;
        let report = Report::of(alloc, errors.as_slice(), None)?;
        Ok(report)
    }

    /// The report on these errors, with the number of pairs that were compared, if it is known.
    fn of(
        alloc: Global,
        errors: &[RuleError],
        compared: Option<u128>,
    ) -> Result<Report, OutOfMemory>
        ensures text { IfOk result (λ r. string_bytes r.text ≡ report_text errors.now compared) }
        ensures is_clean { IfOk result (λ r. r.is_clean ≡ (length errors.now == 0)) }
    {
        let mut text = print_errors(alloc, errors)?;
        write_pairs(&mut text, compared)?;
        Ok(Report {
            text,
            is_clean: errors.is_empty(),
        })
    }
}

/// Each error on a line.
fn print_errors(alloc: Global, errors: &[RuleError]) -> Result<String, OutOfMemory>
    ensures { IfOk result (λ s. string_bytes s ≡ error_lines errors.now) }
{
    let mut text = String::new(alloc);
    for error in errors {
        writeln!(text, "{error}")?;
    }
    Ok(text)
}

/// The number of pairs that were compared, on a line, if it is known.
fn write_pairs(text: &mut String, compared: Option<u128>) -> Result<(), OutOfMemory>
    ensures { OnOk result (string_bytes text.new ≡ string_bytes text.old ++ pairs_line compared) }
{
    if let Some(pairs) = compared {
        writeln!(text, "compared {pairs}")?;
    }
    Ok(())
}
