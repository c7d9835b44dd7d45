//! A schema, with what the documents that are sent to it may ask.

ghost use Rattle.std.specs.Prelude.{◌≡◌, ◌↔◌, ℕ, [], IfOk, OnOk, OnErr, IsErr, IsSorted, true, false};
ghost use Rattle.walk.specs.ContextState.{IsMadeFor};
ghost use Rattle.walk.specs.ErrorValue.{error_cmp};
ghost use Rattle.walk.specs.Rule.{Appended, AppendsAllowed, any_value};
ghost use Rattle.walk.specs.Step.{KeepsPlace};
ghost use Rattle.validation.specs.RootRules.{AppendsRootReported, IsRootReportUpTo};
ghost use Rattle.validation.specs.RootRules.{IsRootValid, introspection};

use crate::dialects::{DialectRules, clean_by_each_dialect, visit_dialect_rules};
use crate::rules::{AllRules, disable_introspection, visit_all_rules};
use language::error::OutOfMemory;
use language::tree::Definition;
use language::value::DefaultScalarValue;
use meta::check::CheckedScalar;
use schema::model::{Dialect, SchemaTypeOf};
use std::alloc::Global;
use walk::{MultiVisitorNil, RuleError, ValidatorContext, visit_rules};

/// A schema, whether documents may ask for the schema itself (GraphQL, October 2021, section 4), and how many errors of
/// a document are reported at most, or 0 for all.
#[derive(Drop)]
pub struct RootNodeOf<S, C> {
    pub schema: SchemaTypeOf<S, C>,
    pub introspection_disabled: bool,
    pub max_errors: usize,
}

/// The root node of a schema, with the checks that its kind of scalars has.
pub type RootNode<S = DefaultScalarValue> = RootNodeOf<S, <S as CheckedScalar>::Check>;

impl<S, C> RootNodeOf<S, C> {
    /// The root node of a schema, for which introspection is allowed, and all errors are reported.
    pub fn new(schema: SchemaTypeOf<S, C>) -> RootNodeOf<S, C>
        ensures { result ≡ record { schema = schema; introspection_disabled = false; max_errors = 0 } }
    {
        RootNodeOf {
            schema,
            introspection_disabled: false,
            max_errors: 0,
        }
    }

    /// Disables introspection: a field `__schema` or `__type` of a document is an error.
    pub fn disable_introspection(self) -> RootNodeOf<S, C>
        ensures { result ≡ record self { introspection_disabled = true } }
    {
        RootNodeOf {
            schema: self.schema,
            introspection_disabled: true,
            max_errors: self.max_errors,
        }
    }

    /// Has documents judged by this dialect, as their literals and the values of their variables are. It is juniper's
    /// at first.
    pub fn with_dialect(self, dialect: Dialect) -> RootNodeOf<S, C>
        ensures { result ≡ record self { schema = record self.schema { dialect = dialect } } }
    {
        let mut schema = self.schema;
        schema.set_dialect(dialect);
        RootNodeOf {
            schema,
            introspection_disabled: self.introspection_disabled,
            max_errors: self.max_errors,
        }
    }

    /// Has at most so many errors of a document reported, or all for 0. One with a long message counts as several: one,
    /// and one more for each 4,096 bytes of its message.
    pub fn with_max_errors(self, max_errors: usize) -> RootNodeOf<S, C>
        ensures { result ≡ record self { max_errors = max_errors } }
    {
        RootNodeOf {
            schema: self.schema,
            introspection_disabled: self.introspection_disabled,
            max_errors,
        }
    }

    /// Allows introspection again.
    pub fn enable_introspection(self) -> RootNodeOf<S, C>
        ensures { result ≡ record self { introspection_disabled = false } }
    {
        RootNodeOf {
            schema: self.schema,
            introspection_disabled: false,
            max_errors: self.max_errors,
        }
    }
}

impl<S: CheckedScalar> RootNodeOf<S, S::Check> {
    /// Validates a document: by every rule of the schema's dialect, and by the rule on introspection where it is
    /// disabled. Returns the errors in ascending order. There are none if and only if the document is valid.
    ///
    /// Each is one of the document's, but for one without a place: that says that the search for fields that conflict
    /// stopped, since it had found many. Where it is there, or the errors count as many as `max_errors` or more, there may
    /// be more.
    ///
    /// # Errors
    ///
    /// Out of memory.
    pub fn validate<'a>(
        &'a self,
        alloc: Global,
        document: &'a [Definition<'_, S>],
    ) -> Result<Vec<RuleError>, OutOfMemory>
        ensures all { IfOk result (λ errors. (pairs : ℕ)
            × IsRootReportUpTo (⟦<S as DialectRules<'a>>⟧.rules_of self.now.schema.dialect) self.now.max_errors
            self.now.introspection_disabled self.now.schema document.now errors.items pairs) }
        ensures valid { IfOk result (λ errors. (errors.items ≡ [])
            ↔ IsRootValid (⟦<S as DialectRules<'a>>⟧.rules_of self.now.schema.dialect)
            self.now.introspection_disabled self.now.schema document.now) }
        ensures sorted { IfOk result (λ errors. IsSorted error_cmp errors.items) }
    {
        clean_by_each_dialect::<S>();
        let mut ctx = ValidatorContext::new(alloc, &self.schema, document)?;
        ctx.set_limit(self.max_errors);
        visit_dialect_rules(&mut ctx, document)?;
        report_introspection(&mut ctx, document, self.introspection_disabled)?;
        ctx.into_errors()
    }
}

/// Tries every rule of juniper on a document, and the rule on introspection where it is disabled, and appends the
/// errors.
///
/// Returns what `visit_all_rules` returns: how many pairs of fragments were compared.
///
/// # Errors
///
/// Out of memory. The context fails from then on.
pub fn visit_root_rules<'a, S: CheckedScalar>(
    ctx: &mut ValidatorContext<'a, S>,
    document: &'a [Definition<'_, S>],
    introspection_disabled: bool,
) -> Result<u128, OutOfMemory>
    ensures appended { IfOk result (λ pairs. IsMadeFor ctx.old document.now
        → AppendsRootReported ⟦<S as AllRules<'a>>⟧.rules introspection_disabled ctx.old ctx.new document.now pairs) }
    ensures only { OnOk result (Appended any_value ctx.old ctx.new) }
    ensures err { OnErr result (KeepsPlace ctx.old ctx.new) }
    ensures failed { OnErr result (ctx.new.failed ≡ true) }
    ensures stays { ctx.old.failed ≡ true → IsErr result }
{
    let compared = visit_all_rules(ctx, document)?;
    report_introspection(ctx, document, introspection_disabled)?;
    Ok(compared)
}

// Reports fields that ask for the schema, where introspection is disabled.
fn report_introspection<'a, S: CheckedScalar>(
    ctx: &mut ValidatorContext<'a, S>,
    document: &'a [Definition<'_, S>],
    disabled: bool,
) -> Result<(), OutOfMemory>
    ensures appended { OnOk result (IsMadeFor ctx.old document.now
        → AppendsAllowed (introspection disabled) document.now ctx.old ctx.new) }
    ensures only { OnOk result (Appended any_value ctx.old ctx.new) }
    ensures err { OnErr result (KeepsPlace ctx.old ctx.new) }
    ensures failed { OnErr result (ctx.new.failed ≡ true) }
{
    if disabled {
        return visit_introspection(ctx, document);
    }
    Ok(())
}

// Reports fields that ask for the schema.
fn visit_introspection<'a, S: CheckedScalar>(
    ctx: &mut ValidatorContext<'a, S>,
    document: &'a [Definition<'_, S>],
) -> Result<(), OutOfMemory>
    ensures appended { OnOk result (IsMadeFor ctx.old document.now
        → AppendsAllowed (introspection true) document.now ctx.old ctx.new) }
    ensures only { OnOk result (Appended any_value ctx.old ctx.new) }
    ensures err { OnErr result (KeepsPlace ctx.old ctx.new) }
    ensures failed { OnErr result (ctx.new.failed ≡ true) }
{
    let mut rule = MultiVisitorNil.with_rule(disable_introspection::factory(ctx.allocator()));
    visit_rules(&mut rule, ctx, document)?;
    Ok(())
}
