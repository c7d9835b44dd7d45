//! The rules of each dialect, and the call that tries those of the schema's.

ghost use Rattle.std.specs.Prelude.{◌≡◌, IfOk, OnOk, OnErr, IsErr, true};
ghost use Rattle.schema.specs.declared.model.dialect.Dialect.{Dialect};
ghost use Rattle.walk.specs.ContextState.{IsMadeFor};
ghost use Rattle.walk.specs.Rule.{Appended, any_value};
ghost use Rattle.walk.specs.Step.{KeepsPlace};
ghost use Rattle.rules_first_stage.specs.CleanStage.{IsCleanWhere};
ghost use Rattle.validation.specs.Dialects.{by_dialect};
ghost use Rattle.validation.specs.Stages.{AppendsReported, Rules};

use crate::rules::{AllRules, visit_all_rules};
use crate::specified_rules::{SpecifiedRules, visit_specified_rules};
use language::error::OutOfMemory;
use language::tree::Definition;
use meta::check::CheckedScalar;
use rules_first_stage::laws::clean_documents;
use rules_specified_stage::laws::clean_documents as clean_specified_documents;
use schema::model::Dialect;
use walk::ValidatorContext;

/// The rules of each dialect, for a kind of scalars. Every kind of scalars has them.
pub trait DialectRules<'a>: CheckedScalar {
    // What the rules of a dialect report, and where they find nothing.
    ghost rules_of: { Dialect → Rules Self Self.Check };
}

impl<'a, S: CheckedScalar + 'a> DialectRules<'a> for S {
    ghost rules_of = { by_dialect ⟦<S as AllRules<'a>>⟧.rules ⟦<S as SpecifiedRules<'a>>⟧.specified_rules };
}

/// Tries every rule of the schema's dialect on a document, and appends the errors: as `visit_all_rules` for juniper's,
/// and as
/// `visit_specified_rules` for October 2021. Returns what they return: how many pairs of fragments were compared.
///
/// # Errors
///
/// Out of memory. The context fails from then on.
pub fn visit_dialect_rules<'a, S: CheckedScalar>(
    ctx: &mut ValidatorContext<'a, S>,
    document: &'a [Definition<'_, S>],
) -> Result<u128, OutOfMemory>
    ensures appended { IfOk result (λ pairs. IsMadeFor ctx.old document.now
        → AppendsReported (⟦<S as DialectRules<'a>>⟧.rules_of ctx.old.schema.dialect)
        ctx.old ctx.new document.now pairs) }
    ensures only { OnOk result (Appended any_value ctx.old ctx.new) }
    ensures err { OnErr result (KeepsPlace ctx.old ctx.new) }
    ensures failed { OnErr result (ctx.new.failed ≡ true) }
    ensures stays { ctx.old.failed ≡ true → IsErr result }
{
    match ctx.schema.dialect() {
        Dialect::Juniper => visit_all_rules(ctx, document),
        Dialect::October2021 => visit_specified_rules(ctx, document),
    }
}

/// In each dialect a document in which the rules of the first stage find nothing has no cycle of fragments. The names
/// in its lists are unique, its spreads and type conditions are known, and its variables have input types.
pub fn clean_by_each_dialect<'a, S: CheckedScalar + 'a>()
    ensures { (dialect : Dialect) → IsCleanWhere (⟦<S as DialectRules<'a>>⟧.rules_of dialect).first_stage.find_nothing }
{
    clean_documents::<S>();
    clean_specified_documents::<S>();
}
