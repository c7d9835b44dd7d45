//! A linter, which tries rules of its choice on a document, by the calls that any visitor has.

ghost use Rattle.std.specs.Prelude.{◌∷◌, [], OnOk};
ghost use Rattle.rules_fragments.specs.KnownFragmentNames.{unknown_fragments};
ghost use Rattle.rules_operations.specs.LoneAnonymousOperation.{anonymous_among, has_several};
ghost use Rattle.walk.specs.ContextState.{IsMadeFor};
ghost use Rattle.walk.specs.Entering.{found, found_by};
ghost use Rattle.walk.specs.Rule.{AppendsAllowed, exactly, sum_of};

use validation::ast::Definition;
use validation::rules::known_fragment_names::{self, KnownFragmentNames};
use validation::rules::lone_anonymous_operation::{self, LoneAnonymousOperation};
use validation::walk::laws::rules_append;
use validation::{
    CheckedScalar, MultiVisitorCons, MultiVisitorNil, OutOfMemory, ValidatorContext, visit,
};

type Both = MultiVisitorCons<
    KnownFragmentNames,
    MultiVisitorCons<LoneAnonymousOperation, MultiVisitorNil>,
>;

/// Tries one rule: in a context that was made for the document it appends the spreads of unknown fragments.
///
/// # Errors
///
/// Out of memory. The context fails from then on.
pub fn try_spreads<'a, 't, S: CheckedScalar>(
    ctx: &mut ValidatorContext<'a, S>,
    document: &'a [Definition<'t, S>],
) -> Result<(), OutOfMemory>
    ensures { OnOk result (IsMadeFor ctx.old document.now
        → AppendsAllowed (exactly (found unknown_fragments)) document.now ctx.old ctx.new) }
{
    rules_append::<S, S::Check, KnownFragmentNames>();
    let mut rules = MultiVisitorNil.with(known_fragment_names::factory(ctx.allocator()));
    visit(&mut rules, ctx, document)
}

/// Tries two rules in one walk: what they append is what each of them finds.
///
/// # Errors
///
/// Out of memory. The context fails from then on.
pub fn try_spreads_and_operations<'a, 't, S: CheckedScalar>(
    ctx: &mut ValidatorContext<'a, S>,
    document: &'a [Definition<'t, S>],
) -> Result<(), OutOfMemory>
    ensures { OnOk result (IsMadeFor ctx.old document.now
        → AppendsAllowed
        (sum_of (exactly (found unknown_fragments) ∷ exactly (found_by has_several anonymous_among) ∷ []))
        document.now ctx.old ctx.new) }
{
    rules_append::<S, S::Check, Both>();
    let alloc = ctx.allocator();
    let mut rules: Both = MultiVisitorNil
        .with(lone_anonymous_operation::factory(alloc))
        .with(known_fragment_names::factory(alloc));
    visit(&mut rules, ctx, document)
}
