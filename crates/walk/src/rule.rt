//! Rules: visitors that say what they report.

ghost use Rattle.walk.specs.Rule.{Allowance, AllowsFrom, Condition, SilentIff, always, anywhere, any_value, both_so};
ghost use Rattle.walk.specs.Rule.{nothing, pair_allows, pair_fresh};
ghost use Rattle.walk.specs.RuleLaws.{nil_keeps, nil_silent, pair_keeps, pair_silent};

use crate::multi_visitor::{MultiVisitorCons, MultiVisitorNil};
use crate::visitor::{Fresh, Machine};

/// A machine that says what a walk with a fresh value of it reports of each document.
pub trait Rule<S, C>: Machine<S, C> + Fresh {
    // The lists of errors that it may report, by the state that it ends in.
    ghost allows: { Self → Allowance S C };

    // What a walk from a fresh value reports is one of them.
    ghost keeps: { AllowsFrom Self.step Self.fresh allows };
}

/// What a rule asks of documents. It has no bound, so that what a long list of rules asks is short to compute.
pub trait Criterion<S, C> {
    // What a document is like in which the rule finds nothing.
    ghost finds_nothing: { Condition S C };
}

/// A rule that reports nothing if and only if the document meets its criterion.
pub trait SettledRule<S, C>: Rule<S, C> + Criterion<S, C> {
    // An allowed list of errors is empty if and only if the rule finds nothing.
    ghost silent: { SilentIff Self.allows Self.finds_nothing };
}

impl Fresh for MultiVisitorNil {
    ghost fresh = { any_value };
}

impl<A: Fresh, B: Fresh> Fresh for MultiVisitorCons<A, B> {
    ghost fresh = { pair_fresh A.fresh B.fresh };
}

impl<S, C> Rule<S, C> for MultiVisitorNil {
    ghost allows = { always nothing };

    ghost keeps = { nil_keeps };
}

impl<S, C> Criterion<S, C> for MultiVisitorNil {
    ghost finds_nothing = { anywhere };
}

impl<S, C> SettledRule<S, C> for MultiVisitorNil {
    ghost silent = { nil_silent };
}

impl<S, C, A: Rule<S, C>, B: Rule<S, C>> Rule<S, C> for MultiVisitorCons<A, B> {
    ghost allows = { pair_allows A.allows B.allows };

    ghost keeps = { pair_keeps A.step B.step A.fresh B.fresh A.allows B.allows A.keeps B.keeps };
}

impl<S, C, A: Criterion<S, C>, B: Criterion<S, C>> Criterion<S, C> for MultiVisitorCons<A, B> {
    ghost finds_nothing = { both_so A.finds_nothing B.finds_nothing };
}

impl<S, C, A: SettledRule<S, C>, B: SettledRule<S, C>> SettledRule<S, C>
    for MultiVisitorCons<A, B> {
    ghost silent = { pair_silent A.allows B.allows A.finds_nothing B.finds_nothing A.silent B.silent };
}
