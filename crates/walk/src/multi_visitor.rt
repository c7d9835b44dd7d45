//! Several visitors as one.

ghost use Rattle.std.specs.Prelude.{◌≡◌, IfOk, IsOk, OnErr};
ghost use Rattle.walk.specs.ContextState.{typing};
ghost use Rattle.events.specs.EventValue.{typed_event};
ghost use Rattle.walk.specs.Pair.{StopsAtFirst, no_step, pair_step};
ghost use Rattle.walk.specs.Step.{KeepsPlace, Stepped};

use crate::ValidatorContext;
use crate::visitor::{Fresh, Machine, Visitor};
use events::Event;
use language::error::OutOfMemory;
use meta::check::CheckedScalar;

/// No visitor.
#[derive(Drop)]
pub struct MultiVisitorNil;

/// A visitor, and the others that were there before it. It is called first at each event.
#[derive(Drop)]
pub struct MultiVisitorCons<A, B>(A, B);

impl MultiVisitorNil {
    /// A list of this visitor alone.
    pub fn with<V>(self, visitor: V) -> MultiVisitorCons<V, MultiVisitorNil>
        ensures { result ≡ record { 0 = visitor; 1 = self } }
    {
        MultiVisitorCons(visitor, self)
    }
}

impl MultiVisitorNil {
    /// A list of this rule alone, which is fresh.
    pub fn with_rule<V: Fresh>(self, rule: V) -> MultiVisitorCons<V, MultiVisitorNil>
        requires { V.fresh rule }
        ensures made { result ≡ record { 0 = rule; 1 = self } }
        ensures fresh { ⟦<MultiVisitorCons<V, MultiVisitorNil> as Fresh>⟧.fresh result }
    {
        MultiVisitorCons(rule, self)
    }
}

impl<A: Fresh, B: Fresh> MultiVisitorCons<A, B> {
    /// The list with one more rule. It is fresh, since the list and the rule are.
    pub fn with_rule<V: Fresh>(self, rule: V) -> MultiVisitorCons<V, MultiVisitorCons<A, B>>
        requires rule { V.fresh rule }
        requires others { ⟦<MultiVisitorCons<A, B> as Fresh>⟧.fresh self }
        ensures made { result ≡ record { 0 = rule; 1 = self } }
        ensures fresh { ⟦<MultiVisitorCons<V, MultiVisitorCons<A, B>> as Fresh>⟧.fresh result }
    {
        MultiVisitorCons(rule, self)
    }
}

impl<A, B> MultiVisitorCons<A, B> {
    /// The list with one more visitor, which is called first at each event.
    pub fn with<V>(self, visitor: V) -> MultiVisitorCons<V, MultiVisitorCons<A, B>>
        ensures { result ≡ record { 0 = visitor; 1 = self } }
    {
        MultiVisitorCons(visitor, self)
    }

    /// The visitor that was added last.
    pub fn newest(&self) -> &A
        ensures { result.now ≡ self.now.0 }
    {
        &self.0
    }

    /// The other visitors.
    pub fn rest(&self) -> &B
        ensures { result.now ≡ self.now.1 }
    {
        &self.1
    }

    /// The visitor that was added last, and the others.
    pub fn into_parts(self) -> (A, B)
        ensures { result ≡ (self.0, self.1) }
    {
        (self.0, self.1)
    }
}

impl<S, C> Machine<S, C> for MultiVisitorNil {
    ghost step = { no_step };
}

impl<S, C, A: Machine<S, C>, B: Machine<S, C>> Machine<S, C> for MultiVisitorCons<A, B> {
    ghost step = { pair_step A.step B.step };
}

impl<'a, S: CheckedScalar> Visitor<'a, S> for MultiVisitorNil {
    fn on(
        &mut self,
        ctx: &mut ValidatorContext<'a, S>,
        event: &Event<'a, S>,
    ) -> Result<(), OutOfMemory>
        ensures always { IsOk result }
        ensures stepped { IfOk result (λ _. Stepped no_step (typed_event event.now (typing ctx.old))
            self.old self.new ctx.old ctx.new) }
        ensures err { OnErr result (KeepsPlace ctx.old ctx.new) }
    {
        Ok(())
    }
}

impl<'a, S: CheckedScalar, A: Visitor<'a, S>, B: Visitor<'a, S>> Visitor<'a, S>
    for MultiVisitorCons<A, B> {
    fn on(
        &mut self,
        ctx: &mut ValidatorContext<'a, S>,
        event: &Event<'a, S>,
    ) -> Result<(), OutOfMemory>
        ensures stepped { IfOk result (λ _. Stepped (pair_step A.step B.step) (typed_event event.now (typing ctx.old))
            self.old self.new ctx.old ctx.new) }
        ensures err { OnErr result (KeepsPlace ctx.old ctx.new) }
        ensures stops { OnErr result (StopsAtFirst A.step (typed_event event.now (typing ctx.old))
            self.old self.new ctx.old) }
    {
        self.0.on(ctx, event)?;
        self.1.on(ctx, event)
    }
}
