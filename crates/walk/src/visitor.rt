//! What is called at the events of a walk.

ghost use Rattle.std.specs.Prelude.{IfOk, OnErr};
ghost use Rattle.walk.specs.ContextState.{typing};
ghost use Rattle.events.specs.EventValue.{typed_event};
ghost use Rattle.walk.specs.Step.{StepOf, Stepped, KeepsPlace};

use crate::ValidatorContext;
use events::Event;
use language::error::OutOfMemory;
use meta::check::CheckedScalar;

/// A machine that goes from state to state, event by event.
pub trait Machine<S, C> {
    // At an event: the state before and after, and the errors that are appended. Earlier errors play no part.
    ghost step: { StepOf S C Self };
}

/// A visitor is called at each event of a walk, at the types of its node, and may report errors.
pub trait Visitor<'a, S: CheckedScalar>: Machine<S, S::Check> {
    /// Is called at an event, at the types that the context has.
    ///
    /// It makes a step of the machine and appends the errors of that step to the context, which it leaves alone
    /// otherwise.
    ///
    /// # Errors
    ///
    /// Out of memory. Errors may have been appended, and the context has the types from before.
    fn on(
        &mut self,
        ctx: &mut ValidatorContext<'a, S>,
        event: &Event<'a, S>,
    ) -> Result<(), OutOfMemory>
        ensures stepped { IfOk result (λ _. Stepped Self.step (typed_event event.now (typing ctx.old))
            self.old self.new ctx.old ctx.new) }
        ensures err { OnErr result (KeepsPlace ctx.old ctx.new) };
}

/// A type whose maker makes each value ready for one walk.
pub trait Fresh {
    // The value is as its maker makes it.
    ghost fresh: { Self → Type 0 };
}
