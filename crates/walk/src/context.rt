//! What visitors know and report in a walk.

ghost use Rattle.std.specs.Prelude.{◌≡◌, ◌++◌, ◌∷◌, [], true, false, not, length, IsErr, IsOk, OnOk, OnErr, map, IfOk};
ghost use Rattle.std.specs.Prelude.{IsPermutation, IsSorted};
ghost use Rattle.std.specs.Option.{option_copied, option_map};
ghost use Rattle.language_types.specs.Types.{borrowed_shape};
ghost use Rattle.walk.specs.Calls.{CalledAt};
ghost use Rattle.walk.specs.ContextState.{HasRoom, HasTypes, failing, fresh_context, has_place, has_some};
ghost use Rattle.walk.specs.ContextState.{limited};
ghost use Rattle.walk.specs.ContextState.{popped, pushed, typing, with_errors};
ghost use Rattle.walk.specs.ErrorValue.{error_cmp, shares};
ghost use Rattle.events.specs.EventValue.{typing_of};
ghost use Rattle.events.specs.Cursor.{IsNextLeft};
ghost use Rattle.fragment_graph.specs.Kept.{is_among};
ghost use Rattle.fragment_graph.specs.Numbers.{NumberedDefinitions};
ghost use Rattle.events.specs.Typing.{at_type, at_input, at_set};

use crate::RuleError;
use crate::kept_errors::KeptErrors;
use events::{Event, EventCursorOf, TypesOf};
use fragment_graph::kept::KeptNames;
use fragment_graph::numbers::NumberedNames;
use language::error::OutOfMemory;
use language::position::SourcePosition;
use language::tree::Definition;
use language::types::BorrowedType;
use meta::MetaTypeOf;
use meta::check::CheckedScalar;
use schema::model::SchemaTypeOf;
use std::alloc::Global;
use std::marker::Model;

/// The schema, the names of the document's fragments, the types at the current node, and the errors that were reported.
///
/// A context fails if memory runs out in a call that changes it or in a walk over it, or if `fail` is called. From then
/// on each call that reports, pushes or ends returns an error, and so does each walk. `numbered_names` leaves the
/// context as it is: a rule that it refuses returns an error, and the walk makes the context fail.
#[derive(Drop)]
pub struct ValidatorContextOf<'a, S, C> {
    pub schema: &'a SchemaTypeOf<S, C>,
    alloc: Global,
    fragment_names: KeptNames<'a>,
    types: Vec<TypesOf<'a, S, C>>,
    kept: KeptErrors,
    failed: bool,
}

/// The context of a walk, with the checks that its kind of scalars has.
pub type ValidatorContext<'a, S> = ValidatorContextOf<'a, S, <S as CheckedScalar>::Check>;

impl<'a, S, C> Model for ValidatorContextOf<'a, S, C> {
    ghost use Rattle.std.specs.Prelude.{map};
    ghost use Rattle.walk.specs.Codes.{coded_state};
    ghost use Rattle.walk.specs.ContextState.{ContextState};
    ghost use Rattle.events.specs.EventValue.{typing_of};
    ghost use Rattle.fragment_graph.specs.KeptNames.{kept_by};

    ghost Value = { ContextState S C };

    ghost coded = { Prim.hlevel coded_state };

    ghost view = { λ c. record {
      allocator = c.alloc;
      schema = c.schema.now;
      known = kept_by c.fragment_names;
      typings = map typing_of c.types.items;
      errors = c.kept.errors.items;
      limit = c.kept.limit;
      failed = c.failed;
    } };
}

impl<'a, S, C> ValidatorContextOf<'a, S, C> {
    /// A context for a document, in which no types are pushed and nothing is reported.
    ///
    /// # Errors
    ///
    /// Out of memory.
    pub fn new<'t>(
        alloc: Global,
        schema: &'a SchemaTypeOf<S, C>,
        document: &'a [Definition<'t, S>],
    ) -> Result<ValidatorContextOf<'a, S, C>, OutOfMemory>
        ensures { IfOk result (λ ctx. ctx ≡ fresh_context alloc schema.now document.now) }
    {
        let fragment_names = KeptNames::new(alloc, document)?;
        Ok(ValidatorContextOf {
            schema,
            alloc,
            fragment_names,
            types: Vec::new(alloc),
            kept: KeptErrors::new(alloc),
            failed: false,
        })
    }

    /// The allocator of the context.
    pub fn allocator(&self) -> Global
        ensures { result ≡ self.now.allocator }
    {
        self.alloc
    }

    /// Whether the document that the context was made for has a fragment of the name.
    pub fn is_known_fragment(&self, name: &str) -> bool
        ensures { result ≡ is_among self.now.known name.now }
    {
        self.fragment_names.has(name)
    }

    /// The names of the fragments of a document, numbered. Those of the document that the context was made for are
    /// numbered once, for all callers.
    ///
    /// # Errors
    ///
    /// Out of memory. The context is unchanged.
    pub fn numbered_names(
        &self,
        document: &'a [Definition<'a, S>],
    ) -> Result<NumberedNames<'a>, OutOfMemory>
        ensures { IfOk result (λ n. NumberedDefinitions document.now n.numbers n.defined.items) }
    {
        let names = self.fragment_names.names_of(self.alloc, document)?;
        Ok(names)
    }

    /// Whether an error was reported.
    pub fn has_errors(&self) -> bool
        ensures { result ≡ has_some self.now.errors }
    {
        !self.kept.errors.is_empty()
    }

    /// Keeps no more errors than so many from now on, or all for 0. It drops none that it has.
    ///
    /// An error with a long message counts as several: one, and one more for each 4,096 bytes of its message.
    pub fn set_limit(&mut self, limit: usize)
        ensures { self.new ≡ limited self.old limit }
    {
        self.kept.set_limit(limit);
    }

    /// How many errors are kept at most, or 0 for all. One with a long message counts as several.
    pub fn limit(&self) -> usize
        ensures { result ≡ self.now.limit }
    {
        self.kept.limit
    }

    /// Whether no further error is kept: those that are there count as many as the limit, or more.
    pub fn is_full(&self) -> bool
        ensures { result ≡ not (has_place self.now.limit (shares self.now.errors)) }
    {
        self.kept.is_full()
    }

    /// The types at the current node.
    pub(crate) fn types(&self) -> TypesOf<'a, S, C>
        ensures { typing_of result ≡ typing self.now }
    {
        match self.types.last() {
            Some(types) => *types,
            None => TypesOf {
                current: None,
                literal: None,
                parent: None,
                input: None,
            },
        }
    }

    /// The type of the schema at the current node, if there is one.
    pub fn current_type(&self) -> Option<&'a MetaTypeOf<S, C>>
        ensures { option_copied result ≡ (typing self.now).current }
    {
        self.types().current
    }

    /// The type at the current node as it was written, with its lists and non-null marks.
    pub fn current_type_literal(&self) -> Option<BorrowedType<'a>>
        ensures { option_map borrowed_shape result ≡ (typing self.now).literal }
    {
        self.types().literal
    }

    /// The type of the selection set around the current node, if there is one.
    pub fn parent_type(&self) -> Option<&'a MetaTypeOf<S, C>>
        ensures { option_copied result ≡ (typing self.now).parent }
    {
        self.types().parent
    }

    /// The type of the input that is expected at the current node, as it was written.
    pub fn current_input_type_literal(&self) -> Option<BorrowedType<'a>>
        ensures { option_map borrowed_shape result ≡ (typing self.now).input }
    {
        self.types().input
    }

    /// Adds an error with this message, at these places, unless the context is full.
    ///
    /// # Errors
    ///
    /// Out of memory, or the context has failed before. Nothing is added, and the context fails from then on.
    pub fn report_error(
        &mut self,
        message: &str,
        locations: &[SourcePosition],
    ) -> Result<(), OutOfMemory>
        ensures ok { OnOk result (self.new
            ≡ with_errors self.old (record { locations = locations.now; message = message.now } ∷ [])) }
        ensures err { OnErr result (self.new ≡ failing self.old) }
        ensures stays { self.old.failed ≡ true → IsErr result }
    {
        if self.failed {
            return Err(OutOfMemory);
        }
        if self.is_full() {
            return Ok(());
        }
        match RuleError::new(self.alloc, message, locations) {
            Ok(error) => self.push_error(error),
            Err(_) => {
                self.failed = true;
                Err(OutOfMemory)
            }
        }
    }

    // Adds an error.
    fn push_error(&mut self, error: RuleError) -> Result<(), OutOfMemory>
        requires { HasRoom self.old }
        ensures ok { OnOk result (self.new ≡ with_errors self.old (error ∷ [])) }
        ensures err { OnErr result (self.new ≡ failing self.old) }
    {
        if self.kept.push(error).is_err() {
            self.failed = true;
            return Err(OutOfMemory);
        }
        Ok(())
    }

    /// Adds errors, in their order, as far as they are kept.
    ///
    /// # Errors
    ///
    /// Out of memory, if there are errors to add, or the context has failed before. Nothing is added, and the context
    /// fails from then on.
    pub fn append_errors(&mut self, errors: Vec<RuleError>) -> Result<(), OutOfMemory>
        ensures ok { OnOk result (self.new ≡ with_errors self.old errors.items) }
        ensures err { OnErr result (self.new ≡ failing self.old) }
        ensures stays { self.old.failed ≡ true → IsErr result }
        ensures succeeds { self.old.failed ≡ false → errors.items ≡ [] → IsOk result }
    {
        if self.failed {
            return Err(OutOfMemory);
        }
        if self.kept.append(errors).is_err() {
            self.failed = true;
            return Err(OutOfMemory);
        }
        Ok(())
    }

    /// The errors that were reported, in ascending order, each as often as it was reported.
    ///
    /// # Errors
    ///
    /// Out of memory, if an error was reported, or the context has failed before.
    pub fn into_errors(self) -> Result<Vec<RuleError>, OutOfMemory>
        ensures all { IfOk result (λ errors. IsPermutation self.entry.errors errors.items) }
        ensures sorted { IfOk result (λ errors. IsSorted error_cmp errors.items) }
        ensures stays { self.entry.failed ≡ true → IsErr result }
        ensures succeeds { self.entry.failed ≡ false → self.entry.errors ≡ [] → IsOk result }
    {
        let mut errors = self.kept.errors;
        if self.failed {
            return Err(OutOfMemory);
        }
        if errors.is_empty() {
            return Ok(errors);
        }
        errors.sort()?;
        Ok(errors)
    }

    // Goes to a node of these types, or makes the context fail.
    pub(crate) fn push_types(&mut self, types: TypesOf<'a, S, C>) -> Result<(), OutOfMemory>
        ensures ok { OnOk result (self.new ≡ pushed self.old (typing_of types.entry)) }
        ensures err { OnErr result (self.new ≡ failing self.old) }
        ensures stays { self.old.failed ≡ true → IsErr result }
    {
        if self.failed {
            return Err(OutOfMemory);
        }
        if self.types.push(types).is_err() {
            self.failed = true;
            return Err(OutOfMemory);
        }
        Ok(())
    }

    // Leaves it.
    pub(crate) fn pop_types(&mut self)
        ensures { self.new ≡ popped self.old }
    {
        let _ = self.types.pop();
    }

    // Goes to the node of the next event of a cursor: its types replace those that were pushed last.
    pub(crate) fn next_event(
        &mut self,
        cursor: &mut EventCursorOf<'a, S, C>,
    ) -> Result<Option<Event<'a, S>>, OutOfMemory>
        requires typed { HasTypes self.old }
        ensures typed { HasTypes self.new }
        ensures next { IfOk result (λ found. IsNextLeft found (typing self.new) cursor.old cursor.new) }
        ensures ok { OnOk result (popped self.new ≡ popped self.old) }
        ensures err { OnErr result (popped self.new ≡ failing (popped self.old)) }
    {
        let Some(at) = self.types.last_mut() else {
            unreachable!()
        };
        let found = cursor.next(at);
        if found.is_err() {
            self.failed = true;
        }
        found
    }

    /// Makes the context fail, when memory ran out in work on its document outside of the calls of the context.
    pub fn fail(&mut self)
        ensures { self.new ≡ failing self.old }
    {
        self.failed = true;
    }

    // Calls f at these types, or not at all if they can't be pushed.
    fn with_types<R, F: FnOnce(&mut ValidatorContextOf<'a, S, C>) -> R + Drop>(
        &mut self,
        types: TypesOf<'a, S, C>,
        f: F,
    ) -> Result<R, OutOfMemory>
        requires { F.IsAlwaysCallable f }
        ensures ok { IfOk result (CalledAt F.FnOnce f (pushed self.old (typing_of types.entry)) self.new) }
        ensures err { OnErr result (self.new ≡ failing self.old) }
        ensures stays { self.old.failed ≡ true → IsErr result }
    {
        self.push_types(types)?;
        let answer = f(self);
        self.pop_types();
        Ok(answer)
    }

    /// Calls `f` once, at a node of this type as it is written, and returns what `f` returns. The type is popped again.
    ///
    /// If memory runs out in a call that `f` makes on the context, the context fails from then on.
    ///
    /// # Errors
    ///
    /// Out of memory to push the type, or the context has failed before. `f` is not called, and the context fails from
    /// then on.
    pub fn with_pushed_type<R, F: FnOnce(&mut ValidatorContextOf<'a, S, C>) -> R + Drop>(
        &mut self,
        t: Option<BorrowedType<'a>>,
        f: F,
    ) -> Result<R, OutOfMemory>
        requires { F.IsAlwaysCallable f }
        ensures ok { IfOk result
            (CalledAt F.FnOnce f
            (pushed self.old (at_type self.old.schema (typing self.old) (option_map borrowed_shape t.entry)))
            self.new) }
        ensures err { OnErr result (self.new ≡ failing self.old) }
        ensures stays { self.old.failed ≡ true → IsErr result }
    {
        let types = self.types().at_type(self.schema, t);
        self.with_types(types, f)
    }

    /// Calls `f` once, in the selection set of the current node, whose type is the parent type there, and returns what
    /// `f` returns. The parent type is popped again.
    ///
    /// If memory runs out in a call that `f` makes on the context, the context fails from then on.
    ///
    /// # Errors
    ///
    /// Out of memory to push the type, or the context has failed before. `f` is not called, and the context fails from
    /// then on.
    pub fn with_pushed_parent_type<R, F: FnOnce(&mut ValidatorContextOf<'a, S, C>) -> R + Drop>(
        &mut self,
        f: F,
    ) -> Result<R, OutOfMemory>
        requires { F.IsAlwaysCallable f }
        ensures ok { IfOk result (CalledAt F.FnOnce f (pushed self.old (at_set (typing self.old))) self.new) }
        ensures err { OnErr result (self.new ≡ failing self.old) }
        ensures stays { self.old.failed ≡ true → IsErr result }
    {
        let types = self.types().at_set();
        self.with_types(types, f)
    }

    /// Calls `f` once, where an input of this type is expected, and returns what `f` returns. The type is popped again.
    ///
    /// If memory runs out in a call that `f` makes on the context, the context fails from then on.
    ///
    /// # Errors
    ///
    /// Out of memory to push the type, or the context has failed before. `f` is not called, and the context fails from
    /// then on.
    pub fn with_pushed_input_type<R, F: FnOnce(&mut ValidatorContextOf<'a, S, C>) -> R + Drop>(
        &mut self,
        t: Option<BorrowedType<'a>>,
        f: F,
    ) -> Result<R, OutOfMemory>
        requires { F.IsAlwaysCallable f }
        ensures ok { IfOk result
            (CalledAt F.FnOnce f (pushed self.old (at_input (typing self.old) (option_map borrowed_shape t.entry)))
            self.new) }
        ensures err { OnErr result (self.new ≡ failing self.old) }
        ensures stays { self.old.failed ≡ true → IsErr result }
    {
        let types = self.types().at_input(t);
        self.with_types(types, f)
    }
}
