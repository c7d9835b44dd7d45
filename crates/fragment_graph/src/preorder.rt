//! The selections of a selection set at any depth, in the order of the document.
ghost use Rattle.std.specs.Prelude.{◌≡◌, [], IfOk, OnOk, option_copied};
ghost use Rattle.fragment_graph.specs.Preorder.{set_inside, left, Gives, Enters};

use language::tree::Selection;
use std::alloc::{AllocError, Global};

/// What is left of a selection set and of the sets in it. Each selection comes before those of its own set.
///
/// The sets that are begun wait on a list in memory, so no depth is too deep for the machine's stack.
#[derive(Drop)]
pub struct Preorder<'t, 'a, S> {
    rest: &'t [Selection<'a, S>],
    waiting: Vec<&'t [Selection<'a, S>]>,
}

impl<'t, 'a, S> Preorder<'t, 'a, S> {
    /// All selections of a set.
    pub fn new(alloc: Global, set: &'t [Selection<'a, S>]) -> Preorder<'t, 'a, S>
        ensures { left result ≡ set.now }
    {
        Preorder {
            rest: set,
            waiting: Vec::new(alloc),
        }
    }

    /// The next selection, if one is left.
    ///
    /// # Errors
    ///
    /// Out of memory; never where no set has a set inside.
    pub fn next(&mut self) -> Result<Option<&'t Selection<'a, S>>, AllocError>
        ensures { IfOk result (λ o. Gives self.old self.new (option_copied o)) }
    {
        self.skip_ended();
        match self.rest.split_first() {
            Some((first, others)) => {
                self.enter(set_of(first), others)?;
                Ok(Some(first))
            }
            None => Ok(None),
        }
    }

    // Goes back to the last set that is not at its end.
    fn skip_ended(&mut self)
        ensures same { left self.new ≡ left self.old }
        ensures ended { self.new.rest.now ≡ [] → left self.new ≡ [] }
    {
        while self.rest.is_empty() {
            match self.waiting.pop() {
                Some(set) => self.begin(set),
                None => return,
            }
        }
    }

    fn begin(&mut self, set: &'t [Selection<'a, S>])
        ensures rest { self.new.rest.now ≡ set.now }
        ensures waiting { self.new.waiting ≡ self.old.waiting }
    {
        self.rest = set;
    }

    // Goes on with a set, and then with those that follow it. What is empty is not kept, which saves memory.
    fn enter(
        &mut self,
        set: &'t [Selection<'a, S>],
        others: &'t [Selection<'a, S>],
    ) -> Result<(), AllocError>
        ensures { OnOk result (Enters set.now others.now self.old self.new) }
    {
        if set.is_empty() {
            self.rest = others;
            return Ok(());
        }
        if !others.is_empty() {
            self.waiting.push(others)?;
        }
        self.rest = set;
        Ok(())
    }
}

// The set of a field or an inline fragment; the empty one where there is none.
fn set_of<'t, 'a, S>(selection: &'t Selection<'a, S>) -> &'t [Selection<'a, S>]
    ensures { result.now ≡ set_inside selection.now }
{
    match selection {
        Selection::Field(field) => match &field.item.selection_set {
            Some(set) => set.as_slice(),
            None => &[],
        },
        Selection::FragmentSpread(_) => &[],
        Selection::InlineFragment(inline) => inline.item.selection_set.as_slice(),
    }
}
