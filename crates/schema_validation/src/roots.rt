//! The names of the root types (section 3.3.1).
ghost use Rattle.std.specs.Prelude.{◌≡◌, ◌++◌, find, option_copied, option_to_list};
ghost use Rattle.schema_validation.specs.Accepted.{root_of, roots_of, root_names};
ghost use Rattle.schema_validation.specs.RootNames.{roots_asked};

use crate::listed::NameTest;

/// The names of the root types. `None` means that the schema has no such root.
#[derive(Clone, Copy)]
pub struct RootNames<'n> {
    pub query: &'n str,
    pub mutation: Option<&'n str>,
    pub subscription: Option<&'n str>,
}

/// The name, unless it is the one that means no root.
fn asked<'n>(name: &'n str, none: &str) -> Option<&'n str>
    ensures { option_copied result ≡ root_of none.now name.now }
{
    if name == none { None } else { Some(name) }
}

impl<'n> RootNames<'n> {
    /// The roots of these names. `_EmptyMutation` and `_EmptySubscription` mean that there is no such
    /// root.
    pub fn new(query: &'n str, mutation: &'n str, subscription: &'n str) -> RootNames<'n>
        ensures { roots_asked result ≡ roots_of query.now mutation.now subscription.now }
    {
        RootNames {
            query,
            mutation: asked(mutation, "_EmptyMutation"),
            subscription: asked(subscription, "_EmptySubscription"),
        }
    }
}

fn first_of_option<'n, T: NameTest>(test: &T, name: Option<&'n str>) -> Option<&'n str>
    ensures { option_copied result ≡ find (T.fails_at test.now) (option_to_list (option_copied name.entry)) }
{
    match name {
        Some(n) => { if test.fails(n) { Some(n) } else { None } }
        None => None,
    }
}

fn first_of_others<'n, T: NameTest>(test: &T, roots: RootNames<'n>) -> Option<&'n str>
    ensures { option_copied result
        ≡ find (T.fails_at test.now) (option_to_list (roots_asked roots.entry).mutation
        ++ option_to_list (roots_asked roots.entry).subscription) }
{
    if let Some(name) = first_of_option(test, roots.mutation) {
        return Some(name);
    }
    first_of_option(test, roots.subscription)
}

/// The first faulty name among the roots.
pub(crate) fn first_root<'n, T: NameTest>(test: &T, roots: RootNames<'n>) -> Option<&'n str>
    ensures { option_copied result ≡ find (T.fails_at test.now) (root_names (roots_asked roots.entry)) }
{
    if test.fails(roots.query) {
        return Some(roots.query);
    }
    first_of_others(test, roots)
}
