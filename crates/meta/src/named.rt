//! Look-ups by name in lists.
ghost use Rattle.std.specs.Prelude.{◌≡◌, ℕ, List, option_copied, find};
ghost use Rattle.std.specs.Str.{bytes_eq};

use crate::arguments::Argument;
use crate::fields::Field;

/// Anything with a name.
pub trait Named {
    ghost name_of: { Self → List ℕ };

    fn name(&self) -> &str
        ensures { result.now ≡ name_of self.now };
}

impl<S> Named for Field<S> {
    ghost use Rattle.std.specs.Prelude.{string_bytes};

    ghost name_of = { λ f. string_bytes f.name };

    fn name(&self) -> &str {
        self.name.as_str()
    }
}

impl<S> Named for Argument<S> {
    ghost use Rattle.std.specs.Prelude.{string_bytes};

    ghost name_of = { λ a. string_bytes a.name };

    fn name(&self) -> &str {
        self.name.as_str()
    }
}

/// The first item of this name.
pub fn first_named<'t, T: Named>(items: &'t [T], name: &str) -> Option<&'t T>
    ensures { option_copied result ≡ find (λ x. bytes_eq (T.name_of x) name.now) items.now }
{
    for x in items {
        if x.name() == name {
            return Some(x);
        }
    }
    None
}
