//! What has arguments: fields and directives.

ghost use Rattle.std.specs.Prelude.{◌≡◌, option_copied};
ghost use Rattle.rules_arguments.specs.Bearers.{name_of_known};

use meta::MetaTypeOf;

/// A field or a directive, as messages name it.
#[derive(Clone, Copy)]
pub(crate) enum Bearer<'a> {
    /// A field of this name, of the type of that name.
    Field(&'a str, &'a str),
    /// A directive of this name.
    Directive(&'a str),
}

/// The name of a type, where it is known.
pub(crate) fn name_of_known<'a, S, C>(t: Option<&'a MetaTypeOf<S, C>>) -> &'a str
    ensures { result.now ≡ name_of_known (option_copied t.entry) }
{
    match t {
        Some(t) => t.name().unwrap_or(""),
        None => "",
    }
}
