//! The lists and objects around a value that is judged.
ghost use Rattle.std.specs.Prelude.{◌≡◌, ◌++◌, IfOk, List, OnOk, string_bytes, ℕ};
ghost use Rattle.literals.specs.Begun.{told, told_of};

use crate::expected::Expected;
use crate::texts::add_field_start;
use language_types::position::Spanning;
use language_values::value::InputValue;
use meta::kinds::MetaTypeOf;
use std::alloc::{AllocError, Global};

/// A list or an object of which a part is judged, and what is left of it. Nothing is copied.
#[derive_where(Clone, Copy)]
pub enum Begun<'t, 'a, 'v, S, C> {
    /// A list: the type of its items, and the items to come.
    Items(Expected<'t, 'a, S, C>, &'v [Spanning<InputValue<S>>]),
    /// An object: its type, the key of the entry that is judged, if one is, all entries, and those to come.
    Entries(
        &'a MetaTypeOf<S, C>,
        Option<&'v str>,
        &'v [(Spanning<String>, Spanning<InputValue<S>>)],
        &'v [(Spanning<String>, Spanning<InputValue<S>>)],
    ),
}

/// The text of a fault within these lists and objects, outermost first.
///
/// # Errors
///
/// Out of memory.
pub fn text_within<S, C>(
    alloc: Global,
    begun: &[Begun<'_, '_, '_, S, C>],
    fault: &str,
) -> Result<String, AllocError>
    ensures { IfOk result (λ t. string_bytes t ≡ told begun.now fault.now) }
{
    let mut text = String::new(alloc);
    for part in begun {
        add_start(part, &mut text)?;
    }
    text.push_str(fault)?;
    Ok(text)
}

// Adds what stands before the text of a fault in this part.
fn add_start<S, C>(part: &Begun<'_, '_, '_, S, C>, text: &mut String) -> Result<(), AllocError>
    ensures { (said : List ℕ) → OnOk result (string_bytes text.new ++ said
        ≡ string_bytes text.old ++ told_of part.now said) }
{
    match part {
        Begun::Entries(meta, Some(key), _, _) => add_field_start(*meta, *key, text),
        _ => Ok(()),
    }
}
