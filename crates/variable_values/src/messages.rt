//! Lists of messages.
ghost use Rattle.std.specs.Prelude.{◌≡◌, ◌++◌, ◌∷◌, [], OnOk, string_bytes};
ghost use Rattle.variable_values.specs.Messages.{texts_of};

use language::error::OutOfMemory;

/// Adds a message.
///
/// # Errors
///
/// Out of memory.
pub fn add(message: String, messages: &mut Vec<String>) -> Result<(), OutOfMemory>
    ensures { OnOk result (texts_of messages.new ≡ texts_of messages.old ++ string_bytes message ∷ []) }
{
    messages.push(message)?;
    Ok(())
}
