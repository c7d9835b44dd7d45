//! The numbering of the names of operations.
ghost use Rattle.std.specs.Prelude.{◌≡◌, ◌≤◌, ◌*◌, ℕ, List, min, None, Option, Some, IfOk, OnOk, if◌then◌else◌};
ghost use Rattle.std.specs.Prelude.{option_copied};
ghost use Rattle.name_tables.specs.Maps.{slots_in};
ghost use Rattle.fragment_graph.specs.Numbers.{or_else};
ghost use Rattle.fragment_reach.specs.Reach.{same_name};
ghost use Rattle.operation_scopes.specs.OperationNumbers.{number_at};

use name_tables::map::NameMap;
use std::alloc::{AllocError, Global};

/// The numbers of the names of operations, and the number of the operations without a name.
#[derive(Drop)]
pub struct OperationNumbers<'a> {
    unnamed: Option<usize>,
    named: NameMap<'a, usize>,
}

/// No numbers, with slots for this many names.
///
/// # Errors
///
/// Out of memory.
pub fn no_operations<'a>(alloc: Global, names: usize) -> Result<OperationNumbers<'a>, AllocError>
    ensures slots { IfOk result (λ n. 2 * min names 524288 ≤ slots_in n.named) }
    ensures none { IfOk result (λ n. (name : Option (List ℕ)) → number_at n name ≡ None) }
{
    let named = NameMap::with_slots(alloc, names)?;
    Ok(OperationNumbers {
        unnamed: None,
        named,
    })
}

// Gives the operations without a name this number, unless they have one. Returns the number that they
// had.
fn number_unnamed(unnamed: &mut Option<usize>, next: usize) -> Option<usize>
    ensures earlier { result ≡ unnamed.old }
    ensures noted { unnamed.new ≡ or_else unnamed.old (Some next) }
{
    match *unnamed {
        Some(earlier) => Some(earlier),
        None => {
            *unnamed = Some(next);
            None
        }
    }
}

/// Gives the operations of a name this number, unless they have one. Returns the number that they had.
///
/// # Errors
///
/// Out of memory.
pub fn number_operations<'a>(
    numbers: &mut OperationNumbers<'a>,
    name: Option<&'a str>,
    next: usize,
) -> Result<Option<usize>, AllocError>
    ensures earlier { IfOk result (λ k. k ≡ number_at numbers.old (option_copied name.entry)) }
    ensures noted { OnOk result ((other : Option (List ℕ)) → number_at numbers.new other
        ≡ or_else (number_at numbers.old other)
        (if same_name (option_copied name.entry) other then Some next else None)) }
{
    match name {
        Some(name) => numbers.named.note(name, next),
        None => Ok(number_unnamed(&mut numbers.unnamed, next)),
    }
}
