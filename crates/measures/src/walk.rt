//! The measures of a selection set, where those of the fragments that it spreads are known.
ghost use Rattle.std.specs.Prelude.{◌≡◌, ◌+◌, ◌^◌, ◌-◌, ◌≤◌, IfOk, OnOk, [], min, length};
ghost use Rattle.std.specs.Option.{option_map_or};
ghost use Rattle.language.specs.SelectionsInside.{selections_inside, all_inside};
ghost use Rattle.measures.specs.Measure.{capped, together};
ghost use Rattle.measures.specs.Written.{measures_of, set_measures};
ghost use Rattle.measures.specs.Levels.{at_level};
ghost use Rattle.measures.specs.Walk.{noted, waiting_measures, waiting_inside};

use crate::levels::{Level, at_level, below_field, directive_count, own_field, root_level};
use crate::measure::{Measures, directives_alone, joined, no_measures};
use fragment_graph::numbers::{Numbers, number};
use language::tree::{Field, Selection};
use std::alloc::{AllocError, Global};

// A set that waits, and where it stands.
#[derive(Drop)]
struct Part<'t, 'a, S> {
    set: &'t [Selection<'a, S>],
    level: Level,
}

// The measures that are noted for a name; none where none are.
fn noted(numbers: &Numbers<'_>, table: &[Measures], name: &str) -> Measures
    ensures { result ≡ noted numbers.now table.now name.now }
{
    match number(numbers, name) {
        Some(known) => table.get(known).copied().unwrap_or(no_measures()),
        None => no_measures(),
    }
}

// The set of a field; the empty one where there is none.
fn set_of_field<'t, 'a, S>(field: &'t Field<'a, S>) -> &'t [Selection<'a, S>]
    ensures { result.now ≡ option_map_or (λ w. w.items) field.now.selection_set [] }
{
    match &field.selection_set {
        Some(set) => set.as_slice(),
        None => &[],
    }
}

// Adds what a selection has by itself, and lets its set wait.
fn add_selection<'t, 'a, S>(
    numbers: &Numbers<'_>,
    table: &[Measures],
    selection: &'t Selection<'a, S>,
    level: Level,
    waiting: &mut Vec<Part<'t, 'a, S>>,
    sum: &mut Measures,
) -> Result<(), AllocError>
    ensures value { OnOk result (capped (together sum.new
        (waiting_measures (noted numbers.now table.now) waiting.new.items))
        ≡ capped (together sum.old (together (at_level level (measures_of (noted numbers.now table.now) selection.now))
        (waiting_measures (noted numbers.now table.now) waiting.old.items)))) }
    ensures inside { OnOk result (waiting_inside waiting.new.items + 1
        ≡ waiting_inside waiting.old.items + selections_inside selection.now) }
    ensures longer { OnOk result (length waiting.new.items ≤ length waiting.old.items + 1) }
    ensures small { OnOk result (capped sum.new ≡ sum.new) }
{
    match selection {
        Selection::Field(field) => {
            *sum = joined(*sum, own_field(level, &field.item));
            waiting.push(Part {
                set: set_of_field(&field.item),
                level: below_field(level, field.item.name.item),
            })?;
        }
        Selection::FragmentSpread(spread) => {
            *sum = joined(
                *sum,
                directives_alone(directive_count(&spread.item.directives)),
            );
            let copy = noted(numbers, table, spread.item.name.item);
            *sum = joined(*sum, at_level(level, copy));
        }
        Selection::InlineFragment(inline) => {
            *sum = joined(
                *sum,
                directives_alone(directive_count(&inline.item.directives)),
            );
            waiting.push(Part {
                set: inline.item.selection_set.as_slice(),
                level,
            })?;
        }
    }
    Ok(())
}

/// The measures of a selection set, by those that are noted for the fragments that it spreads. Adds to `looked`
/// how many selections it looked at: each in the set once, at any depth.
///
/// The sets that are begun wait on a list in memory, so no depth is too deep for the machine's stack.
///
/// # Errors
///
/// Out of memory.
pub fn measure_set<S>(
    alloc: Global,
    numbers: &Numbers<'_>,
    table: &[Measures],
    set: &[Selection<'_, S>],
    looked: &mut u128,
) -> Result<Measures, AllocError>
    ensures value { IfOk result (λ m. m ≡ capped (set_measures (noted numbers.now table.now) set.now)) }
    ensures looked { OnOk result (looked.new ≡ min (looked.old + all_inside set.now) (2 ^ 128 - 1)) }
{
    let mut sum = no_measures();
    let mut count: u128 = 0;
    let mut waiting = Vec::new(alloc);
    waiting.push(Part {
        set,
        level: root_level(),
    })?;
    while let Some(part) = waiting.pop() {
        if let Some((first, others)) = part.set.split_first() {
            count = count.saturating_add(1);
            waiting.push(Part {
                set: others,
                level: part.level,
            })?;
            add_selection(numbers, table, first, part.level, &mut waiting, &mut sum)?;
        } else {
            sum = joined(sum, at_level(part.level, no_measures()));
        }
    }
    *looked = looked.saturating_add(count);
    Ok(sum)
}
