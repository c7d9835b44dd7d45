//! The variables that a definition uses in arguments of fields and of directives.
ghost use Rattle.std.specs.Prelude.{◌≡◌, ◌++◌, ℕ, List, Option, IfOk, OnOk, map};
ghost use Rattle.language_types.specs.References.{list_copied};
ghost use Rattle.std.specs.List.{flat_map};
ghost use Rattle.fragment_graph.specs.Preorder.{set_inside};
ghost use Rattle.fragment_reach.specs.Reach.{operation};
ghost use Rattle.operation_scopes.specs.Index.{IsIndexOf};
ghost use Rattle.operation_scopes.specs.Places.{places_of};
ghost use Rattle.language_values.specs.Values.{variables_of};
ghost use Rattle.operation_scopes.specs.Searches.{IsReady};
ghost use Rattle.variable_usages.specs.InReachUses.{AllUses, UsedIn, kept_uses};
ghost use Rattle.variable_usages.specs.Uses.{AddsUses, argument_uses, arguments_uses, at_place, definition_uses};
ghost use Rattle.variable_usages.specs.Uses.{directive_uses, directives_uses, selection_uses, use_of, used_in_all};
ghost use Rattle.variable_usages.specs.Uses.{variable_definition_uses, variable_definitions_uses};

use fragment_graph::preorder::Preorder;
use language::error::OutOfMemory;
use language::position::{SourcePosition, Spanning};
use language::tree::{
    Arguments, Definition, Directive, Document, Selection, VariableDefinition, VariableDefinitions,
};
use language::value::InputValue;
use operation_scopes::index::ScopeIndex;
use operation_scopes::reach::{Search, found_places, new_search, reached_definitions};
use std::alloc::Global;

/// A variable in the value of an argument, and the start of that value.
#[derive(Clone, Copy, Debug)]
pub struct VariableUse<'d> {
    pub name: &'d str,
    pub place: SourcePosition,
}

// Appends uses of these names, at one position.
fn add_names<'d>(
    place: SourcePosition,
    names: &[&'d str],
    found: &mut Vec<VariableUse<'d>>,
) -> Result<(), OutOfMemory>
    ensures { OnOk result (AddsUses found.old.items found.new.items (map (at_place place) (list_copied names.now))) }
{
    for name in names {
        found.push(VariableUse { name: *name, place })?;
    }
    Ok(())
}

// Appends the uses in the value of an argument, which starts at this position.
fn add_value<'d, S>(
    alloc: Global,
    place: SourcePosition,
    value: &'d InputValue<S>,
    found: &mut Vec<VariableUse<'d>>,
) -> Result<(), OutOfMemory>
    ensures { OnOk result (AddsUses found.old.items found.new.items (map (at_place place) (variables_of value.now))) }
{
    match value {
        // most values are of these kinds, and no list of names is allocated for them
        InputValue::Null | InputValue::Scalar(_) | InputValue::Enum(_) => Ok(()),
        InputValue::Variable(name) => {
            found.push(VariableUse {
                name: name.as_str(),
                place,
            })?;
            Ok(())
        }
        InputValue::List(_) | InputValue::Object(_) => {
            let names = value.referenced_variables(alloc)?;
            add_names(place, names.as_slice(), found)
        }
    }
}

// Appends the uses in an argument.
fn add_argument<'d, S>(
    alloc: Global,
    argument: &'d (Spanning<&str>, Spanning<InputValue<S>>),
    found: &mut Vec<VariableUse<'d>>,
) -> Result<(), OutOfMemory>
    ensures { OnOk result (AddsUses found.old.items found.new.items (argument_uses argument.now)) }
{
    add_value(alloc, argument.1.span.start, &argument.1.item, found)
}

// Appends the uses in these arguments.
fn add_each_argument<'d, S>(
    alloc: Global,
    arguments: &'d [(Spanning<&str>, Spanning<InputValue<S>>)],
    found: &mut Vec<VariableUse<'d>>,
) -> Result<(), OutOfMemory>
    ensures { OnOk result (AddsUses found.old.items found.new.items (flat_map argument_uses arguments.now)) }
{
    for argument in arguments {
        add_argument(alloc, argument, found)?;
    }
    Ok(())
}

// Appends the uses in the arguments, if there are any.
fn add_arguments<'d, S>(
    alloc: Global,
    arguments: &'d Option<Spanning<Arguments<'_, S>>>,
    found: &mut Vec<VariableUse<'d>>,
) -> Result<(), OutOfMemory>
    ensures { OnOk result (AddsUses found.old.items found.new.items (arguments_uses arguments.now)) }
{
    match arguments {
        Some(given) => add_each_argument(alloc, given.item.items.as_slice(), found),
        None => Ok(()),
    }
}

// Appends the uses in these directives.
fn add_each_directive<'d, S>(
    alloc: Global,
    directives: &'d [Spanning<Directive<'_, S>>],
    found: &mut Vec<VariableUse<'d>>,
) -> Result<(), OutOfMemory>
    ensures { OnOk result (AddsUses found.old.items found.new.items (flat_map directive_uses directives.now)) }
{
    for directive in directives {
        add_arguments(alloc, &directive.item.arguments, found)?;
    }
    Ok(())
}

// Appends the uses in the directives, if there are any.
fn add_directives<'d, S>(
    alloc: Global,
    directives: &'d Option<Vec<Spanning<Directive<'_, S>>>>,
    found: &mut Vec<VariableUse<'d>>,
) -> Result<(), OutOfMemory>
    ensures { OnOk result (AddsUses found.old.items found.new.items (directives_uses directives.now)) }
{
    match directives {
        Some(given) => add_each_directive(alloc, given.as_slice(), found),
        None => Ok(()),
    }
}

// Appends the uses in the selections of a set, at any depth.
fn add_set<'d, S>(
    alloc: Global,
    set: &'d [Selection<'_, S>],
    found: &mut Vec<VariableUse<'d>>,
) -> Result<(), OutOfMemory>
    ensures { OnOk result (AddsUses found.old.items found.new.items (used_in_all set.now)) }
{
    let mut selections = Preorder::new(alloc, set);
    while let Some(selection) = selections.next()? {
        add_own_uses(alloc, selection, found)?;
    }
    Ok(())
}

// Appends the uses that a selection has itself, which come before those of its set.
fn add_own_uses<'d, S>(
    alloc: Global,
    selection: &'d Selection<'_, S>,
    found: &mut Vec<VariableUse<'d>>,
) -> Result<(), OutOfMemory>
    ensures { OnOk result (map use_of found.new.items ++ used_in_all (set_inside selection.now)
        ≡ map use_of found.old.items ++ selection_uses selection.now) }
{
    match selection {
        Selection::Field(field) => {
            add_arguments(alloc, &field.item.arguments, found)?;
            add_directives(alloc, &field.item.directives, found)
        }
        Selection::FragmentSpread(spread) => add_directives(alloc, &spread.item.directives, found),
        Selection::InlineFragment(inline) => add_directives(alloc, &inline.item.directives, found),
    }
}

// Appends the uses in the directives of these definitions of variables.
fn add_each_definition<'d, S>(
    alloc: Global,
    definitions: &'d [(Spanning<&str>, VariableDefinition<'_, S>)],
    found: &mut Vec<VariableUse<'d>>,
) -> Result<(), OutOfMemory>
    ensures { OnOk result (AddsUses found.old.items found.new.items
        (flat_map variable_definition_uses definitions.now)) }
{
    for definition in definitions {
        add_directives(alloc, &definition.1.directives, found)?;
    }
    Ok(())
}

// Appends the uses in the directives of the definitions of variables, if there are any; default values
// contain no variables.
fn add_variable_definitions<'d, S>(
    alloc: Global,
    definitions: &'d Option<Spanning<VariableDefinitions<'_, S>>>,
    found: &mut Vec<VariableUse<'d>>,
) -> Result<(), OutOfMemory>
    ensures { OnOk result (AddsUses found.old.items found.new.items (variable_definitions_uses definitions.now)) }
{
    match definitions {
        Some(given) => add_each_definition(alloc, given.item.items.as_slice(), found),
        None => Ok(()),
    }
}

/// The uses of variables in a definition, in the order of the document, with repeats. If there are none,
/// it allocates only for sets that have sets inside.
///
/// # Errors
///
/// Out of memory.
pub fn variable_uses<'d, S>(
    alloc: Global,
    definition: &'d Definition<'_, S>,
) -> Result<Vec<VariableUse<'d>>, OutOfMemory>
    ensures { IfOk result (λ v. map use_of v.items ≡ definition_uses definition.now) }
{
    let mut found = Vec::new(alloc);
    match definition {
        Definition::Operation(operation) => {
            add_variable_definitions(alloc, &operation.item.variable_definitions, &mut found)?;
            add_directives(alloc, &operation.item.directives, &mut found)?;
            add_set(alloc, operation.item.selection_set.as_slice(), &mut found)?;
        }
        Definition::Fragment(fragment) => {
            add_directives(alloc, &fragment.item.directives, &mut found)?;
            add_set(alloc, fragment.item.selection_set.as_slice(), &mut found)?;
        }
    }
    Ok(found)
}

/// The uses of variables in each definition of a document, in order.
///
/// # Errors
///
/// Out of memory.
pub fn all_uses<'a, S>(
    alloc: Global,
    document: Document<'a, S>,
) -> Result<Vec<Vec<VariableUse<'a>>>, OutOfMemory>
    ensures { IfOk result (λ all. AllUses document.now all.items) }
{
    let mut all = Vec::with_capacity(alloc, document.len())?;
    for definition in document {
        all.push(variable_uses(alloc, definition)?)?;
    }
    Ok(all)
}

// Appends the uses in the definition at a place.
fn add_uses_at<'a>(
    all: &[Vec<VariableUse<'a>>],
    place: usize,
    found: &mut Vec<VariableUse<'a>>,
) -> Result<(), OutOfMemory>
    ensures { OnOk result (AddsUses found.old.items found.new.items (kept_uses all.now place)) }
{
    match all.get(place) {
        Some(uses) => {
            found.extend_from_slice(uses.as_slice())?;
            Ok(())
        }
        None => Ok(()),
    }
}

// Makes the list that of the uses in the definitions at these places.
fn list_uses<'a>(
    all: &[Vec<VariableUse<'a>>],
    places: &[usize],
    found: &mut Vec<VariableUse<'a>>,
) -> Result<(), OutOfMemory>
    ensures { OnOk result (map use_of found.new.items ≡ flat_map (kept_uses all.now) places.now) }
{
    found.clear();
    for place in places {
        add_uses_at(all, *place, found)?;
    }
    Ok(())
}

/// A search over the scopes of a document, with the uses that it found last. It can be used again, and
/// keeps its memory.
#[derive(Drop)]
pub struct UseSearch<'a> {
    search: Search,
    pub uses: Vec<VariableUse<'a>>,
}

/// A search that has found nothing yet.
///
/// # Errors
///
/// Out of memory.
pub fn new_use_search<'a>(
    alloc: Global,
    index: &ScopeIndex<'_>,
) -> Result<UseSearch<'a>, OutOfMemory>
    ensures { IfOk result (λ s. IsReady index.now s.search) }
{
    Ok(UseSearch {
        search: new_search(alloc, index)?,
        uses: Vec::new(alloc),
    })
}

/// Finds the uses in the reach of the operations of a name, by the places of these operations.
///
/// # Errors
///
/// Out of memory.
pub fn reached_uses<'a, S>(
    document: Document<'a, S>,
    index: &ScopeIndex<'a>,
    search: &mut UseSearch<'a>,
    all: &[Vec<VariableUse<'a>>],
    own: &[usize],
) -> Result<(), OutOfMemory>
    requires index { IsIndexOf document.now index.now }
    requires ready { IsReady index.now search.old.search }
    requires all { AllUses document.now all.now }
    ensures used { OnOk result ((name : Option (List ℕ)) → own.now ≡ places_of document.now (operation name)
        → UsedIn document.now name (map use_of search.new.uses.items)) }
    ensures ready { OnOk result (IsReady index.now search.new.search) }
{
    reached_definitions(document, index, &mut search.search, own)?;
    list_uses(all, found_places(&search.search), &mut search.uses)
}
