//! The graph of a document: its nodes are the names of its fragments. The spreads of all definitions of
//! a name are joined.
ghost use Rattle.std.specs.Prelude.{◌≡◌, ℕ, ◌++◌, [], length, OnOk, IfOk, Some, map};
ghost use Rattle.fragment_graph.specs.Graph.{spreads_of, spread_count};
ghost use Rattle.fragment_graph.specs.Spreads.{placed_spreads_of, placed_spreads_of_all};
ghost use Rattle.fragment_graph.specs.Preorder.{set_inside};
ghost use Rattle.fragment_graph.specs.Numbers.{defined_number, names_of, number_of, NumberedDefinitions, WellNumbered};
ghost use Rattle.fragment_graph.specs.DocumentGraph.{resolved, IsNumbered, JoinsDefinition, Joined, IsGraphOf};

use crate::graph::{Node, Spread};
use crate::numbers::{NumberedNames, Numbers, name_count, number};
use crate::preorder::Preorder;
use language::position::Spanning;
use language::tree::{Definition, Document, Fragment, FragmentSpread, Selection};
use std::alloc::{AllocError, Global};

/// The graph of a document.
#[derive(Drop)]
pub struct DocumentGraph<'a> {
    pub numbers: Numbers<'a>,
    /// For each definition of the document, in order, the number of its name; `None` for an operation.
    pub defined: Vec<Option<usize>>,
    pub nodes: Vec<Node>,
}

// A spread with the number of its target, which is past the last if no fragment has the name.
fn resolve<S>(numbers: &Numbers<'_>, spread: &Spanning<FragmentSpread<'_, S>>) -> Spread
    ensures { result
        ≡ resolved numbers.now (record { name = spread.now.item.name.item.now; place = spread.now.span.start }) }
{
    Spread {
        target: number(numbers, spread.item.name.item).unwrap_or(name_count(numbers)),
        place: spread.span.start,
    }
}

/// Appends the spreads of a selection set, at any depth, in order.
///
/// # Errors
///
/// Out of memory.
pub fn add_spreads<S>(
    numbers: &Numbers<'_>,
    set: &[Selection<'_, S>],
    found: &mut Vec<Spread>,
) -> Result<(), AllocError>
    ensures { OnOk result (found.new.items ≡ found.old.items
        ++ map (resolved numbers.now) (placed_spreads_of_all set.now)) }
{
    let mut selections = Preorder::new(*found.allocator(), set);
    while let Some(selection) = selections.next()? {
        add_own_spread(numbers, selection, found)?;
    }
    Ok(())
}

// Appends the spread that a selection is itself.
fn add_own_spread<S>(
    numbers: &Numbers<'_>,
    selection: &Selection<'_, S>,
    found: &mut Vec<Spread>,
) -> Result<(), AllocError>
    ensures { OnOk result (found.new.items
        ++ map (resolved numbers.now) (placed_spreads_of_all (set_inside selection.now))
        ≡ found.old.items ++ map (resolved numbers.now) (placed_spreads_of selection.now)) }
{
    match selection {
        Selection::Field(_field) => Ok(()),
        Selection::FragmentSpread(spread) => {
            found.push(resolve(numbers, spread))?;
            Ok(())
        }
        Selection::InlineFragment(_inline) => Ok(()),
    }
}

// Nodes without spreads.
fn empty_nodes(alloc: Global, count: usize) -> Result<Vec<Node>, AllocError>
    ensures len { IfOk result (λ v. length v.items ≡ count) }
    ensures empty { IfOk result (λ v. (k : ℕ) → spreads_of v.items k ≡ []) }
    ensures counted { IfOk result (λ v. spread_count v.items ≡ 0) }
{
    let mut nodes = Vec::with_capacity(alloc, count)?;
    for _number in 0..count {
        nodes.push(Node {
            spreads: Vec::new(alloc),
        })?;
    }
    Ok(nodes)
}

// Adds spreads to a node. The first get exactly the memory that they need, since few fragments are
// defined twice.
fn join_spreads(spreads: &[Spread], node: &mut Node) -> Result<(), AllocError>
    ensures { OnOk result (node.new.spreads.items ≡ node.old.spreads.items ++ spreads.now) }
{
    if node.spreads.is_empty() {
        node.spreads.reserve_exact(spreads.len())?;
    }
    node.spreads.extend_from_slice(spreads)
}

// Adds the spreads of a fragment to the node of this number.
fn join_fragment<S>(
    numbers: &Numbers<'_>,
    fragment: &Spanning<Fragment<'_, S>>,
    place: usize,
    found: &mut Vec<Spread>,
    nodes: &mut Vec<Node>,
) -> Result<(), AllocError>
    requires numbered { WellNumbered numbers.now }
    requires has { number_of numbers.now fragment.now.item.name.item.now ≡ Some place }
    requires sized { length nodes.old.items ≡ length (names_of numbers.now) }
    ensures { OnOk result (JoinsDefinition numbers.now (Definition.Fragment fragment.now) nodes.old.items
        nodes.new.items) }
{
    found.clear();
    add_spreads(numbers, fragment.item.selection_set.as_slice(), found)?;
    join_spreads(found.as_slice(), &mut nodes[place])
}

// Adds the spreads of a definition, if it is a fragment with a number.
fn join_definition<S>(
    numbers: &Numbers<'_>,
    definition: &Definition<'_, S>,
    defined: Option<usize>,
    found: &mut Vec<Spread>,
    nodes: &mut Vec<Node>,
) -> Result<(), AllocError>
    requires numbered { WellNumbered numbers.now }
    requires has { IsNumbered numbers.now definition.now }
    requires defined { defined ≡ defined_number numbers.now definition.now }
    requires sized { length nodes.old.items ≡ length (names_of numbers.now) }
    ensures { OnOk result (JoinsDefinition numbers.now definition.now nodes.old.items nodes.new.items) }
{
    match definition {
        Definition::Fragment(fragment) => match defined {
            Some(place) => join_fragment(numbers, fragment, place, found, nodes),
            None => Ok(()),
        },
        Definition::Operation(_) => Ok(()),
    }
}

// The nodes of a document, joined by name.
fn join_all<S>(
    alloc: Global,
    numbers: &Numbers<'_>,
    document: Document<'_, S>,
    defined: &[Option<usize>],
) -> Result<Vec<Node>, AllocError>
    requires { NumberedDefinitions document.now numbers.now defined.now }
    ensures { IfOk result (λ v. Joined numbers.now document.now v.items) }
{
    let mut nodes = empty_nodes(alloc, name_count(numbers))?;
    let mut found = Vec::new(alloc);
    for place in 0..document.len() {
        join_definition(
            numbers,
            &document[place],
            defined[place],
            &mut found,
            &mut nodes,
        )?;
    }
    Ok(nodes)
}

/// The graph of a document, by the numbers of the names of its fragments.
///
/// # Errors
///
/// Out of memory.
pub fn graph_of<'a, S>(
    alloc: Global,
    document: Document<'a, S>,
    names: NumberedNames<'a>,
) -> Result<DocumentGraph<'a>, AllocError>
    requires { NumberedDefinitions document.now names.numbers names.defined.items }
    ensures { IfOk result (IsGraphOf document.now) }
{
    let NumberedNames { numbers, defined } = names;
    let nodes = join_all(alloc, &numbers, document, defined.as_slice())?;
    Ok(DocumentGraph {
        numbers,
        defined,
        nodes,
    })
}
