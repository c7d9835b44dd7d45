//! Directives that refer to themselves, and the ways on which they do.
ghost use Rattle.std.specs.Prelude.{◌≡◌, ◌++◌, ◌↔◌, [], IfOk, OnOk, Some, option_map};
ghost use Rattle.std.specs.Fmt.{WritesOnOk};
ghost use Rattle.std.specs.List.{flat_map};
ghost use Rattle.graph_ways.specs.Onward.{LeadBack};
ghost use Rattle.language_types.specs.References.{list_copied};
ghost use Rattle.sdl_directives.specs.Known.{directive_of};
ghost use Rattle.sdl_directive_circles.specs.Circles.{AddsCircles, AreCircles, HasNoDirectiveCircle, IsToldOf};
ghost use Rattle.sdl_directive_circles.specs.Circles.{circle_text, circle_value, circle_values, steps_text};
ghost use Rattle.sdl_directive_circles.specs.Graph.{HasReferences, definition_told, link_told, place_of};
ghost use Rattle.sdl_directive_circles.specs.Uses.{directive_name};

use crate::graph::{References, references_in};
use crate::names::NameOf;
use crate::places::place_of;
use graph_ways::{Ways, way_back, ways_of};
use graphql_reader::type_system::{DirectiveDefinition, TypeSystemDefinition};
use language::error::OutOfMemory;
use language::position::SourcePosition;
use std::alloc::Global;
use std::fmt;
use type_system_circles::graph::Link;

/// A directive that refers to itself: where its definition has its name, the name, and the directives on a way of
/// references from it. The last one is itself.
#[derive(Debug, Drop)]
pub struct DirectiveCircle<'d> {
    pub position: SourcePosition,
    pub name: &'d str,
    pub way: Vec<&'d str>,
}

/// The directives of a document that refer to themselves (section 3.13), in the order of their definitions, each with
/// one way.
///
/// A directive refers to the directives on its arguments and to the types of these. A type refers to the directives in
/// its definition and its extensions, and an input object to the types of its fields.
///
/// # Errors
///
/// Out of memory.
pub fn directive_circles<'d, 't>(
    alloc: Global,
    document: &'d [TypeSystemDefinition<'t>],
) -> Result<Vec<DirectiveCircle<'d>>, OutOfMemory>
    ensures all { IfOk result (λ v. AreCircles document.now (circle_values v.items)) }
    ensures none { IfOk result (λ v. (v.items ≡ []) ↔ HasNoDirectiveCircle document.now) }
{
    let references = references_in(alloc, document)?;
    circles_in(alloc, document, &references)
}

fn circles_in<'d, 't>(
    alloc: Global,
    document: &'d [TypeSystemDefinition<'t>],
    references: &References<'_>,
) -> Result<Vec<DirectiveCircle<'d>>, OutOfMemory>
    requires { HasReferences document.now references.now }
    ensures { IfOk result (λ v. AreCircles document.now (circle_values v.items)) }
{
    let ways = ways_of(alloc, references.nodes.as_slice())?;
    let mut circles = Vec::new(alloc);
    for definition in document {
        add_circle(alloc, document, references, &ways, definition, &mut circles)?;
    }
    Ok(circles)
}

// Appends the circle of a definition, if it is that of a directive that refers to itself.
fn add_circle<'d, 't>(
    alloc: Global,
    document: &'d [TypeSystemDefinition<'t>],
    references: &References<'_>,
    ways: &Ways,
    definition: &'d TypeSystemDefinition<'t>,
    circles: &mut Vec<DirectiveCircle<'d>>,
) -> Result<(), OutOfMemory>
    requires references { HasReferences document.now references.now }
    requires ways { LeadBack references.now.nodes.items ways.now }
    ensures { OnOk result (AddsCircles document.now (directive_of definition.now)
        (circle_values circles.old.items) (circle_values circles.new.items)) }
{
    if let TypeSystemDefinition::Directive(defined) = definition {
        if let Some(circle) = circle_of(alloc, document, references, ways, &defined.item)? {
            circles.push(circle)?;
        }
    }
    Ok(())
}

// The circle of a directive, if it refers to itself.
fn circle_of<'d, 't>(
    alloc: Global,
    document: &'d [TypeSystemDefinition<'t>],
    references: &References<'_>,
    ways: &Ways,
    defined: &'d DirectiveDefinition<'t>,
) -> Result<Option<DirectiveCircle<'d>>, OutOfMemory>
    requires references { HasReferences document.now references.now }
    requires ways { LeadBack references.now.nodes.items ways.now }
    ensures { IfOk result (λ told. IsToldOf document.now defined.now (option_map circle_value told)) }
{
    match place_of(&references.places, NameOf::Directive(defined.name.item)) {
        Some(root) => circle_from(alloc, document, references, ways, root, defined),
        None => Ok(None),
    }
}

// The circle of a directive at this place.
fn circle_from<'d, 't>(
    alloc: Global,
    document: &'d [TypeSystemDefinition<'t>],
    references: &References<'_>,
    ways: &Ways,
    root: usize,
    defined: &'d DirectiveDefinition<'t>,
) -> Result<Option<DirectiveCircle<'d>>, OutOfMemory>
    requires references { HasReferences document.now references.now }
    requires ways { LeadBack references.now.nodes.items ways.now }
    requires place { place_of references.now.places (directive_name defined.now) ≡ Some root }
    ensures { IfOk result (λ told. IsToldOf document.now defined.now (option_map circle_value told)) }
{
    let links = way_back(alloc, references.nodes.as_slice(), ways, root)?;
    match links {
        Some(links) => {
            let way = names_on(alloc, document, links.as_slice())?;
            Ok(Some(DirectiveCircle {
                position: defined.name.span.start,
                name: defined.name.item,
                way,
            }))
        }
        None => Ok(None),
    }
}

// The directives to which these links lead.
fn names_on<'d, 't>(
    alloc: Global,
    document: &'d [TypeSystemDefinition<'t>],
    links: &[Link],
) -> Result<Vec<&'d str>, OutOfMemory>
    ensures { IfOk result (λ v. list_copied v.items ≡ flat_map (link_told document.now) links.now) }
{
    let mut names = Vec::new(alloc);
    for link in links {
        add_name(&mut names, document, *link)?;
    }
    Ok(names)
}

fn add_name<'d, 't>(
    names: &mut Vec<&'d str>,
    document: &'d [TypeSystemDefinition<'t>],
    link: Link,
) -> Result<(), OutOfMemory>
    ensures { OnOk result (list_copied names.new.items ≡ list_copied names.old.items
        ++ link_told document.now link) }
{
    match document.get(link.edge.target) {
        Some(definition) => add_directive(names, definition),
        None => Ok(()),
    }
}

fn add_directive<'d, 't>(
    names: &mut Vec<&'d str>,
    definition: &'d TypeSystemDefinition<'t>,
) -> Result<(), OutOfMemory>
    ensures { OnOk result (list_copied names.new.items ≡ list_copied names.old.items
        ++ definition_told definition.now) }
{
    match definition {
        TypeSystemDefinition::Directive(defined) => {
            names.push(defined.item.name.item)?;
            Ok(())
        }
        TypeSystemDefinition::Schema(_) => Ok(()),
        TypeSystemDefinition::Type(_) => Ok(()),
    }
}

/// What is wrong, in a sentence without a period.
impl fmt::Display for DirectiveCircle<'_> {
    ghost output = { λ c. Some (circle_text c) };

    fn fmt<W: fmt::Write>(&self, f: &mut fmt::Formatter<W>) -> fmt::Result {
        let name = self.name;
        write!(f, "Directive @{name} refers to itself: @{name}")?;
        write_steps(f, self.way.as_slice())
    }
}

fn write_steps<W: fmt::Write>(f: &mut fmt::Formatter<W>, way: &[&str]) -> fmt::Result
    ensures { WritesOnOk W.write_str_gives f.old result (steps_text (list_copied way.now)) f.new }
{
    for name in way {
        write!(f, " -> @{name}")?;
    }
    Ok(())
}
