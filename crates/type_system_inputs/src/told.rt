//! What is told of a circle.
ghost use Rattle.std.specs.Prelude.{◌≡◌, ◌<◌, IfOk, length, map};
ghost use Rattle.std.specs.List.{All};
ghost use Rattle.language_types.specs.References.{list_copied};
ghost use Rattle.type_system_inputs.specs.Graph.{IsFieldLink, IsFieldCircle, field_of};
ghost use Rattle.type_system_inputs.specs.Told.{circle_fields, circles_told, field_name};

use crate::circles::{InputCircle, RequiredField};
use crate::members::{input_fields, type_name};
use language_types::error::OutOfMemory;
use schema::meta::MetaTypeOf;
use std::alloc::Global;
use type_system_circles::Circle;
use type_system_circles::graph::Link;

/// The circles of these links, by names.
pub(crate) fn told_circles<'a, S, C>(
    alloc: Global,
    types: &[&'a MetaTypeOf<S, C>],
    circles: &[Circle],
) -> Result<Vec<InputCircle<'a>>, OutOfMemory>
    requires { All (IsFieldCircle (list_copied types.now)) circles.now }
    ensures { IfOk result (λ v. circles_told v
        ≡ map (λ c. map (field_of (list_copied types.now)) c.links.items) circles.now) }
{
    let mut told = Vec::with_capacity(alloc, circles.len())?;
    for circle in circles {
        told.push(told_circle(alloc, types, circle.links.as_slice())?)?;
    }
    Ok(told)
}

fn told_circle<'a, S, C>(
    alloc: Global,
    types: &[&'a MetaTypeOf<S, C>],
    links: &[Link],
) -> Result<InputCircle<'a>, OutOfMemory>
    requires some { 0 < length links.now }
    requires fields { All (IsFieldLink (list_copied types.now)) links.now }
    ensures { IfOk result (λ c. circle_fields c ≡ map (field_of (list_copied types.now)) links.now) }
{
    let first = told_field(types, links[0]);
    let others = told_fields(alloc, types, &links[1..])?;
    Ok(InputCircle { first, others })
}

fn told_fields<'a, S, C>(
    alloc: Global,
    types: &[&'a MetaTypeOf<S, C>],
    links: &[Link],
) -> Result<Vec<RequiredField<'a>>, OutOfMemory>
    requires { All (IsFieldLink (list_copied types.now)) links.now }
    ensures { IfOk result (λ v. map field_name v.items ≡ map (field_of (list_copied types.now)) links.now) }
{
    let mut fields = Vec::with_capacity(alloc, links.len())?;
    for link in links {
        fields.push(told_field(types, *link))?;
    }
    Ok(fields)
}

fn told_field<'a, S, C>(types: &[&'a MetaTypeOf<S, C>], link: Link) -> RequiredField<'a>
    requires { IsFieldLink (list_copied types.now) link }
    ensures { field_name result ≡ field_of (list_copied types.now) link }
{
    let meta = types[link.from];
    let field = &input_fields(meta)[link.edge.field];
    RequiredField {
        of: type_name(meta),
        name: field.name.as_str(),
    }
}
