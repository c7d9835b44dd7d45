//! The faults of what is left of a text that makes no schema.
ghost use Rattle.std.specs.Prelude.{◌≡◌, ◌++◌, ◌∷◌, [], IfOk, OnOk, filter, map};
ghost use Rattle.std.specs.List.{list_any};
ghost use Rattle.sdl_faults.specs.Apart.{AreApartFaults, AreCompared, is_apart, is_comparison, named_in, type_at};
ghost use Rattle.sdl_faults.specs.Told.{Adds, told_fault, told_values};
ghost use Rattle.sdl_mending.specs.Touched.{has_type};
ghost use Rattle.type_system_report.specs.Fault.{coordinate_value, fault_value, kind_value, reported};

use crate::all::{add_circles, add_defaults};
use crate::directives::add_given;
use crate::located::LocatedFault;
use crate::telling::tell_each;
use graphql_reader::type_system::TypeSystemDefinition;
use language_types::error::OutOfMemory;
use sdl_mending::{Mended, Touched};
use std::alloc::Global;
use type_system::schema_faults;
use type_system_report::{Coordinate, CoordinateOf, Fault, FaultKind, FaultKindOf};

/// Appends the faults of what is left that hang on several definitions, none of which is of a touched type.
pub(crate) fn add_apart_faults<'d, 't>(
    alloc: Global,
    mended: &'d Mended<'t>,
    standard: &'d [TypeSystemDefinition<'t>],
    told: &mut Vec<LocatedFault>,
) -> Result<(), OutOfMemory>
    ensures { OnOk result (Adds (AreApartFaults mended.now standard.now) told.old.items told.new.items) }
{
    let document = mended.document.as_slice();
    add_compared(alloc, mended, told)?;
    add_circles(alloc, document, &mended.schema, told)?;
    add_defaults(alloc, document, &mended.schema, told)?;
    add_given(alloc, document, standard, &mended.schema, told)
}

fn add_compared(
    alloc: Global,
    mended: &Mended<'_>,
    told: &mut Vec<LocatedFault>,
) -> Result<(), OutOfMemory>
    ensures { OnOk result (Adds (AreCompared mended.now) told.old.items told.new.items) }
{
    let faults = schema_faults(alloc, &mended.schema)?;
    let apart = apart_of(alloc, &mended.touched, faults.as_slice())?;
    tell_all(alloc, mended, apart.as_slice(), told)
}

fn tell_all(
    alloc: Global,
    mended: &Mended<'_>,
    faults: &[Fault<'_>],
    told: &mut Vec<LocatedFault>,
) -> Result<(), OutOfMemory>
    ensures { OnOk result (told_values told.new.items ≡ told_values told.old.items
        ++ map (told_fault mended.now.document.items) (map fault_value faults.now)) }
{
    tell_each(alloc, mended.document.as_slice(), faults, told)
}

fn apart_of<'a>(
    alloc: Global,
    touched: &Touched<'_>,
    faults: &[Fault<'a>],
) -> Result<Vec<Fault<'a>>, OutOfMemory>
    ensures { IfOk result (λ v. reported v ≡ filter (is_apart (has_type touched.now)) (map fault_value faults.now)) }
{
    let mut apart = Vec::new(alloc);
    for fault in faults {
        add_if_apart(touched, *fault, &mut apart)?;
    }
    Ok(apart)
}

fn add_if_apart<'a>(
    touched: &Touched<'_>,
    fault: Fault<'a>,
    apart: &mut Vec<Fault<'a>>,
) -> Result<(), OutOfMemory>
    ensures { OnOk result (reported apart.new ≡ reported apart.old
        ++ filter (is_apart (has_type touched.now)) (fault_value fault.entry ∷ [])) }
{
    if is_apart(touched, &fault) {
        apart.push(fault)?;
    }
    Ok(())
}

fn is_apart(touched: &Touched<'_>, fault: &Fault<'_>) -> bool
    ensures { result ≡ is_apart (has_type touched.now) (fault_value fault.now) }
{
    is_comparison(&fault.kind)
        && !is_at_touched(touched, fault.coordinate)
        && !names_touched(touched, &fault.kind)
}

fn is_at_touched(touched: &Touched<'_>, at: Coordinate<'_>) -> bool
    ensures { result ≡ list_any (has_type touched.now) (type_at (coordinate_value at.entry)) }
{
    match at {
        CoordinateOf::Type(of) => touched.has_type(of),
        CoordinateOf::Field(of, _) => touched.has_type(of),
        CoordinateOf::Argument(of, _, _) => touched.has_type(of),
        CoordinateOf::EnumValue(of, _) => touched.has_type(of),
        CoordinateOf::Directive(_) => false,
        CoordinateOf::DirectiveArgument(_, _) => false,
    }
}

fn is_comparison(kind: &FaultKind<'_>) -> bool
    ensures { result ≡ is_comparison (kind_value kind.now) }
{
    matches!(
        kind,
        FaultKindOf::SharedRoot(_, _)
            | FaultKindOf::NotOutputType(_)
            | FaultKindOf::NotInterface(_)
            | FaultKindOf::MissingAncestor(_, _)
            | FaultKindOf::CircularInterface(_)
            | FaultKindOf::MissingField(_)
            | FaultKindOf::WrongFieldType(_, _, _)
            | FaultKindOf::MissingArgument(_)
            | FaultKindOf::WrongArgumentType(_, _, _)
            | FaultKindOf::AddedArgument(_)
    )
}

fn names_touched(touched: &Touched<'_>, kind: &FaultKind<'_>) -> bool
    ensures { result ≡ list_any (has_type touched.now) (named_in (kind_value kind.now)) }
{
    match kind {
        FaultKindOf::NotOutputType(t) => touched.has_type(t.innermost_name()),
        FaultKindOf::NotInterface(name) => touched.has_type(name),
        FaultKindOf::MissingAncestor(name, by) => touched.has_type(name) || touched.has_type(by),
        FaultKindOf::CircularInterface(name) => touched.has_type(name),
        FaultKindOf::MissingField(wanted) => is_at_touched(touched, *wanted),
        FaultKindOf::WrongFieldType(wanted, t, u) => {
            is_at_touched(touched, *wanted)
                || touched.has_type(t.innermost_name())
                || touched.has_type(u.innermost_name())
        }
        FaultKindOf::MissingArgument(wanted) => is_at_touched(touched, *wanted),
        FaultKindOf::WrongArgumentType(wanted, t, u) => {
            is_at_touched(touched, *wanted)
                || touched.has_type(t.innermost_name())
                || touched.has_type(u.innermost_name())
        }
        FaultKindOf::AddedArgument(wanted) => is_at_touched(touched, *wanted),
        _ => false,
    }
}
