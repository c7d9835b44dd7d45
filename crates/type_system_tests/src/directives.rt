//! Directives that have no location.
use crate::told::tells;
use language_types::error::OutOfMemory;
use samples::build::argument;
use schema::model::{DirectiveLocation, DirectiveType};
use std::alloc::Global;
use std::process::Abort;
use type_system::directive_faults;

fn directive(
    alloc: Global,
    name: &str,
    locations: Vec<DirectiveLocation>,
) -> Result<DirectiveType, OutOfMemory> {
    let mut arguments = Vec::new(alloc);
    arguments.push(argument(alloc, "f", "String")?)?;
    DirectiveType::new(alloc, name, locations, arguments, false)
}

// Asserts that a directive with these locations has these faults, a line for each.
fn judge(rt: &impl Abort, alloc: Global, locations: Vec<DirectiveLocation>, want: &str) {
    let directive = directive(alloc, "even", locations).expect(rt, "memory");
    let faults = directive_faults(alloc, &directive).expect(rt, "memory");
    tells(rt, alloc, faults.as_slice(), want);
}

#[test]
fn directives_have_locations(rt: HostRuntime) {
    let alloc = rt.alloc();
    let mut locations = Vec::new(alloc);
    locations
        .push(DirectiveLocation::Field)
        .expect(&rt, "memory");
    judge(&rt, alloc, locations, "");
    judge(
        &rt,
        alloc,
        Vec::new(alloc),
        "@even: Directive @even must include one or more locations\n",
    );
}
