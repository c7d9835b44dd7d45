//! The printed forms of directive locations, and of the error that no list of types is told.
use crate::said::says;
use schema::error::SchemaError;
use schema::model::DirectiveLocation;

/// Each location, and its printed form.
const PLACES: [(DirectiveLocation, &str); 11] = [
    (DirectiveLocation::Query, "query"),
    (DirectiveLocation::Mutation, "mutation"),
    (DirectiveLocation::Subscription, "subscription"),
    (DirectiveLocation::Field, "field"),
    (DirectiveLocation::Scalar, "scalar"),
    (DirectiveLocation::FragmentDefinition, "fragment definition"),
    (DirectiveLocation::FieldDefinition, "field definition"),
    (DirectiveLocation::VariableDefinition, "variable definition"),
    (DirectiveLocation::FragmentSpread, "fragment spread"),
    (DirectiveLocation::InlineFragment, "inline fragment"),
    (DirectiveLocation::EnumValue, "enum value"),
];

#[test]
fn places_are_printed_in_words(rt: HostRuntime) {
    let alloc = rt.alloc();
    for (place, words) in &PLACES {
        says(&rt, place.to_string(alloc), words);
        let copy = place.clone().expect(&rt, "a copy");
        says(&rt, copy.to_string(alloc), words);
    }
}

/// The other errors are printed where lists are refused.
#[test]
fn out_of_memory_is_printed(rt: HostRuntime) {
    says(
        &rt,
        SchemaError::OutOfMemory.to_string(rt.alloc()),
        "out of memory",
    );
}
