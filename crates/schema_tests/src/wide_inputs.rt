//! Input objects with few and with many fields: a look-up finds the first field of a name.
use crate::said::says;
use crate::schemas::{Schema, input_check, pets_types, schema_of_queries};
use language_values::value::DefaultScalarValue;
use meta::{Argument, InputObjectMetaOf, MetaType};
use samples::build::argument;
use std::alloc::{AllocError, Global};
use std::process::Abort;

/// Fields in no order; some names repeat, each time with another description.
const MIXED: [(&str, &str); 9] = [
    ("m", "first"),
    ("b", "second"),
    ("m", "third"),
    ("z", "fourth"),
    ("a", "fifth"),
    ("b", "sixth"),
    ("mm", "seventh"),
    ("Z", "eighth"),
    ("m", "ninth"),
];

/// The number of distinct names of the numbered fields.
const NAMES: usize = 40;

type InputField = Argument<DefaultScalarValue>;

/// A field of this name with this description.
fn described(rt: &impl Abort, alloc: Global, name: &str, text: &str) -> InputField {
    argument(alloc, name, "Int")
        .expect(rt, "memory")
        .description(text)
        .expect(rt, "memory")
}

/// A field of this number, whose description contains its index.
fn numbered(rt: &impl Abort, alloc: Global, number: usize, place: usize) -> InputField {
    let name = format!(in alloc; "f{number}").expect(rt, "memory");
    let text = format!(in alloc; "at {place}").expect(rt, "memory");
    described(rt, alloc, name.as_str(), text.as_str())
}

/// The first `count` of the mixed fields.
fn mixed(rt: &impl Abort, alloc: Global, count: usize) -> Vec<InputField> {
    let mut fields = Vec::new(alloc);
    for (name, text) in &MIXED[..count.min(MIXED.len())] {
        fields
            .push(described(rt, alloc, name, text))
            .expect(rt, "memory");
    }
    fields
}

/// Each of the names by sevens, and then each again.
fn twice(rt: &impl Abort, alloc: Global) -> Vec<InputField> {
    let mut fields = Vec::new(alloc);
    for place in 0..2 * NAMES {
        fields
            .push(numbered(rt, alloc, place * 7 % NAMES, place))
            .expect(rt, "memory");
    }
    fields
}

/// A schema with an input object of these fields.
fn schema_with(rt: &impl Abort, alloc: Global, fields: Vec<InputField>) -> Schema {
    let mut types = pets_types(alloc).expect(rt, "the list");
    let object: MetaType = InputObjectMetaOf::with_check(alloc, "Wide", fields, input_check())
        .expect(rt, "memory")
        .into_meta();
    types.push(object).expect(rt, "memory");
    schema_of_queries(alloc, types).expect(rt, "a schema")
}

/// The description of the field that the look-up finds.
fn found<'s>(schema: &'s Schema, name: &str, key: &str) -> &'s str {
    let Some(meta) = schema.concrete_type_by_name(name) else {
        return "no type";
    };
    match meta.input_field_by_name(key) {
        Some(field) => match &field.description {
            Some(text) => text.as_str(),
            None => "undescribed",
        },
        None => "none",
    }
}

/// Each key, and the description of the field that the look-up finds, on a line.
fn found_each(
    alloc: Global,
    schema: &Schema,
    name: &str,
    keys: &str,
) -> Result<String, AllocError> {
    let mut told = String::new(alloc);
    for key in keys.split(' ') {
        writeln!(told, "{key} {}", found(schema, name, key))?;
    }
    Ok(told)
}

/// Of these fields the look-up finds those.
fn finds(rt: &impl Abort, alloc: Global, fields: Vec<InputField>, keys: &str, want: &str) {
    let schema = schema_with(rt, alloc, fields);
    says(rt, found_each(alloc, &schema, "Wide", keys), want);
    says(rt, found_each(alloc, &schema, "Dog", "name"), "name none\n");
}

/// Whether the look-up finds of each numbered name the first field.
fn finds_numbered(alloc: Global, schema: &Schema) -> Result<bool, AllocError> {
    for place in 0..NAMES {
        let key = format!(in alloc; "f{}", place * 7 % NAMES)?;
        let want = format!(in alloc; "at {place}")?;
        if found(schema, "Wide", key.as_str()) != want.as_str() {
            return Ok(false);
        }
    }
    Ok(true)
}

#[test]
fn of_mixed_fields_the_first_of_a_name_is_found(rt: HostRuntime) {
    let alloc = rt.alloc();
    finds(
        &rt,
        alloc,
        mixed(&rt, alloc, 4),
        "b m z a",
        "b second\nm first\nz fourth\na none\n",
    );
    // One of the keys is empty.
    finds(
        &rt,
        alloc,
        mixed(&rt, alloc, 9),
        "a b m mm z Z  A ma zz",
        "a fifth\nb second\nm first\nmm seventh\nz fourth\nZ eighth\n none\nA none\nma none\nzz none\n",
    );
}

#[test]
fn of_many_fields_the_first_of_a_name_is_found(rt: HostRuntime) {
    let alloc = rt.alloc();
    let schema = schema_with(&rt, alloc, twice(&rt, alloc));
    assert!(rt; finds_numbered(alloc, &schema).expect(&rt, "memory"));
    says(
        &rt,
        found_each(alloc, &schema, "Wide", "f40 f"),
        "f40 none\nf none\n",
    );
}
