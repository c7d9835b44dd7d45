//! Lists that are accepted, with the roots of their schemas, and lists that are refused.
use crate::said::said;
use crate::schemas::{Schema, demo_types, input_check, pets_types, schema_of};
use language_types::error::OutOfMemory;
use language_types::types::Type;
use language_values::value::DefaultScalarValue;
use meta::{InputObjectMetaOf, InterfaceMeta, ListMeta, MetaType};
use samples::build::{argument, object, own_fields, union_of};
use samples::documents::alone;
use samples::rows::{ObjectRow, add_interfaces, add_objects, add_unions};
use schema::model::TypeType;
use std::alloc::Global;
use std::process::Abort;

/// The list, the type that is left out, what is added, for which type, the names of the three roots, and the result:
/// the error and how it prints, or the roots of the schema.
///
/// Added is `List`, a list type, which has no name; `Dog`, an object with a name; `DogForDog`, the same, where the
/// field
/// `name` takes a `Dog`; `Friends`, an interface and a union of it; or a union, an object, an interface or an input
/// object that refers to the type.
const ROWS: &str =
    r#"demo - Nothing - QueryRoot _EmptyMutation _EmptySubscription: QueryRoot none none
demo - Nothing - QueryRoot Dog _EmptySubscription: QueryRoot Dog none
demo - Nothing - QueryRoot _EmptyMutation Dog: QueryRoot none Dog
demo - Nothing - Dog QueryRoot String: Dog QueryRoot String
demo - Nothing - QueryRoot Nope _EmptySubscription: MissingRoot("Nope"), the root type "Nope" is not listed
demo - Nothing - QueryRoot _EmptyMutation Nope: MissingRoot("Nope"), the root type "Nope" is not listed
demo - Nothing - QueryRoot _EmptySubscription _EmptySubscription: MissingRoot("_EmptySubscription"), the root type "_EmptySubscription" is not listed
demo __Type Nothing - QueryRoot _EmptyMutation _EmptySubscription: UnknownType("__Type"), the type "__Type" is not listed
demo - Nothing - Nope _EmptyMutation _EmptySubscription: MissingRoot("Nope"), the root type "Nope" is not listed
demo - Nothing - String _EmptyMutation _EmptySubscription: QueryNotObject, the query root is not an object
demo - Dog - QueryRoot _EmptyMutation _EmptySubscription: RepeatedType("Dog"), two listed types are named "Dog"
demo Dog DogForDog - QueryRoot _EmptyMutation _EmptySubscription: NotInputType("Dog"), the type "Dog" is not an input type
demo - List - QueryRoot _EmptyMutation _EmptySubscription: UnnamedType, a listed type has no name
demo - Friends - QueryRoot _EmptyMutation _EmptySubscription: UnionMemberNotObject("Friend"), the union member "Friend" is not an object
demo - UnionOf Nope QueryRoot _EmptyMutation _EmptySubscription: UnknownType("Nope"), the type "Nope" is not listed
demo - ObjectOf Nope QueryRoot _EmptyMutation _EmptySubscription: UnknownType("Nope"), the type "Nope" is not listed
demo - InterfaceOf Nope QueryRoot _EmptyMutation _EmptySubscription: UnknownType("Nope"), the type "Nope" is not listed
demo - InputOf Nope QueryRoot _EmptyMutation _EmptySubscription: UnknownType("Nope"), the type "Nope" is not listed
demo - InputOf Dog QueryRoot _EmptyMutation _EmptySubscription: NotInputType("Dog"), the type "Dog" is not an input type
demo - InputOf String QueryRoot _EmptyMutation _EmptySubscription: QueryRoot none none
pets - Nothing - QueryRoot _EmptyMutation _EmptySubscription: QueryRoot none none
pets Boolean Nothing - QueryRoot _EmptyMutation _EmptySubscription: UnknownType("Boolean"), the type "Boolean" is not listed
pets - UnionOf Pet QueryRoot _EmptyMutation _EmptySubscription: UnionMemberNotObject("Pet"), the union member "Pet" is not an object"#;

const DOG: [ObjectRow; 1] = [("Dog", &[], &[("name", "String", &[])])];

const DOG_FOR_DOG: [ObjectRow; 1] = [("Dog", &[], &[("name", "String", &[("x", "Dog")])])];

/// The list of the type of this name.
pub fn one_type(alloc: Global, name: &str) -> Result<Vec<Type>, OutOfMemory> {
    alone(alloc, Type::nullable(alloc, name)?)
}

/// An interface `Friend` that lists this one.
fn interface_of(alloc: Global, interface: &str) -> Result<MetaType, OutOfMemory> {
    let interfaces = one_type(alloc, interface)?;
    let friend = InterfaceMeta::new(alloc, "Friend", Vec::new(alloc))?;
    Ok(friend.interfaces(interfaces)?.into_meta())
}

/// An input object `Pair` with a field of the type of the name.
fn input_of(alloc: Global, type_name: &str) -> Result<MetaType, OutOfMemory> {
    let fields = alone(alloc, argument(alloc, "x", type_name)?)?;
    Ok(InputObjectMetaOf::with_check(alloc, "Pair", fields, input_check())?.into_meta())
}

fn list(alloc: Global) -> Result<MetaType, OutOfMemory> {
    Ok(ListMeta::new(Type::non_null(alloc, "String")?, None).into_meta())
}

fn push(types: &mut Vec<MetaType>, meta: MetaType) -> Result<(), OutOfMemory> {
    Ok(types.push(meta)?)
}

fn add_friends(alloc: Global, types: &mut Vec<MetaType>) -> Result<(), OutOfMemory> {
    add_interfaces(alloc, types, &[("Friend", &[])])?;
    add_unions(alloc, types, &[("Friends", &["Friend"])])
}

/// Adds this to the list.
fn add(
    alloc: Global,
    types: &mut Vec<MetaType>,
    more: &str,
    name: &str,
) -> Result<(), OutOfMemory> {
    match more {
        "List" => push(types, list(alloc)?),
        "Dog" => add_objects(alloc, types, &DOG),
        "DogForDog" => add_objects(alloc, types, &DOG_FOR_DOG),
        "Friends" => add_friends(alloc, types),
        "UnionOf" => push(types, union_of(alloc, "Pets", &[name])?),
        "ObjectOf" => push(types, object(alloc, "Puppy", &[name], own_fields(alloc)?)?),
        "InterfaceOf" => push(types, interface_of(alloc, name)?),
        "InputOf" => push(types, input_of(alloc, name)?),
        _ => Ok(()),
    }
}

/// The list of the name, without a type and with what is added.
fn changed(
    rt: &impl Abort,
    alloc: Global,
    sample: &str,
    without: &str,
    more: &str,
    name: &str,
) -> Vec<MetaType> {
    let types = if sample == "demo" {
        demo_types(alloc)
    } else {
        pets_types(alloc)
    };
    let mut types = types.expect(rt, "the list");
    types.retain(|meta| meta.name() != Some(without));
    add(alloc, &mut types, more, name).expect(rt, "memory");
    types
}

/// Appends a root: its printed form, which is the name of its metadata, or both.
fn show_root(
    rt: &impl Abort,
    root: Option<TypeType<'_, DefaultScalarValue>>,
    meta: Option<&MetaType>,
    alloc: Global,
    came: &mut String,
) {
    let name = match meta {
        Some(meta) => meta.name().unwrap_or("?"),
        None => "none",
    };
    let mut printed = String::new(alloc);
    let shown = match root {
        Some(root) => write!(printed, "{root}"),
        None => printed.push_str("none"),
    };
    shown.expect(rt, "memory");
    assert_eq!(rt; printed.as_str(), name);
    write!(came, " {name}").expect(rt, "memory");
}

/// Appends the roots of the schema.
fn show_roots(rt: &impl Abort, alloc: Global, schema: &Schema, came: &mut String) {
    let query = Some(schema.concrete_query_type());
    show_root(rt, Some(schema.query_type()), query, alloc, came);
    let mutation = schema.concrete_mutation_type();
    show_root(rt, schema.mutation_type(), mutation, alloc, came);
    let subscription = schema.concrete_subscription_type();
    show_root(rt, schema.subscription_type(), subscription, alloc, came);
}

#[test]
fn lists_are_accepted_or_refused_by_name(rt: HostRuntime) {
    let alloc = rt.alloc();
    for line in ROWS.lines() {
        let row = line.split_once(':').unwrap_or((line, "")).0;
        let mut words = row.split(' ');
        let sample = words.next().unwrap_or("");
        let without = words.next().unwrap_or("");
        let more = words.next().unwrap_or("");
        let name = words.next().unwrap_or("");
        let types = changed(&rt, alloc, sample, without, more, name);
        let query = words.next().unwrap_or("");
        let mutation = words.next().unwrap_or("");
        let subscription = words.next().unwrap_or("");
        let mut came = said(&rt, alloc, row);
        match schema_of(alloc, types, query, mutation, subscription) {
            Ok(schema) => show_roots(&rt, alloc, &schema, &mut came),
            Err(refused) => write!(came, " {refused:?}, {refused}").expect(&rt, "memory"),
        }
        assert_eq!(rt; came.as_str(), line);
    }
}
