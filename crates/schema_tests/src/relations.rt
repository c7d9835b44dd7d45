//! Questions to the schema `pets`, each with its answer.
use crate::said::said;
use crate::schemas::{Schema, pets_schema};
use language_types::types::Type;
use language_values::value::DefaultScalarValue;
use meta::MetaType;
use samples::rows::written;
use schema::model::TypeType;
use std::alloc::Global;
use std::process::Abort;

type Shown<'a> = TypeType<'a, DefaultScalarValue>;

/// Lists of types and directives, possible types, subtypes, and types that are made: a question, and the answer.
const QUESTIONS: &str =
    r#"types: DogCommand ComplexInput PairInput Being Pet Boolean Int String Cat ComplicatedArgs Dog Human QueryRoot __Schema __Type CatOrDog DogOrHuman
concrete: String Boolean __Schema __Type Int DogCommand Being Pet Dog Cat Human CatOrDog DogOrHuman ComplexInput PairInput ComplicatedArgs QueryRoot
directives: deprecated include skip specifiedBy
possible CatOrDog: Cat Dog
possible Pet: Dog Cat
may_be Pet Dog: true
may_be Pet Human: false
overlap Being DogOrHuman: true
overlap CatOrDog Human: false
overlap Dog Dog: true
overlap Dog Cat: false
subtype Int! Int: true
subtype Int Int!: false
subtype Dog Pet: true
subtype Pet Dog: false
named_subtype Dog Pet: true
named_subtype Pet Dog: false
sized_subtype: true
subtype [Dog!]! [Pet]: true
make [Int!]!: [Int!]!
copy [Int!]!: [Int!]!
items [Int!]!: Int!
items Int!: no list
parts [Int!]: Int false false
parts Int: Int false true"#;

/// The names.
fn show_names(rt: &impl Abort, metas: Vec<&MetaType>, came: &mut String) {
    for meta in &metas {
        let name = meta.name().unwrap_or("?");
        write!(came, " {name}").expect(rt, "memory");
    }
}

/// The printed types.
fn show_types(rt: &impl Abort, alloc: Global, schema: &Schema, came: &mut String) {
    let types: Vec<Shown<'_>> = schema.type_list(alloc).expect(rt, "memory");
    for listed in &types {
        write!(came, " {listed}").expect(rt, "memory");
    }
}

/// The names of the directives.
pub fn show_directives(rt: &impl Abort, alloc: Global, schema: &Schema, came: &mut String) {
    let list = schema.directive_list(alloc).expect(rt, "memory");
    for directive in &list {
        let name = directive.name.as_str();
        write!(came, " {name}").expect(rt, "memory");
    }
}

/// The names of the possible types of the interface or union of this name.
fn show_possible(rt: &impl Abort, alloc: Global, schema: &Schema, name: &str, came: &mut String) {
    if let Some(meta) = schema.concrete_type_by_name(name) {
        if meta.is_abstract() {
            let types = schema.possible_types(alloc, meta).expect(rt, "memory");
            show_names(rt, types, came);
        }
    }
}

/// Whether the second name is that of a possible type of the first.
fn may_be(schema: &Schema, abstract_name: &str, name: &str) -> Option<bool> {
    let abstract_type = schema.concrete_type_by_name(abstract_name)?;
    let possible_type = schema.concrete_type_by_name(name)?;
    if !abstract_type.is_abstract() {
        return None;
    }
    Some(schema.is_possible_type(abstract_type, possible_type))
}

fn do_overlap(schema: &Schema, first: &str, second: &str) -> Option<bool> {
    let first = schema.concrete_type_by_name(first)?;
    let second = schema.concrete_type_by_name(second)?;
    Some(schema.type_overlap(first, second))
}

/// Whether one type is a subtype of the other, by references to types.
fn is_below(rt: &impl Abort, alloc: Global, schema: &Schema, sub: &str, super_type: &str) -> bool {
    let sub = written(alloc, sub).expect(rt, "memory");
    let super_type = written(alloc, super_type).expect(rt, "memory");
    schema.is_subtype(sub.as_borrowed(), super_type.as_borrowed())
}

/// `[Int]` with this expected size.
fn sized(rt: &impl Abort, alloc: Global, size: usize) -> Type {
    let item = Type::nullable(alloc, "Int").expect(rt, "memory");
    item.wrap_list(Some(size)).expect(rt, "memory")
}

/// Whether `[Int]` of size 2 is a subtype of `[Int]` of size 3.
fn is_sized_below(rt: &impl Abort, alloc: Global, schema: &Schema) -> bool {
    let two = sized(rt, alloc, 2);
    let three = sized(rt, alloc, 3);
    schema.is_subtype(two.as_borrowed(), three.as_borrowed())
}

/// The answer of a type that is made from a reference to a type: its printed form, that of a copy, or that of its
/// items; or the innermost type, whether the type is non-null, and whether it has no modifiers.
fn show_made(rt: &impl Abort, asked: &str, made: &Shown<'_>, came: &mut String) {
    let shown = match asked {
        "make" => write!(came, " {made}"),
        "copy" => write!(came, " {}", made.clone().expect(rt, "memory")),
        "items" => match made.list_contents() {
            Some(items) => write!(came, " {items}"),
            None => came.push_str(" no list"),
        },
        _ => {
            let name = made.innermost_concrete().name().unwrap_or("?");
            let (is_non_null, is_bare) = (made.is_non_null(), made.to_concrete().is_some());
            write!(came, " {name} {is_non_null} {is_bare}")
        }
    };
    shown.expect(rt, "memory");
}

fn show_written(
    rt: &impl Abort,
    alloc: Global,
    schema: &Schema,
    asked: &str,
    name: &str,
    came: &mut String,
) {
    let named = written(alloc, name).expect(rt, "memory");
    if schema.is_known(named.innermost_name()) {
        let made = schema.make_type(alloc, named.as_borrowed());
        show_made(rt, asked, &made.expect(rt, "memory"), came);
    }
}

fn shown(answer: Option<bool>) -> &'static str {
    match answer {
        Some(true) => " true",
        Some(false) => " false",
        None => " no such types",
    }
}

/// Appends the answer to a question of this word and these names or references to types.
fn answer(
    rt: &impl Abort,
    alloc: Global,
    schema: &Schema,
    asked: &str,
    first: &str,
    second: &str,
    came: &mut String,
) {
    let relation = match asked {
        "types" => return show_types(rt, alloc, schema, came),
        "concrete" => {
            let types = schema.concrete_type_list(alloc).expect(rt, "memory");
            return show_names(rt, types, came);
        }
        "directives" => return show_directives(rt, alloc, schema, came),
        "possible" => return show_possible(rt, alloc, schema, first, came),
        "may_be" => may_be(schema, first, second),
        "overlap" => do_overlap(schema, first, second),
        "subtype" => Some(is_below(rt, alloc, schema, first, second)),
        "named_subtype" => Some(schema.is_named_subtype(first, second)),
        "sized_subtype" => Some(is_sized_below(rt, alloc, schema)),
        _ => return show_written(rt, alloc, schema, asked, first, came),
    };
    came.push_str(shown(relation)).expect(rt, "memory");
}

#[test]
fn questions_are_answered(rt: HostRuntime) {
    let alloc = rt.alloc();
    let schema = pets_schema(&rt, alloc);
    for line in QUESTIONS.lines() {
        let question = line.split_once(':').unwrap_or((line, "")).0;
        let mut words = question.split(' ');
        let asked = words.next().unwrap_or("");
        let first = words.next().unwrap_or("");
        let second = words.next().unwrap_or("");
        let mut came = said(&rt, alloc, question);
        answer(&rt, alloc, &schema, asked, first, second, &mut came);
        assert_eq!(rt; came.as_str(), line);
    }
}
