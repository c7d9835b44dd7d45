//! Each request for memory refused in turn, where a schema is judged.
use graphql_reader::read_type_system;
use language_types::error::OutOfMemory;
use sdl_directives::STANDARD_DIRECTIVES;
use sdl_faults::{plain_text_faults, rest_of_text_faults, text_faults};
use sdl_mending::{Mended, Touched};
use sdl_reader::{PlacedFault, SchemaReadError, read_schema};
use std::alloc::Global;

/// Texts, and how many faults each has.
const TEXTS: [(&str, usize); 3] = [
    ("type Query { a(b: Int = 1): Int @deprecated }", 0),
    (
        "input A { b: B! } input B { a: A! = {} } type Query { a: Int @c }",
        3,
    ),
    (
        "directive @a(b: Int @a(b: true)) on ARGUMENT_DEFINITION type Query { a: Int }",
        2,
    ),
];

/// Run with each request for memory refused in turn, a schema has as many faults as expected, or out of memory comes.
#[test]
fn a_refused_request_hides_no_fault(rt: HostRuntime) {
    for (text, count) in TEXTS {
        assert!(rt; is_steady(fault_count(rt.alloc(), text), count));
    }
}

// Whether there are as many faults as expected, or memory ran out.
fn is_steady(found: Result<usize, SchemaReadError<'_>>, count: usize) -> bool {
    match found {
        Ok(found) => found == count,
        Err(SchemaReadError::OutOfMemory) => true,
        Err(_) => false,
    }
}

fn fault_count(alloc: Global, text: &str) -> Result<usize, SchemaReadError<'_>> {
    let document = read_type_system(alloc, text)?;
    let standard = read_type_system(alloc, STANDARD_DIRECTIVES)?;
    let schema = read_schema(alloc, text)?;
    let told = text_faults(alloc, document.as_slice(), standard.as_slice(), &schema)?;
    Ok(told.len())
}

/// Texts, and how many faults each has for which no schema is needed.
const PLAIN_TEXTS: [(&str, usize); 2] = [
    ("type Query { a: B } enum C { D } extend enum C { E }", 0),
    (
        "type Query implements I & I { __a: B @c } interface I extend interface I @d",
        5,
    ),
];

/// The same where no schema is made.
#[test]
fn a_refused_request_hides_no_plain_fault(rt: HostRuntime) {
    for (text, count) in PLAIN_TEXTS {
        assert!(rt; is_steady(plain_fault_count(rt.alloc(), text), count));
    }
}

fn plain_fault_count(alloc: Global, text: &str) -> Result<usize, SchemaReadError<'_>> {
    let document = read_type_system(alloc, text)?;
    let standard = read_type_system(alloc, STANDARD_DIRECTIVES)?;
    let told = plain_text_faults(alloc, document.as_slice(), standard.as_slice())?;
    Ok(told.len())
}

/// Texts that make no schema, and how many faults each has that the reasons for this don't touch.
const MENDED_TEXTS: [(&str, usize); 2] = [
    (
        "type Query { a: B @c } interface I { a: Int } type O implements I { b(c: Int = true): Int }",
        3,
    ),
    (
        "input A { b: B! } input B { a: A! } union C = D directive @e(a: F) on ENUM enum G { H H }",
        1,
    ),
];

/// The same of what is left of the text then.
#[test]
fn a_refused_request_hides_no_fault_of_the_rest(rt: HostRuntime) {
    for (text, count) in MENDED_TEXTS {
        assert!(rt; is_steady(rest_count(rt.alloc(), text), count));
    }
}

fn rest_count(alloc: Global, text: &str) -> Result<usize, SchemaReadError<'_>> {
    match read_schema(alloc, text) {
        Ok(_) => Ok(0),
        Err(SchemaReadError::Faults(reasons)) => {
            let count = rest_of(alloc, text, reasons.as_slice())?;
            Ok(count)
        }
        Err(error) => Err(error),
    }
}

fn rest_of<'t>(
    alloc: Global,
    text: &'t str,
    reasons: &'t [PlacedFault<'t>],
) -> Result<usize, OutOfMemory> {
    let Ok(document) = read_type_system(alloc, text) else {
        return Err(OutOfMemory);
    };
    let Ok(standard) = read_type_system(alloc, STANDARD_DIRECTIVES) else {
        return Err(OutOfMemory);
    };
    let (document, standard) = (document.as_slice(), standard.as_slice());
    let touched = Touched::by_reasons(alloc, document, reasons)?;
    match left_of(alloc, text, touched)? {
        Some(mended) => {
            let told = rest_of_text_faults(alloc, document, standard, &mended)?;
            Ok(told.len())
        }
        None => Ok(0),
    }
}

fn left_of<'t>(
    alloc: Global,
    text: &'t str,
    touched: Touched<'t>,
) -> Result<Option<Mended<'t>>, OutOfMemory> {
    match read_type_system(alloc, text) {
        Ok(document) => Mended::of_document(alloc, document, touched),
        Err(_) => Err(OutOfMemory),
    }
}
