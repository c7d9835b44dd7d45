//! Metadata: each call that allocates, by its result.
use crate::builder::one_type;
use crate::said::{says, words};
use language_types::types::Type;
use language_values::value::{DefaultScalarValue, InputValue};
use meta::check::CheckedScalar;
use meta::default_check::DefaultCheck;
use meta::{
    Argument, DeprecationStatus, EnumMetaOf, EnumValue, Field, InputObjectMetaOf, InterfaceMeta,
    ListMeta, MetaType, NullableMeta, ObjectMeta, ScalarMetaOf, TypeKind, UnionMeta,
};
use samples::build::{argument, field};
use samples::checks::{check_string, refuse_token};
use samples::documents::alone;
use schema::model::{DirectiveLocation, DirectiveType};
use std::alloc::{AllocError, Global};
use std::process::Abort;

type FieldMeta = Field<DefaultScalarValue>;

/// The field with an argument of this type.
fn with_x(rt: &impl Abort, alloc: Global, field: FieldMeta, type_name: &str) -> FieldMeta {
    let x = argument(alloc, "x", type_name).expect(rt, "memory");
    field.argument(x).expect(rt, "memory")
}

/// A field whose description was set twice.
fn described_field(rt: &impl Abort, alloc: Global) -> FieldMeta {
    let plain = field(alloc, "name", "String").expect(rt, "memory");
    let once = plain.description("first").expect(rt, "memory");
    once.description("second").expect(rt, "memory")
}

/// A field with everything set, the description and the argument twice.
fn full_field(rt: &impl Abort, alloc: Global) -> FieldMeta {
    let once = with_x(rt, alloc, described_field(rt, alloc), "String");
    let twice = with_x(rt, alloc, once, "Int");
    twice.deprecated(Some("old")).expect(rt, "memory")
}

/// An argument with everything set.
fn full_argument(rt: &impl Abort, alloc: Global) -> Argument<DefaultScalarValue> {
    let plain = argument(alloc, "x", "Int").expect(rt, "memory");
    let one = InputValue::Scalar(DefaultScalarValue::Int(1));
    plain
        .description("a number")
        .expect(rt, "memory")
        .default_value(one)
}

/// An enum value with everything set.
fn full_value(rt: &impl Abort, alloc: Global) -> EnumValue {
    let plain = EnumValue::new(alloc, "SIT").expect(rt, "memory");
    plain
        .description("down")
        .expect(rt, "memory")
        .deprecated(None)
        .expect(rt, "memory")
}

fn scalar(rt: &impl Abort, alloc: Global) -> MetaType {
    let plain = ScalarMetaOf::new(alloc, "String", check_string, refuse_token);
    let described = plain
        .expect(rt, "memory")
        .description("text")
        .expect(rt, "memory");
    described
        .specified_by_url("https://example.com")
        .expect(rt, "memory")
        .into_meta()
}

fn enumeration(rt: &impl Abort, alloc: Global) -> MetaType {
    let values = alone(alloc, full_value(rt, alloc)).expect(rt, "memory");
    let plain = EnumMetaOf::new(alloc, "Command", values, check_string).expect(rt, "memory");
    plain
        .description("what a dog does")
        .expect(rt, "memory")
        .into_meta()
}

fn input(rt: &impl Abort, alloc: Global) -> MetaType {
    let fields = alone(alloc, full_argument(rt, alloc)).expect(rt, "memory");
    let plain = InputObjectMetaOf::new(alloc, "Pair", fields, check_string).expect(rt, "memory");
    plain.description("a pair").expect(rt, "memory").into_meta()
}

/// The list of the type `Being`.
fn beings(rt: &impl Abort, alloc: Global) -> Vec<Type> {
    one_type(alloc, "Being").expect(rt, "memory")
}

fn interface(rt: &impl Abort, alloc: Global) -> MetaType {
    let plain = InterfaceMeta::new(alloc, "Pet", Vec::new(alloc)).expect(rt, "memory");
    let listing = plain.interfaces(beings(rt, alloc)).expect(rt, "memory");
    listing
        .description("a pet")
        .expect(rt, "memory")
        .into_meta()
}

fn object(rt: &impl Abort, alloc: Global) -> MetaType {
    let plain = ObjectMeta::new(alloc, "Dog", Vec::new(alloc)).expect(rt, "memory");
    let listing = plain.interfaces(beings(rt, alloc)).expect(rt, "memory");
    listing
        .description("a dog")
        .expect(rt, "memory")
        .into_meta()
}

fn union_of_beings(rt: &impl Abort, alloc: Global) -> MetaType {
    let plain = UnionMeta::new(alloc, "Beings", beings(rt, alloc)).expect(rt, "memory");
    plain
        .description("all that lives")
        .expect(rt, "memory")
        .into_meta()
}

/// Asserts that the metadata has this name, this description and this URL.
fn shows(rt: &impl Abort, alloc: Global, meta: MetaType, want: &str) {
    let name = meta.name().unwrap_or("none");
    let description = meta.description().unwrap_or("none");
    let address = meta.specified_by_url().unwrap_or("none");
    says(
        rt,
        format!(in alloc; "{name} {description} {address}"),
        want,
    );
}

fn shown(text: &Option<String>) -> &str {
    match text {
        Some(text) => text.as_str(),
        None => "none",
    }
}

/// The name, the description and the default value.
fn argument_text(alloc: Global, made: &Argument<DefaultScalarValue>) -> Result<String, AllocError> {
    let (name, description) = (made.name.as_str(), shown(&made.description));
    match &made.default_value {
        Some(value) => format!(in alloc; "{name} {description} {value}"),
        None => format!(in alloc; "{name} {description} none"),
    }
}

/// The texts of the field `x` of the input object.
fn input_text(alloc: Global, meta: &MetaType) -> Result<String, AllocError> {
    match meta.input_field_by_name("x") {
        Some(field) => argument_text(alloc, field),
        None => words(alloc, "no field"),
    }
}

#[test]
fn every_kind_is_made(rt: HostRuntime) {
    let alloc = rt.alloc();
    shows(
        &rt,
        alloc,
        scalar(&rt, alloc),
        "String text https://example.com",
    );
    shows(
        &rt,
        alloc,
        enumeration(&rt, alloc),
        "Command what a dog does none",
    );
    says(&rt, input_text(alloc, &input(&rt, alloc)), "x a number 1");
    shows(&rt, alloc, interface(&rt, alloc), "Pet a pet none");
    shows(&rt, alloc, object(&rt, alloc), "Dog a dog none");
    shows(
        &rt,
        alloc,
        union_of_beings(&rt, alloc),
        "Beings all that lives none",
    );
}

/// Asserts that the type of the metadata prints this text.
fn prints(rt: &impl Abort, alloc: Global, meta: MetaType, want: &str) {
    let made = meta.as_type(alloc).expect(rt, "memory");
    says(rt, made.to_string(alloc), want);
}

fn int(rt: &impl Abort, alloc: Global) -> Type {
    Type::non_null(alloc, "Int").expect(rt, "memory")
}

#[test]
fn types_are_printed(rt: HostRuntime) {
    let alloc = rt.alloc();
    let list = MetaType::List(ListMeta::new(int(&rt, alloc), Some(2)));
    prints(&rt, alloc, list, "[Int!]!");
    let nullable = MetaType::Nullable(NullableMeta::new(int(&rt, alloc)));
    prints(&rt, alloc, nullable, "Int");
}

/// The name, the description, the number of arguments, and the reason of the deprecation.
fn field_text(alloc: Global, field: &FieldMeta) -> Result<String, AllocError> {
    let arguments = match &field.arguments {
        Some(list) => list.len(),
        None => 0,
    };
    let (name, description) = (field.name.as_str(), shown(&field.description));
    let reason = field.deprecation_status.reason().unwrap_or("none");
    format!(in alloc; "{name} {description} {arguments} {reason}")
}

/// The name, the description, and whether the value is deprecated.
fn value_text(alloc: Global, value: &EnumValue) -> Result<String, AllocError> {
    let (name, description) = (value.name.as_str(), shown(&value.description));
    let is_deprecated = value.deprecation_status.is_deprecated();
    format!(in alloc; "{name} {description} {is_deprecated}")
}

#[test]
fn fields_keep_what_is_set(rt: HostRuntime) {
    let alloc = rt.alloc();
    let made = full_field(&rt, alloc);
    says(&rt, field_text(alloc, &made), "name second 2 old");
    let copy = made.clone().expect(&rt, "memory");
    says(&rt, field_text(alloc, &copy), "name second 2 old");
}

#[test]
fn enum_values_are_copied(rt: HostRuntime) {
    let alloc = rt.alloc();
    let value = full_value(&rt, alloc);
    says(&rt, value_text(alloc, &value), "SIT down true");
    let copy = value.clone().expect(&rt, "memory");
    says(&rt, value_text(alloc, &copy), "SIT down true");
}

#[test]
fn arguments_are_copied(rt: HostRuntime) {
    let alloc = rt.alloc();
    let copy = full_argument(&rt, alloc).clone().expect(&rt, "memory");
    says(&rt, argument_text(alloc, &copy), "x a number 1");
}

#[test]
fn copies_are_the_same(rt: HostRuntime) {
    let kind = TypeKind::InputObject.clone().expect(&rt, "a copy");
    assert_eq!(rt; kind, TypeKind::InputObject);
    let current = DeprecationStatus::Current.clone().expect(&rt, "a copy");
    assert_eq!(rt; current, DeprecationStatus::Current);
    let old = words(rt.alloc(), "old").expect(&rt, "memory");
    let old = DeprecationStatus::Deprecated(Some(old));
    let copy = old.clone().expect(&rt, "memory");
    assert_eq!(rt; copy, old);
}

/// The answer of the check to null.
fn said_by(alloc: Global, check: &DefaultCheck) -> Result<String, AllocError> {
    match <DefaultScalarValue as CheckedScalar>::run_check(check, alloc, &InputValue::Null) {
        Ok(()) => words(alloc, "accepted"),
        Err(refused) => refused.to_string(alloc),
    }
}

/// The answer of the check of the scalar to null.
fn said_of_null(alloc: Global, meta: &MetaType) -> Result<String, AllocError> {
    match meta.input_value_parse_fn() {
        Some(check) => said_by(alloc, check),
        None => words(alloc, "no check"),
    }
}

fn directive(rt: &impl Abort, alloc: Global) -> DirectiveType<DefaultScalarValue> {
    let locations = alone(alloc, DirectiveLocation::Query).expect(rt, "memory");
    let plain = DirectiveType::new(alloc, "flag", locations, Vec::new(alloc), true);
    plain
        .expect(rt, "memory")
        .description("marks")
        .expect(rt, "memory")
}

/// The name, the description, and whether the directive is repeatable.
fn directive_text(
    alloc: Global,
    made: &DirectiveType<DefaultScalarValue>,
) -> Result<String, AllocError> {
    let (name, description) = (made.name.as_str(), shown(&made.description));
    let is_repeatable = made.is_repeatable;
    format!(in alloc; "{name} {description} {is_repeatable}")
}

#[test]
fn checks_and_directives_are_made(rt: HostRuntime) {
    let alloc = rt.alloc();
    let check = scalar(&rt, alloc);
    says(&rt, said_of_null(alloc, &check), "not a value of String");
    let made = directive(&rt, alloc);
    says(&rt, directive_text(alloc, &made), "flag marks true");
}
