//! A walk over every kind of node, and the calls of a context.

use crate::recorder::{Recorder, show_types};
use crate::sample::{DOCUMENT, sample_schema};
use language::error::OutOfMemory;
use language::position::SourcePosition;
use language::tree::Definition;
use language::types::BorrowedType;
use language::value::DefaultScalarValue;
use sample_reader::read_document;
use schema::model::SchemaType;
use std::alloc::Global;
use std::process::Abort;
use validation_examples::told::lines;
use walk::{MultiVisitorCons, MultiVisitorNil, RuleError, ValidatorContext, visit, visit_rules};
use walk_examples::kept_fields::count_and_free;

/// The walk over the sample. An event of a node is followed by the type at the node, that type as it is written, the
/// parent type, and the type of the input as it is written; a stroke stands for none.
const WALK: &str = "enter_document() - - - -
enter_operation_definition(Q) QueryRoot QueryRoot! - -
enter_variable_definition(a) QueryRoot QueryRoot! - [Int]!
enter_list_value() QueryRoot QueryRoot! - [Int]!
enter_scalar_value(one) QueryRoot QueryRoot! - Int
exit_scalar_value(one) QueryRoot QueryRoot! - Int
exit_list_value() QueryRoot QueryRoot! - [Int]!
enter_directive(skip) QueryRoot QueryRoot! - [Int]!
enter_argument(if) QueryRoot QueryRoot! - Boolean!
enter_scalar_value(two) QueryRoot QueryRoot! - Boolean!
exit_scalar_value(two) QueryRoot QueryRoot! - Boolean!
exit_argument(if) QueryRoot QueryRoot! - Boolean!
exit_directive(skip) QueryRoot QueryRoot! - [Int]!
exit_variable_definition(a) QueryRoot QueryRoot! - [Int]!
enter_variable_definition(b) QueryRoot QueryRoot! - Pair
exit_variable_definition(b) QueryRoot QueryRoot! - Pair
enter_directive(include) QueryRoot QueryRoot! - -
enter_argument(if) QueryRoot QueryRoot! - Boolean!
enter_variable_value(a) QueryRoot QueryRoot! - Boolean!
exit_variable_value(a) QueryRoot QueryRoot! - Boolean!
exit_argument(if) QueryRoot QueryRoot! - Boolean!
exit_directive(include) QueryRoot QueryRoot! - -
enter_selection_set() QueryRoot QueryRoot! QueryRoot -
enter_field(dog) Dog Dog! QueryRoot -
enter_argument(pair) Dog Dog! QueryRoot Pair!
enter_object_value() Dog Dog! QueryRoot Pair!
enter_object_field(a) Dog Dog! QueryRoot Int!
enter_scalar_value(three) Dog Dog! QueryRoot Int!
exit_scalar_value(three) Dog Dog! QueryRoot Int!
exit_object_field(a) Dog Dog! QueryRoot Int!
enter_object_field(zz) Dog Dog! QueryRoot -
enter_object_value() Dog Dog! QueryRoot -
enter_object_field(a) Dog Dog! QueryRoot -
enter_enum_value(SIT) Dog Dog! QueryRoot -
exit_enum_value(SIT) Dog Dog! QueryRoot -
exit_object_field(a) Dog Dog! QueryRoot -
exit_object_value() Dog Dog! QueryRoot -
exit_object_field(zz) Dog Dog! QueryRoot -
exit_object_value() Dog Dog! QueryRoot Pair!
exit_argument(pair) Dog Dog! QueryRoot Pair!
enter_argument(sizes) Dog Dog! QueryRoot [[Int]!]
enter_list_value() Dog Dog! QueryRoot [[Int]!]
enter_list_value() Dog Dog! QueryRoot [Int]!
enter_null_value() Dog Dog! QueryRoot Int
exit_null_value() Dog Dog! QueryRoot Int
exit_list_value() Dog Dog! QueryRoot [Int]!
exit_list_value() Dog Dog! QueryRoot [[Int]!]
exit_argument(sizes) Dog Dog! QueryRoot [[Int]!]
enter_argument(other) Dog Dog! QueryRoot -
enter_scalar_value(four) Dog Dog! QueryRoot -
exit_scalar_value(four) Dog Dog! QueryRoot -
exit_argument(other) Dog Dog! QueryRoot -
enter_directive(nope) Dog Dog! QueryRoot -
enter_argument(x) Dog Dog! QueryRoot -
enter_scalar_value(five) Dog Dog! QueryRoot -
exit_scalar_value(five) Dog Dog! QueryRoot -
exit_argument(x) Dog Dog! QueryRoot -
exit_directive(nope) Dog Dog! QueryRoot -
enter_selection_set() Dog Dog! Dog -
enter_field(name) String String Dog -
enter_argument(x) String String Dog Int
enter_scalar_value(six) String String Dog Int
exit_scalar_value(six) String String Dog Int
exit_argument(x) String String Dog Int
exit_field(name) String String Dog -
enter_fragment_spread(F) Dog Dog! Dog -
enter_directive(skip) Dog Dog! Dog -
enter_argument(if) Dog Dog! Dog Boolean!
enter_scalar_value(seven) Dog Dog! Dog Boolean!
exit_scalar_value(seven) Dog Dog! Dog Boolean!
exit_argument(if) Dog Dog! Dog Boolean!
exit_directive(skip) Dog Dog! Dog -
exit_fragment_spread(F) Dog Dog! Dog -
enter_inline_fragment() - Cat! Dog -
enter_directive(skip) - Cat! Dog -
exit_directive(skip) - Cat! Dog -
enter_selection_set() - Cat! - -
enter_field(meows) - - - -
exit_field(meows) - - - -
exit_selection_set() - Cat! - -
exit_inline_fragment() - Cat! Dog -
enter_inline_fragment() Dog Dog! Dog -
enter_directive(include) Dog Dog! Dog -
exit_directive(include) Dog Dog! Dog -
enter_selection_set() Dog Dog! Dog -
enter_field(friends) Dog [Dog!]! Dog -
enter_selection_set() Dog [Dog!]! Dog -
enter_field(name) String String Dog -
exit_field(name) String String Dog -
exit_selection_set() Dog [Dog!]! Dog -
exit_field(friends) Dog [Dog!]! Dog -
exit_selection_set() Dog Dog! Dog -
exit_inline_fragment() Dog Dog! Dog -
exit_selection_set() Dog Dog! Dog -
exit_field(dog) Dog Dog! QueryRoot -
enter_field(unknown) - - QueryRoot -
enter_argument(x) - - QueryRoot -
enter_list_value() - - QueryRoot -
enter_scalar_value(eight) - - QueryRoot -
exit_scalar_value(eight) - - QueryRoot -
exit_list_value() - - QueryRoot -
exit_argument(x) - - QueryRoot -
enter_selection_set() - - - -
enter_field(y) - - - -
exit_field(y) - - - -
exit_selection_set() - - - -
exit_field(unknown) - - QueryRoot -
exit_selection_set() QueryRoot QueryRoot! QueryRoot -
exit_operation_definition(Q) QueryRoot QueryRoot! - -
enter_operation_definition(M) MutationRoot MutationRoot! - -
enter_selection_set() MutationRoot MutationRoot! MutationRoot -
enter_field(feed) Dog Dog MutationRoot -
enter_selection_set() Dog Dog Dog -
enter_field(name) String String Dog -
exit_field(name) String String Dog -
exit_selection_set() Dog Dog Dog -
exit_field(feed) Dog Dog MutationRoot -
exit_selection_set() MutationRoot MutationRoot! MutationRoot -
exit_operation_definition(M) MutationRoot MutationRoot! - -
enter_operation_definition(S) - - - -
enter_selection_set() - - - -
enter_field(dog) - - - -
enter_selection_set() - - - -
enter_field(name) - - - -
exit_field(name) - - - -
exit_selection_set() - - - -
exit_field(dog) - - - -
exit_selection_set() - - - -
exit_operation_definition(S) - - - -
enter_fragment_definition(F) Dog Dog! - -
enter_directive(skip) Dog Dog! - -
exit_directive(skip) Dog Dog! - -
enter_selection_set() Dog Dog! Dog -
enter_field(__typename) String String! Dog -
exit_field(__typename) String String! Dog -
exit_selection_set() Dog Dog! Dog -
exit_fragment_definition(F) Dog Dog! - -
exit_document() - - - -
";

type Context<'a> = ValidatorContext<'a, DefaultScalarValue>;

type Visitors = MultiVisitorCons<Recorder, MultiVisitorNil>;

/// What a visitor hears of the document.
fn recorded<'a>(
    alloc: Global,
    ctx: &mut Context<'a>,
    document: &'a [Definition<'_, DefaultScalarValue>],
) -> Result<Visitors, OutOfMemory> {
    let recorder = Recorder {
        text: String::new(alloc),
    };
    let mut visitors = MultiVisitorNil.with(recorder);
    visit(&mut visitors, ctx, document)?;
    Ok(visitors)
}

/// The same in a fresh context. After a refusal it says whether the context refuses each later call.
fn recorded_afresh<'a>(
    alloc: Global,
    schema: &'a SchemaType<DefaultScalarValue>,
    document: &'a [Definition<'_, DefaultScalarValue>],
) -> Result<Visitors, bool> {
    match ValidatorContext::new(alloc, schema, document) {
        Ok(mut ctx) => match recorded(alloc, &mut ctx, document) {
            Ok(visitors) => Ok(visitors),
            Err(_e) => Err(refuses_all(alloc, ctx, document)),
        },
        Err(_e) => Err(true),
    }
}

/// Whether a context refuses each call that reports, pushes or ends, and each walk.
fn refuses_all<'a>(
    alloc: Global,
    mut ctx: Context<'a>,
    document: &'a [Definition<'_, DefaultScalarValue>],
) -> bool {
    let reports = ctx.report_error("m", &[]).is_err();
    let appends = ctx.append_errors(Vec::new(alloc)).is_err();
    let pushes = pushes(&mut ctx) == [false; 3];
    let walks = recorded(alloc, &mut ctx, document).is_err();
    let ends = ctx.into_errors().is_err();
    reports && appends && pushes && walks && ends
}

/// Whether a type, a parent type and an input type can be pushed.
fn pushes(ctx: &mut Context<'_>) -> [bool; 3] {
    [
        ctx.with_pushed_type(None, |_ctx| ()).is_ok(),
        ctx.with_pushed_parent_type(|_ctx| ()).is_ok(),
        ctx.with_pushed_input_type(None, |_ctx| ()).is_ok(),
    ]
}

/// Whether a walk tells of every kind of node. Or else it answers a refusal, and the context has failed.
fn tells(
    rt: &impl Abort,
    alloc: Global,
    schema: &SchemaType<DefaultScalarValue>,
    document: &[Definition<'_, DefaultScalarValue>],
) -> bool {
    match recorded_afresh(alloc, schema, document) {
        Ok(visitors) => {
            assert_eq!(rt; visitors.newest().text.as_str(), WALK);
            true
        }
        Err(refuses) => {
            assert!(rt; refuses);
            false
        }
    }
}

/// A rule keeps the fields of a document that is freed after the walk: the walk above enters twelve.
fn keeps_fields(rt: &impl Abort, alloc: Global, schema: &SchemaType<DefaultScalarValue>) {
    let document = read_document(alloc, DOCUMENT).expect(rt, "a document");
    let count = count_and_free(alloc, schema, document).expect(rt, "memory");
    assert_eq!(rt; count, 12);
}

/// Writes the types at hand: with a type pushed, and with that type as the parent too; with an input type pushed; and
/// with nothing.
fn show_pushed(ctx: &mut Context<'_>, text: &mut String) -> Result<(), OutOfMemory> {
    let dog = Some(BorrowedType::non_null("Dog"));
    ctx.with_pushed_type(dog, |ctx| show_twice(ctx, text))??;
    let int = Some(BorrowedType::nullable("Int"));
    ctx.with_pushed_input_type(int, |ctx| show_types(text, ctx))??;
    Ok(show_types(text, ctx)?)
}

fn show_twice(ctx: &mut Context<'_>, text: &mut String) -> Result<(), OutOfMemory> {
    show_types(text, ctx)?;
    Ok(ctx.with_pushed_parent_type(|ctx| show_types(text, ctx))??)
}

fn early() -> SourcePosition {
    SourcePosition::new(3, 0, 3)
}

fn late() -> SourcePosition {
    SourcePosition::new(7, 0, 7)
}

/// Two errors of a caller.
fn two_more(alloc: Global) -> Result<Vec<RuleError>, OutOfMemory> {
    let mut more = Vec::new(alloc);
    more.push(RuleError::new(alloc, "late", &[late()])?)?;
    more.push(RuleError::new(alloc, "before", &[early()])?)?;
    Ok(more)
}

/// Walks with two rules that report nothing.
fn walk_in_vain(ctx: &mut Context<'_>) -> Result<(), OutOfMemory> {
    let mut rules = MultiVisitorNil
        .with_rule(MultiVisitorNil)
        .with_rule(MultiVisitorNil);
    visit_rules(&mut rules, ctx, &[])
}

/// Reports two errors, and appends two.
fn report_four(alloc: Global, ctx: &mut Context<'_>) -> Result<(), OutOfMemory> {
    ctx.report_error("late", &[late()])?;
    ctx.report_error("early", &[early()])?;
    ctx.append_errors(two_more(alloc)?)
}

/// A context sorts its errors.
fn sorts_errors(rt: &impl Abort, alloc: Global, schema: &SchemaType<DefaultScalarValue>) {
    let mut ctx = ValidatorContext::new(alloc, schema, &[]).expect(rt, "memory");
    walk_in_vain(&mut ctx).expect(rt, "memory");
    report_four(alloc, &mut ctx).expect(rt, "memory");
    let errors = ctx.into_errors().expect(rt, "memory");
    let told = lines(alloc, errors).expect(rt, "memory");
    assert_eq!(rt;
        told.as_str(),
        "before. At 0:3\nearly. At 0:3\nlate. At 0:7\nlate. At 0:7\n"
    );
}

/// A message of 4,096 bytes.
fn long_message(alloc: Global) -> Result<String, OutOfMemory> {
    let mut text = String::new(alloc);
    for _ in 0..256 {
        text.push_str("sixteen letters.")?;
    }
    Ok(text)
}

/// Reports a long error and two short ones.
fn report_three(alloc: Global, ctx: &mut Context<'_>) -> Result<(), OutOfMemory> {
    let long = long_message(alloc)?;
    ctx.report_error(long.as_str(), &[early()])?;
    ctx.report_error("short", &[late()])?;
    ctx.report_error("further", &[late()])
}

/// A long message counts as two: a limit of three keeps it and a short one, and no further one.
fn counts_long_messages(rt: &impl Abort, alloc: Global, schema: &SchemaType<DefaultScalarValue>) {
    let mut ctx = ValidatorContext::new(alloc, schema, &[]).expect(rt, "memory");
    ctx.set_limit(3);
    report_three(alloc, &mut ctx).expect(rt, "memory");
    assert!(rt; ctx.is_full());
    let errors = ctx.into_errors().expect(rt, "memory");
    assert_eq!(rt; errors.len(), 2);
    assert_eq!(rt; errors[0].message().len(), 4096);
    assert_eq!(rt; errors[1].message(), "short");
}

/// A context keeps the types that are pushed.
fn keeps_types(rt: &impl Abort, alloc: Global, schema: &SchemaType<DefaultScalarValue>) {
    let mut ctx = ValidatorContext::new(alloc, schema, &[]).expect(rt, "memory");
    assert!(rt; !ctx.is_known_fragment("F") && !ctx.has_errors());
    let mut text = String::new(alloc);
    show_pushed(&mut ctx, &mut text).expect(rt, "memory");
    assert_eq!(rt;
        text.as_str(),
        " Dog Dog! - -\n Dog Dog! Dog -\n - - - Int\n - - - -\n"
    );
}

#[test]
fn every_kind_of_node_is_told(rt: HostRuntime) {
    let alloc = rt.alloc();
    let schema = sample_schema(alloc).expect(&rt, "a schema");
    let document = read_document(alloc, DOCUMENT).expect(&rt, "a document");
    assert!(rt; tells(&rt, alloc, &schema, document.as_slice()));
    keeps_fields(&rt, alloc, &schema);
    keeps_types(&rt, alloc, &schema);
    sorts_errors(&rt, alloc, &schema);
    counts_long_messages(&rt, alloc, &schema);
}

/// Whether a fresh context returns all errors and takes types, or refuses each call after the one that was refused.
fn keeps_all_or_refuses(
    alloc: Global,
    schema: &SchemaType<DefaultScalarValue>,
    more: Vec<RuleError>,
) -> bool {
    let Ok(mut ctx) = ValidatorContext::new(alloc, schema, &[]) else {
        return true;
    };
    let appends = ctx.append_errors(more).is_ok();
    let reports = appends && ctx.report_error("early", &[early()]).is_ok();
    if !reports || pushes(&mut ctx) != [true; 3] {
        return refuses_all(alloc, ctx, &[]);
    }
    match ctx.into_errors() {
        Ok(errors) => errors.len() == 3,
        Err(_) => true,
    }
}

/// Run with each request for memory refused in turn, a walk tells the same, or it answers a refusal and the context has
/// failed; and a context returns all errors, or it has failed.
#[test]
fn a_refused_request_changes_no_walk(rt: HostRuntime) {
    let alloc = rt.alloc();
    if let Ok(schema) = sample_schema(alloc) {
        if let Ok(document) = read_document(alloc, DOCUMENT) {
            tells(&rt, alloc, &schema, document.as_slice());
        }
        if let Ok(more) = two_more(alloc) {
            assert!(rt; keeps_all_or_refuses(alloc, &schema, more));
        }
    }
}
