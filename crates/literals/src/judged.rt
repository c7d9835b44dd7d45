//! The first fault of a value against a type.
ghost use Rattle.std.specs.Prelude.{◌≡◌, ◌∷◌, IfOk, List, None, OnOk, Option, Some, option_map, reverse, string_bytes};
ghost use Rattle.std.specs.Prelude.{ℕ};
ghost use Rattle.std.specs.List.{All};
ghost use Rattle.language_values.specs.ValuesPrinted.{printed_value};
ghost use Rattle.meta.specs.Kinds.{check_of_meta};
ghost use Rattle.schema.specs.Wrapped.{plain_meta, wrapped_of};
ghost use Rattle.literals.specs.AnyLiteral.{takes_any};
ghost use Rattle.literals.specs.Begun.{AfterAll, GoesOn, IsKnown, Leads, Left, told};
ghost use Rattle.literals.specs.Expected.{expected_type};
ghost use Rattle.literals.specs.FirstFault.{FirstFault};
ghost use Rattle.literals.specs.InSchema.{IsInSchema};
ghost use Rattle.literals.specs.Judged.{EntryFault, Is, IsNone, Judged, LacksFields, checked, is_enum_meta};
ghost use Rattle.literals.specs.Judged.{is_input_object_meta, keys_of, unless_any, unless_enum};
ghost use Rattle.literals.specs.Texts.{list_text};

use crate::begun::{Begun, text_within};
use crate::expected::{Expected, type_of_field};
use crate::missing::lacking;
use crate::rows::{Row, row_of};
use crate::texts::{
    enum_fault, length_fault, list_fault, no_check_fault, no_object_fault, null_fault,
    unknown_fault, value_fault,
};
use language_types::error::{CheckError, OutOfMemory};
use language_types::position::Spanning;
use language_values::value::InputValue;
use meta::check::CheckedScalar;
use meta::kinds::MetaTypeOf;
use schema::model::{Dialect, SchemaType, SchemaTypeOf, TypeType};
use std::alloc::Global;

/// The text of the first fault in a value, or `None` if the value conforms to the type (section 5.6.1).
///
/// The metadata of the type has to be that of a type of the schema. For a value that conforms, allocates only
/// what the checks allocate, and a list of the lists and objects around the value that is judged.
///
/// # Errors
///
/// Out of memory, for the text, for that list or in a check.
pub fn validate_literal_value<'a, S: CheckedScalar>(
    alloc: Global,
    schema: &'a SchemaType<S>,
    arg_type: &TypeType<'a, S>,
    value: &InputValue<S>,
) -> Result<Option<String>, OutOfMemory>
    requires known { IsInSchema schema.now (wrapped_of arg_type.now) }
    ensures fault { IfOk result (λ fault. Judged schema.now S.may_answer (printed_value S.text S.str_of) value.now
        (wrapped_of arg_type.now) (option_map string_bytes fault)) }
    ensures alone { IfOk result (λ fault. (other : Option (List ℕ))
        → Judged schema.now S.may_answer (printed_value S.text S.str_of) value.now (wrapped_of arg_type.now) other
        → other ≡ option_map string_bytes fault) }
{
    fault_of(alloc, schema, Expected::Made(arg_type), value)
}

/// The text of the first fault in a value, or `None` if the value conforms to the type.
///
/// The lists and objects around the value that is judged stand on a list in memory, so no depth is too deep.
///
/// # Errors
///
/// Out of memory, for the text, for that list or in a check.
pub fn fault_of<'t, 'a, S: CheckedScalar>(
    alloc: Global,
    schema: &'a SchemaType<S>,
    expected: Expected<'t, 'a, S, S::Check>,
    value: &InputValue<S>,
) -> Result<Option<String>, OutOfMemory>
    requires known { IsInSchema schema.now (expected_type expected) }
    ensures { IfOk result (λ fault. Judged schema.now S.may_answer (printed_value S.text S.str_of) value.now
        (expected_type expected.entry) (option_map string_bytes fault)) }
{
    let mut begun = Vec::new(alloc);
    match begin(alloc, schema, expected, value, &mut begun)? {
        Some(fault) => within(alloc, begun.as_slice(), fault.as_str()),
        None => fault_of_left(alloc, schema, begun),
    }
}

// The text of a fault within these lists and objects.
fn within<S, C>(
    alloc: Global,
    begun: &[Begun<'_, '_, '_, S, C>],
    fault: &str,
) -> Result<Option<String>, OutOfMemory>
    ensures { IfOk result (λ text. option_map string_bytes text ≡ Some (told begun.now fault.now)) }
{
    Ok(Some(text_within(alloc, begun, fault)?))
}

// The fault of what is left of these lists and objects.
fn fault_of_left<'t, 'a, 'v, S: CheckedScalar>(
    alloc: Global,
    schema: &'a SchemaType<S>,
    begun: Vec<Begun<'t, 'a, 'v, S, S::Check>>,
) -> Result<Option<String>, OutOfMemory>
    requires known { All (IsKnown schema.now) begun.items }
    ensures { IfOk result (λ fault. AfterAll schema.now S.may_answer (printed_value S.text S.str_of)
        (reverse begun.entry.items) None (option_map string_bytes fault)) }
{
    let mut left = begun;
    for _ in 0..u64::MAX {
        if left.is_empty() {
            return Ok(None);
        }
        match go_on_last(alloc, schema, &mut left)? {
            Some(fault) => return within(alloc, left.as_slice(), fault.as_str()),
            None => {}
        }
    }
    Err(OutOfMemory)
}

// The fault of what is left of the last part, as far as it is judged; what is then left is added.
fn go_on_last<'t, 'a, 'v, S: CheckedScalar>(
    alloc: Global,
    schema: &'a SchemaType<S>,
    begun: &mut Vec<Begun<'t, 'a, 'v, S, S::Check>>,
) -> Result<Option<String>, OutOfMemory>
    requires known { All (IsKnown schema.now) begun.old.items }
    ensures leads { IfOk result
        (λ fault. GoesOn schema.now S.may_answer (printed_value S.text S.str_of) begun.new.items
        (option_map string_bytes fault) begun.old.items) }
    ensures known { OnOk result (All (IsKnown schema.now) begun.new.items) }
{
    match begun.pop() {
        None => Ok(None),
        Some(part) => go_on(alloc, schema, part, begun),
    }
}

// The fault of a value, or `None` if it conforms as far as it is judged: what is left of it is added.
fn begin<'t, 'a, 'v, S: CheckedScalar>(
    alloc: Global,
    schema: &'a SchemaType<S>,
    expected: Expected<'t, 'a, S, S::Check>,
    value: &'v InputValue<S>,
    begun: &mut Vec<Begun<'t, 'a, 'v, S, S::Check>>,
) -> Result<Option<String>, OutOfMemory>
    requires known { IsInSchema schema.now (expected_type expected) }
    ensures leads { IfOk result
        (λ fault. Leads schema.now S.may_answer (printed_value S.text S.str_of) begun.new.items
        (option_map string_bytes fault)
        (Judged schema.now S.may_answer (printed_value S.text S.str_of) value.now (expected_type expected.entry))
        begun.old.items) }
    ensures known { OnOk result (All (IsKnown schema.now) begun.old.items
        → All (IsKnown schema.now) begun.new.items) }
{
    match row_of(expected, value) {
        Row::Conforms => Ok(None),
        Row::Null(at) => Ok(Some(null_fault(alloc, at)?)),
        Row::Length(wanted, found) => Ok(Some(length_fault(alloc, wanted, value, found)?)),
        Row::Items(inner) => match value {
            InputValue::List(items) => {
                begun.push(Begun::Items(inner, items.as_slice()))?;
                Ok(None)
            }
            _ => unreachable!(),
        },
        Row::Plain(meta) => begin_plain(alloc, schema, meta, value, begun),
    }
}

// The same for a type without modifiers.
fn begin_plain<'t, 'a, 'v, S: CheckedScalar>(
    alloc: Global,
    schema: &'a SchemaType<S>,
    meta: &'a MetaTypeOf<S, S::Check>,
    value: &'v InputValue<S>,
    begun: &mut Vec<Begun<'t, 'a, 'v, S, S::Check>>,
) -> Result<Option<String>, OutOfMemory>
    requires known { IsInSchema schema.now (plain_meta meta.now) }
    ensures leads { IfOk result
        (λ fault. Leads schema.now S.may_answer (printed_value S.text S.str_of) begun.new.items
        (option_map string_bytes fault)
        (Judged schema.now S.may_answer (printed_value S.text S.str_of) value.now (plain_meta meta.now))
        begun.old.items) }
    ensures known { OnOk result (All (IsKnown schema.now) begun.old.items
        → All (IsKnown schema.now) begun.new.items) }
{
    match value {
        InputValue::Null => Ok(None),
        InputValue::Variable(_) => Ok(None),
        InputValue::Scalar(_) => fault_of_scalar(alloc, meta, value),
        InputValue::Enum(_) => ask(alloc, meta, value),
        InputValue::List(_) => fault_of_list(alloc, schema, meta, value),
        InputValue::Object(entries) => {
            if takes_any(schema, meta) {
                ask(alloc, meta, value)
            } else if is_input_object(meta) {
                let all = entries.as_slice();
                begun.push(Begun::Entries(meta, None, all, all))?;
                Ok(None)
            } else {
                Ok(Some(no_object_fault(alloc, meta)?))
            }
        }
    }
}

// The fault of what is left of a part, as far as it is judged; what is then left is added.
fn go_on<'t, 'a, 'v, S: CheckedScalar>(
    alloc: Global,
    schema: &'a SchemaType<S>,
    part: Begun<'t, 'a, 'v, S, S::Check>,
    begun: &mut Vec<Begun<'t, 'a, 'v, S, S::Check>>,
) -> Result<Option<String>, OutOfMemory>
    requires known { IsKnown schema.now part }
    ensures leads { IfOk result
        (λ fault. Leads schema.now S.may_answer (printed_value S.text S.str_of) begun.new.items
        (option_map string_bytes fault)
        (Left schema.now S.may_answer (printed_value S.text S.str_of) part.entry) begun.old.items) }
    ensures known { OnOk result (All (IsKnown schema.now) begun.old.items
        → All (IsKnown schema.now) begun.new.items) }
{
    match part {
        Begun::Items(inner, items) => begin_item(alloc, schema, inner, items, begun),
        Begun::Entries(meta, _, all, entries) => {
            next_entry(alloc, schema, meta, all, entries, begun)
        }
    }
}

// The same for these items of a list.
fn begin_item<'t, 'a, 'v, S: CheckedScalar>(
    alloc: Global,
    schema: &'a SchemaType<S>,
    inner: Expected<'t, 'a, S, S::Check>,
    items: &'v [Spanning<InputValue<S>>],
    begun: &mut Vec<Begun<'t, 'a, 'v, S, S::Check>>,
) -> Result<Option<String>, OutOfMemory>
    requires known { IsInSchema schema.now (expected_type inner) }
    ensures leads { IfOk result
        (λ fault. Leads schema.now S.may_answer (printed_value S.text S.str_of) begun.new.items
        (option_map string_bytes fault)
        (FirstFault
        (λ x. Judged schema.now S.may_answer (printed_value S.text S.str_of) x.item (expected_type inner.entry))
        IsNone items.now) begun.old.items) }
    ensures known { OnOk result (All (IsKnown schema.now) begun.old.items
        → All (IsKnown schema.now) begun.new.items) }
{
    match items.split_first() {
        None => Ok(None),
        Some((item, rest)) => {
            begun.push(Begun::Items(inner, rest))?;
            begin(alloc, schema, inner, &item.item, begun)
        }
    }
}

// The same for these entries of an object.
fn next_entry<'t, 'a, 'v, S: CheckedScalar>(
    alloc: Global,
    schema: &'a SchemaType<S>,
    meta: &'a MetaTypeOf<S, S::Check>,
    all: &'v [(Spanning<String>, Spanning<InputValue<S>>)],
    entries: &'v [(Spanning<String>, Spanning<InputValue<S>>)],
    begun: &mut Vec<Begun<'t, 'a, 'v, S, S::Check>>,
) -> Result<Option<String>, OutOfMemory>
    requires known { IsInSchema schema.now (plain_meta meta.now) }
    ensures leads { IfOk result
        (λ fault. Leads schema.now S.may_answer (printed_value S.text S.str_of) begun.new.items
        (option_map string_bytes fault)
        (FirstFault (EntryFault schema.now S.may_answer (printed_value S.text S.str_of) meta.now)
        (LacksFields meta.now (keys_of all.now)) entries.now) begun.old.items) }
    ensures known { OnOk result (All (IsKnown schema.now) begun.old.items
        → All (IsKnown schema.now) begun.new.items) }
{
    match entries.split_first() {
        None => lacking(alloc, meta, all),
        Some((entry, rest)) => begin_entry(alloc, schema, meta, all, entry, rest, begun),
    }
}

// The same for an object, of which an entry comes next.
fn begin_entry<'t, 'a, 'v, S: CheckedScalar>(
    alloc: Global,
    schema: &'a SchemaType<S>,
    meta: &'a MetaTypeOf<S, S::Check>,
    all: &'v [(Spanning<String>, Spanning<InputValue<S>>)],
    entry: &'v (Spanning<String>, Spanning<InputValue<S>>),
    rest: &'v [(Spanning<String>, Spanning<InputValue<S>>)],
    begun: &mut Vec<Begun<'t, 'a, 'v, S, S::Check>>,
) -> Result<Option<String>, OutOfMemory>
    requires known { IsInSchema schema.now (plain_meta meta.now) }
    ensures leads { IfOk result
        (λ fault. Leads schema.now S.may_answer (printed_value S.text S.str_of) begun.new.items
        (option_map string_bytes fault)
        (FirstFault (EntryFault schema.now S.may_answer (printed_value S.text S.str_of) meta.now)
        (LacksFields meta.now (keys_of all.now)) (entry.now ∷ rest.now)) begun.old.items) }
    ensures known { OnOk result (All (IsKnown schema.now) begun.old.items
        → All (IsKnown schema.now) begun.new.items) }
{
    let key = entry.0.item.as_str();
    match meta.input_field_by_name(key) {
        None => Ok(Some(unknown_fault(alloc, meta, key)?)),
        Some(field) => {
            let expected = type_of_field(schema, field);
            begun.push(Begun::Entries(meta, Some(key), all, rest))?;
            begin(alloc, schema, expected, &entry.1.item, begun)
        }
    }
}

// The fault of a scalar.
fn fault_of_scalar<S: CheckedScalar>(
    alloc: Global,
    meta: &MetaTypeOf<S, S::Check>,
    value: &InputValue<S>,
) -> Result<Option<String>, OutOfMemory>
    ensures { IfOk result (λ fault. unless_enum S.may_answer (printed_value S.text S.str_of) (is_enum_meta meta.now)
        value.now meta.now (option_map string_bytes fault)) }
{
    if is_enum(meta) {
        Ok(Some(enum_fault(alloc, meta, value)?))
    } else {
        ask(alloc, meta, value)
    }
}

// The fault of a list for a type without modifiers.
fn fault_of_list<S: CheckedScalar>(
    alloc: Global,
    schema: &SchemaType<S>,
    meta: &MetaTypeOf<S, S::Check>,
    value: &InputValue<S>,
) -> Result<Option<String>, OutOfMemory>
    ensures { IfOk result (λ fault. unless_any S.may_answer (printed_value S.text S.str_of)
        (takes_any schema.now meta.now) value.now meta.now (option_map string_bytes fault)
        (Is list_text (option_map string_bytes fault))) }
{
    if takes_any(schema, meta) {
        ask(alloc, meta, value)
    } else {
        Ok(Some(list_fault(alloc)?))
    }
}

// The fault of a value without looking into it, by the check of the type.
fn ask<S: CheckedScalar>(
    alloc: Global,
    meta: &MetaTypeOf<S, S::Check>,
    value: &InputValue<S>,
) -> Result<Option<String>, OutOfMemory>
    ensures { IfOk result (λ fault. checked S.may_answer (printed_value S.text S.str_of) (check_of_meta meta.now)
        value.now meta.now (option_map string_bytes fault)) }
{
    match meta.input_value_parse_fn() {
        None => Ok(Some(no_check_fault(alloc, meta)?)),
        Some(check) => match S::run_check(check, alloc, value) {
            Ok(()) => Ok(None),
            Err(CheckError::Refused(_)) => Ok(Some(value_fault(alloc, meta, value)?)),
            Err(CheckError::OutOfMemory) => Err(OutOfMemory),
        },
    }
}

fn takes_any<S, C>(schema: &SchemaTypeOf<S, C>, meta: &MetaTypeOf<S, C>) -> bool
    ensures { result ≡ takes_any schema.now meta.now }
{
    match schema.dialect() {
        Dialect::Juniper => false,
        Dialect::October2021 => meta.takes_any_literal(),
    }
}

fn is_enum<S, C>(meta: &MetaTypeOf<S, C>) -> bool
    ensures { result ≡ is_enum_meta meta.now }
{
    matches!(meta, MetaTypeOf::Enum(_))
}

fn is_input_object<S, C>(meta: &MetaTypeOf<S, C>) -> bool
    ensures { result ≡ is_input_object_meta meta.now }
{
    matches!(meta, MetaTypeOf::InputObject(_))
}
