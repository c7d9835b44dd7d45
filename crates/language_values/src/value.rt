//! Input values in a document (GraphQL, October 2021, section 2.9).
ghost use Rattle.std.specs.Prelude.{◌+◌, ◌*◌, ◌<◌, ◌≡◌, None, Some, true, false, ℕ, string_bytes, IsTrue, ◌↔◌, IfErr};
ghost use Rattle.std.specs.Prelude.{IfOk, IfSome, IsOk, OnOk, map, option_map, codes, ◌++◌, []};
ghost use Rattle.language_types.specs.References.{list_copied};
ghost use Rattle.std.specs.List.{list_all};
ghost use Rattle.std.specs.Cmp.Lexicographic.{pointwise};
ghost use Rattle.std.specs.Fmt.{WritesOnOk};
ghost use Rattle.language_values.specs.declared.value.InputValue.TheVariants as value;
ghost use Rattle.language_values.specs.Scalar.{default_text, default_str, default_bool, default_prints_bool};
ghost use Rattle.language_values.specs.Values.{variables_of, is_plain, is_flat_constant, list_items, object_entries};
ghost use Rattle.language_values.specs.Values.{IsMapOf, IsMapOfObject};
ghost use Rattle.language_values.specs.ValuesLeft.{variables_left, values_left, variables_waiting, values_waiting};
ghost use Rattle.language_values.specs.ValuesLeft.{WritesPart};
ghost use Rattle.language_values.specs.ValuesLeft.{printed_left, printed_next, printed_opened, printed_waiting};
ghost use Rattle.language_values.specs.ValuesInside.{values_inside, IsBare};
ghost use Rattle.language_values.specs.EqualSteps.{answer_of, answer_after, taken_on};
ghost use Rattle.language_values.specs.ValuesEqual.{unlocated_eq, entry_in, has_unique_keys};
ghost use Rattle.language_values.specs.ValuesPrinted.{printed_value, printed_scalar, separator_before};

use crate::scalar::ScalarValue;
use language_types::error::OutOfMemory;
use language_types::position::Spanning;
use std::alloc::{AllocError, Global};
use std::collections::BTreeMap;
use std::{fmt, mem};

/// The scalars of a document whose user brings none of their own.
#[derive(Debug, PartialEq, Eq, Drop)]
pub enum DefaultScalarValue {
    /// An integer of 32 bits (section 3.5.1).
    Int(i32),
    /// A string (section 3.5.3).
    String(String),
    /// A Boolean (section 3.5.4).
    Boolean(bool),
}

impl Clone for DefaultScalarValue {
    ghost use Rattle.std.specs.Prelude.{◌≡◌};
    ghost use Rattle.language_values.specs.Scalar.{IsSameScalar};

    ghost is_clone = { λ s t. IsSameScalar s t };

    fn clone(&self) -> Result<DefaultScalarValue, AllocError> {
        match self {
            DefaultScalarValue::Int(n) => Ok(DefaultScalarValue::Int(*n)),
            DefaultScalarValue::String(s) => Ok(DefaultScalarValue::String(s.clone()?)),
            DefaultScalarValue::Boolean(b) => Ok(DefaultScalarValue::Boolean(*b)),
        }
    }
}

impl fmt::Display for DefaultScalarValue {
    ghost output = { λ x. Some (default_text x) };

    fn fmt<W: fmt::Write>(&self, f: &mut fmt::Formatter<W>) -> fmt::Result {
        match self {
            DefaultScalarValue::Int(n) => write!(f, "{n}"),
            DefaultScalarValue::String(s) => write!(f, "{s}"),
            DefaultScalarValue::Boolean(b) => write!(f, "{b}"),
        }
    }
}

impl ScalarValue for DefaultScalarValue {
    ghost use Rattle.std.specs.Prelude.{refl};

    ghost text = { default_text };

    ghost str_of = { default_str };

    ghost bool_of = { default_bool };

    ghost prints_text = { λ x. refl };

    ghost prints_bool = { default_prints_bool };

    fn try_as_str(&self) -> Option<&str> {
        match self {
            DefaultScalarValue::String(s) => Some(s.as_str()),
            _ => None,
        }
    }

    fn as_bool(&self) -> Option<bool> {
        match self {
            DefaultScalarValue::Boolean(b) => Some(*b),
            _ => None,
        }
    }
}

/// A value in a document, over scalars of the type `S`.
pub enum InputValue<S = DefaultScalarValue> {
    /// `null` (section 2.9.5).
    Null,
    /// An integer, a float, a Boolean or a string (sections 2.9.1 to 2.9.4).
    Scalar(S),
    /// The name of an enum value (section 2.9.6).
    Enum(String),
    /// The name of a variable, without its dollar sign (section 2.10).
    Variable(String),
    /// A list (section 2.9.7).
    List(Vec<Spanning<InputValue<S>>>),
    /// An object, its keys in the order of the document (section 2.9.8).
    Object(Vec<(Spanning<String>, Spanning<InputValue<S>>)>),
}

/// A loop, so that no depth is too deep for the machine's stack; it asks for no memory.
impl<S: Drop> Drop for InputValue<S> {
    fn drop(mut self) {
        while let Some(value) = self.take_last() {
            self = value.descend(self);
        }
        self.drop_bare();
    }
}

impl<S: Drop> InputValue<S> {
    // The last value inside, taken out.
    #[tactic(auto, using(crate::proofs::InsideLaws::taken_from_list, crate::proofs::InsideLaws::taken_from_object))]
    fn take_last(&mut self) -> Option<InputValue<S>>
        ensures some { IfSome result (λ v. values_inside self.new + values_inside v ≡ values_inside self.old) }
        ensures none { result ≡ None → IsBare self.new }
    {
        match self {
            InputValue::List(items) => match items.pop() {
                Some(item) => Some(item.item),
                None => None,
            },
            InputValue::Object(entries) => match entries.pop() {
                Some((_, value)) => Some(value.item),
                None => None,
            },
            _ => None,
        }
    }

    // Puts a value in the place of the first one inside, which it gives back, or the value itself where none is inside.
    fn put_first(&mut self, value: InputValue<S>) -> Result<InputValue<S>, InputValue<S>>
        ensures ok { IfOk result (λ v.
            values_inside self.new + values_inside v ≡ values_inside self.old + values_inside value) }
        ensures smaller { IfOk result (λ v. values_inside v < values_inside self.old) }
        ensures err { IfErr result (λ v. v ≡ value) }
        ensures bare { IfErr result (λ _. IsBare self.new) }
    {
        match self {
            InputValue::List(items) => match items.first_mut() {
                Some(first) => Ok(mem::replace(&mut first.item, value)),
                None => Err(value),
            },
            InputValue::Object(entries) => match entries.first_mut() {
                Some(first) => Ok(mem::replace(&mut first.1.item, value)),
                None => Err(value),
            },
            _ => Err(value),
        }
    }

    // What is left of this value and of what waits, once one of both that holds no value is dropped.
    fn descend(mut self, mut waiting: InputValue<S>) -> InputValue<S>
        ensures { values_inside result < values_inside self + values_inside waiting }
    {
        loop {
            if waiting.is_bare() {
                waiting.drop_bare();
                return self;
            }
            match self.put_first(waiting) {
                Ok(first) => {
                    waiting = self;
                    self = first;
                }
                Err(back) => {
                    self.drop_bare();
                    return back;
                }
            }
        }
    }

    // Whether no value is inside.
    fn is_bare(&self) -> bool
        ensures { IsTrue result ↔ IsBare self.now }
    {
        match self {
            InputValue::List(items) => items.is_empty(),
            InputValue::Object(entries) => entries.is_empty(),
            _ => true,
        }
    }

    // Drops a value that holds none.
    fn drop_bare(self)
        requires { IsBare self }
    {
        match self {
            InputValue::Null => {}
            InputValue::Scalar(_) => {}
            InputValue::Enum(_) => {}
            InputValue::Variable(_) => {}
            InputValue::List(items) => items.destroy_empty(),
            InputValue::Object(entries) => entries.destroy_empty(),
        }
    }
}

/// The values of variables, by name without the dollar sign (section 2.10).
pub type Variables<S = DefaultScalarValue> = BTreeMap<String, InputValue<S>>;

impl<S> InputValue<S> {
    /// Whether the value is `null`.
    pub fn is_null(&self) -> bool
        ensures { IsTrue result ↔ (self.now ≡ value.Null) }
    {
        matches!(self, InputValue::Null)
    }

    /// The items of a list, in order; `None` for any other value, without allocating.
    ///
    /// # Errors
    ///
    /// Out of memory; never if the value is not a list, or has no items.
    pub fn to_list_value(&self, alloc: Global) -> Result<Option<Vec<&InputValue<S>>>, OutOfMemory>
        ensures value { IfOk result (λ o. option_map (λ v. list_copied v.items) o
            ≡ option_map (map (λ x. x.item)) (list_items self.now)) }
        ensures succeeds { list_items self.now ≡ None → IsOk result }
        ensures empty { list_items self.now ≡ Some [] → IsOk result }
    {
        match self {
            InputValue::List(items) => Ok(Some(values_of(alloc, items.as_slice())?)),
            _ => Ok(None),
        }
    }

    /// The values of an object by key; `None` for any other value, without allocating. If a key
    /// repeats, its last entry counts.
    ///
    /// # Errors
    ///
    /// Out of memory; never if the value is not an object, or has no fields.
    pub fn to_object_value(
        &self,
        alloc: Global,
    ) -> Result<Option<BTreeMap<&str, &InputValue<S>>>, OutOfMemory>
        ensures value { IfOk result (λ o. IsMapOfObject o (object_entries self.now)) }
        ensures succeeds { object_entries self.now ≡ None → IsOk result }
        ensures empty { object_entries self.now ≡ Some [] → IsOk result }
    {
        match self {
            InputValue::Object(entries) => Ok(Some(map_of_entries(alloc, entries.as_slice())?)),
            _ => Ok(None),
        }
    }

    /// The names of the variables in the value, at any depth, in the order of the document, with
    /// repeats. Allocates nothing for `null`, a scalar, an enum value, and a list or an object of
    /// these.
    ///
    /// # Errors
    ///
    /// Out of memory; never if the value is `null`, a scalar, an enum value, or a list or an object
    /// of these.
    #[tactic(auto, using(crate::proofs::ConstantLemmas::none_of_flat))]
    pub fn referenced_variables(&self, alloc: Global) -> Result<Vec<&str>, OutOfMemory>
        ensures value { IfOk result (λ v. list_copied v.items ≡ variables_of self.now) }
        ensures succeeds { is_flat_constant self.now ≡ true → IsOk result }
    {
        let mut found = Vec::new(alloc);
        if is_flat_constant(self) {
            return Ok(found);
        }
        add_variables(alloc, self, &mut found)?;
        Ok(found)
    }
}

fn values_of<S>(
    alloc: Global,
    items: &[Spanning<InputValue<S>>],
) -> Result<Vec<&InputValue<S>>, OutOfMemory>
    ensures value { IfOk result (λ v. list_copied v.items ≡ map (λ x. x.item) items.now) }
    ensures succeeds { items.now ≡ [] → IsOk result }
{
    let mut values = Vec::new(alloc);
    for item in items {
        values.push(&item.item)?;
    }
    Ok(values)
}

fn map_of_entries<S>(
    alloc: Global,
    entries: &[(Spanning<String>, Spanning<InputValue<S>>)],
) -> Result<BTreeMap<&str, &InputValue<S>>, OutOfMemory>
    ensures value { IfOk result (λ m. IsMapOf m entries.now) }
    ensures succeeds { entries.now ≡ [] → IsOk result }
{
    let mut map = BTreeMap::new(alloc);
    for (key, value) in entries {
        map.insert(key.item.as_str(), &value.item)?;
    }
    Ok(map)
}

// Whether a value is null, a scalar or an enum value.
fn is_plain<S>(value: &InputValue<S>) -> bool
    ensures { result ≡ is_plain value.now }
{
    match value {
        InputValue::Null | InputValue::Scalar(_) | InputValue::Enum(_) => true,
        InputValue::Variable(_) | InputValue::List(_) | InputValue::Object(_) => false,
    }
}

// Whether a value is plain, or a list or an object of plain values.
fn is_flat_constant<S>(value: &InputValue<S>) -> bool
    ensures { result ≡ is_flat_constant value.now }
{
    match value {
        InputValue::List(items) => are_plain_items(items.as_slice()),
        InputValue::Object(entries) => are_plain_entries(entries.as_slice()),
        _ => is_plain(value),
    }
}

fn are_plain_items<S>(items: &[Spanning<InputValue<S>>]) -> bool
    ensures { result ≡ list_all (λ v. is_plain v.item) items.now }
{
    for item in items {
        if !is_plain(&item.item) {
            return false;
        }
    }
    true
}

fn are_plain_entries<S>(entries: &[(Spanning<String>, Spanning<InputValue<S>>)]) -> bool
    ensures { result ≡ list_all (λ e. is_plain e.1.item) entries.now }
{
    for (_, v) in entries {
        if !is_plain(&v.item) {
            return false;
        }
    }
    true
}

// The items of a list or the entries of an object, from one on. Where a part of the crate goes through nested values,
// those that are begun stand on a list in memory, so that no depth is too deep for the machine's stack.
#[derive(Drop)]
enum Rest<'v, S> {
    Items(&'v [Spanning<InputValue<S>>]),
    Entries(&'v [(Spanning<String>, Spanning<InputValue<S>>)]),
}

impl<'v, S> Rest<'v, S> {
    // The first value, and what is left after it.
    fn split_first(self) -> Option<(&'v InputValue<S>, Rest<'v, S>)>
        ensures some { IfSome result (λ p. variables_left self.entry ≡ variables_of p.0.now ++ variables_left p.1) }
        ensures less { IfSome result (λ p. values_left self.entry ≡ values_inside p.0.now + values_left p.1) }
        ensures none { result ≡ None → variables_left self.entry ≡ [] }
    {
        match self {
            Rest::Items(items) => match items.split_first() {
                Some((first, others)) => Some((&first.item, Rest::Items(others))),
                None => None,
            },
            Rest::Entries(entries) => match entries.split_first() {
                Some(((_, first), others)) => Some((&first.item, Rest::Entries(others))),
                None => None,
            },
        }
    }
}

// Adds those of a value.
fn add_variables<'v, S>(
    alloc: Global,
    value: &'v InputValue<S>,
    found: &mut Vec<&'v str>,
) -> Result<(), OutOfMemory>
    ensures { OnOk result (list_copied found.new.items ≡ list_copied found.old.items ++ variables_of value.now) }
{
    let mut waiting = Vec::new(alloc);
    add_variables_of(value, &mut waiting, found)?;
    while let Some(rest) = waiting.pop() {
        if let Some((first, others)) = rest.split_first() {
            waiting.push(others)?;
            add_variables_of(first, &mut waiting, found)?;
        }
    }
    Ok(())
}

// Adds the variable that a value is, or puts the values inside on the list.
fn add_variables_of<'v, S>(
    value: &'v InputValue<S>,
    waiting: &mut Vec<Rest<'v, S>>,
    found: &mut Vec<&'v str>,
) -> Result<(), OutOfMemory>
    ensures value { OnOk result (list_copied found.new.items ++ variables_waiting waiting.new.items
        ≡ list_copied found.old.items ++ (variables_of value.now ++ variables_waiting waiting.old.items)) }
    ensures less { OnOk result
        (values_waiting waiting.new.items < 2 * values_inside value.now + values_waiting waiting.old.items) }
{
    match value {
        InputValue::Null | InputValue::Scalar(_) | InputValue::Enum(_) => {}
        InputValue::Variable(name) => found.push(name.as_str())?,
        InputValue::List(items) => waiting.push(Rest::Items(items.as_slice()))?,
        InputValue::Object(entries) => waiting.push(Rest::Entries(entries.as_slice()))?,
    }
    Ok(())
}

impl<S: ScalarValue> InputValue<S> {
    /// Whether two values are equal, positions aside.
    ///
    /// Two objects are equal if they have the same number of entries and each entry on the left has
    /// one on the right with its key and an equal value. If a key repeats, the answer can depend on
    /// which object is on the left; otherwise it is symmetric.
    pub fn unlocated_eq(&self, other: &Self) -> bool
        ensures value { result ≡ unlocated_eq S.eq self.now other.now }
        ensures reflexive { self.now ≡ other.now → result ≡ true }
        ensures symmetric { has_unique_keys self.now ≡ true → has_unique_keys other.now ≡ true
            → result ≡ unlocated_eq S.eq other.now self.now }
    {
        values_match(self, other)
    }

    /// Whether two values are equal, positions aside, for those who can take a fault: no depth is too deep for the
    /// machine's stack, since this is a loop alone. What is to be compared after is kept in a list, with the allocator
    /// of the value's own list.
    ///
    /// # Errors
    ///
    /// Out of memory, and only where `self` is a list or an object.
    pub fn try_unlocated_eq(&self, other: &Self) -> Result<bool, AllocError>
        ensures value { IfOk result (λ b. b ≡ unlocated_eq S.eq self.now other.now) }
        ensures succeeds { list_items self.now ≡ None → object_entries self.now ≡ None → IsOk result }
    {
        try_values_match(self, other)
    }
}

// What two values come down to, as they are compared.
#[derive(Drop)]
enum Comparison<'v, S> {
    // What is already known.
    Answer(bool),
    Values(&'v InputValue<S>, &'v InputValue<S>),
    // Each item on the left with the one on the right.
    Items(&'v [Spanning<InputValue<S>>], &'v [Spanning<InputValue<S>>]),
    // Whether each entry on the left has an equal one on the right.
    Entries(
        &'v [(Spanning<String>, Spanning<InputValue<S>>)],
        &'v [(Spanning<String>, Spanning<InputValue<S>>)],
    ),
    // Whether some entry has this key and an equal value.
    Candidates(&'v str, &'v InputValue<S>, &'v [(Spanning<String>, Spanning<InputValue<S>>)]),
}

// What is still to be compared once an answer is known.
#[derive(Drop)]
enum Pending<'v, S> {
    And(Comparison<'v, S>),
    Or(Comparison<'v, S>),
}

// Where the list of what is to be compared after is refused memory the call recurses: it can tell no fault.
fn values_match<S: ScalarValue>(left: &InputValue<S>, right: &InputValue<S>) -> bool
    ensures { result ≡ unlocated_eq S.eq left.now right.now }
{
    match try_values_match(left, right) {
        Ok(answer) => answer,
        Err(_) => values_eq(left, right),
    }
}

fn try_values_match<S: ScalarValue>(
    left: &InputValue<S>,
    right: &InputValue<S>,
) -> Result<bool, AllocError>
    ensures value { IfOk result (λ b. b ≡ unlocated_eq S.eq left.now right.now) }
    ensures succeeds { list_items left.now ≡ None → object_entries left.now ≡ None → IsOk result }
{
    match left {
        InputValue::List(items) => compare(*items.allocator(), left, right),
        InputValue::Object(entries) => compare(*entries.allocator(), left, right),
        _ => Ok(values_eq(left, right)),
    }
}

// Compares two values by a loop, so that no depth is too deep for the machine's stack.
fn compare<S: ScalarValue>(
    alloc: Global,
    left: &InputValue<S>,
    right: &InputValue<S>,
) -> Result<bool, AllocError>
    ensures { IfOk result (λ b. b ≡ unlocated_eq S.eq left.now right.now) }
{
    let mut waiting = Vec::new(alloc);
    let mut comparison = Comparison::Values(left, right);
    for _ in 0..u64::MAX {
        if waiting.is_empty() {
            if let Comparison::Answer(answer) = &comparison {
                return Ok(*answer);
            }
        }
        comparison = compare_part(comparison, &mut waiting)?;
    }
    Err(AllocError)
}

// Takes an answer on to the last that waits, if one does.
fn take_on_next<'v, S: ScalarValue>(
    answer: bool,
    waiting: &mut Vec<Pending<'v, S>>,
) -> Comparison<'v, S>
    ensures { answer_after S.eq waiting.new.items (answer_of S.eq result) ≡ answer_after S.eq waiting.old.items answer }
{
    match waiting.pop() {
        Some(pending) => take_on(answer, pending),
        None => Comparison::Answer(answer),
    }
}

fn take_on<'v, S: ScalarValue>(answer: bool, pending: Pending<'v, S>) -> Comparison<'v, S>
    ensures { answer_of S.eq result ≡ taken_on S.eq answer pending.entry }
{
    match pending {
        Pending::And(next) => {
            if answer {
                next
            } else {
                Comparison::Answer(false)
            }
        }
        Pending::Or(next) => {
            if answer {
                Comparison::Answer(true)
            } else {
                next
            }
        }
    }
}

// What a comparison comes down to by one step. What is to be compared after it waits.
fn compare_part<'v, S: ScalarValue>(
    comparison: Comparison<'v, S>,
    waiting: &mut Vec<Pending<'v, S>>,
) -> Result<Comparison<'v, S>, AllocError>
    ensures { IfOk result (λ c. answer_after S.eq waiting.new.items (answer_of S.eq c)
        ≡ answer_after S.eq waiting.old.items (answer_of S.eq comparison.entry)) }
{
    match comparison {
        Comparison::Answer(answer) => Ok(take_on_next(answer, waiting)),
        Comparison::Values(left, right) => Ok(compare_values(left, right)),
        Comparison::Items(left, right) => compare_items(left, right, waiting),
        Comparison::Entries(left, right) => compare_entries(left, right, waiting),
        Comparison::Candidates(key, value, entries) => {
            compare_candidates(key, value, entries, waiting)
        }
    }
}

fn compare_values<'v, S: ScalarValue>(
    left: &'v InputValue<S>,
    right: &'v InputValue<S>,
) -> Comparison<'v, S>
    ensures { answer_of S.eq result ≡ unlocated_eq S.eq left.now right.now }
{
    match (left, right) {
        (InputValue::Null, InputValue::Null) => Comparison::Answer(true),
        (InputValue::Scalar(a), InputValue::Scalar(b)) => Comparison::Answer(a == b),
        (InputValue::Enum(a), InputValue::Enum(b)) => Comparison::Answer(a == b),
        (InputValue::Variable(a), InputValue::Variable(b)) => Comparison::Answer(a == b),
        (InputValue::List(xs), InputValue::List(ys)) => {
            Comparison::Items(xs.as_slice(), ys.as_slice())
        }
        (InputValue::Object(xs), InputValue::Object(ys)) => {
            if xs.len() != ys.len() {
                return Comparison::Answer(false);
            }
            Comparison::Entries(xs.as_slice(), ys.as_slice())
        }
        _ => Comparison::Answer(false),
    }
}

fn compare_items<'v, S: ScalarValue>(
    left: &'v [Spanning<InputValue<S>>],
    right: &'v [Spanning<InputValue<S>>],
    waiting: &mut Vec<Pending<'v, S>>,
) -> Result<Comparison<'v, S>, AllocError>
    ensures { IfOk result (λ c. answer_after S.eq waiting.new.items (answer_of S.eq c)
        ≡ answer_after S.eq waiting.old.items (pointwise (λ x y. unlocated_eq S.eq x.item y.item) left.now right.now)) }
{
    let Some((x, xs)) = left.split_first() else {
        return Ok(Comparison::Answer(right.is_empty()));
    };
    let Some((y, ys)) = right.split_first() else {
        return Ok(Comparison::Answer(false));
    };
    waiting.push(Pending::And(Comparison::Items(xs, ys)))?;
    Ok(Comparison::Values(&x.item, &y.item))
}

fn compare_entries<'v, S: ScalarValue>(
    left: &'v [(Spanning<String>, Spanning<InputValue<S>>)],
    right: &'v [(Spanning<String>, Spanning<InputValue<S>>)],
    waiting: &mut Vec<Pending<'v, S>>,
) -> Result<Comparison<'v, S>, AllocError>
    ensures { IfOk result (λ c. answer_after S.eq waiting.new.items (answer_of S.eq c)
        ≡ answer_after S.eq waiting.old.items
        (list_all (λ x. entry_in (unlocated_eq S.eq x.1.item) (string_bytes x.0.item) right.now) left.now)) }
{
    let Some(((key, value), others)) = left.split_first() else {
        return Ok(Comparison::Answer(true));
    };
    waiting.push(Pending::And(Comparison::Entries(others, right)))?;
    Ok(Comparison::Candidates(key.item.as_str(), &value.item, right))
}

fn compare_candidates<'v, S: ScalarValue>(
    key: &'v str,
    value: &'v InputValue<S>,
    entries: &'v [(Spanning<String>, Spanning<InputValue<S>>)],
    waiting: &mut Vec<Pending<'v, S>>,
) -> Result<Comparison<'v, S>, AllocError>
    ensures { IfOk result (λ c. answer_after S.eq waiting.new.items (answer_of S.eq c)
        ≡ answer_after S.eq waiting.old.items (entry_in (unlocated_eq S.eq value.now) key.now entries.now)) }
{
    let Some(((k, v), others)) = entries.split_first() else {
        return Ok(Comparison::Answer(false));
    };
    if k.item.as_str() == key {
        waiting.push(Pending::Or(Comparison::Candidates(key, value, others)))?;
        return Ok(Comparison::Values(value, &v.item));
    }
    Ok(Comparison::Candidates(key, value, others))
}

#[cycle(values_eq)]
fn values_eq<S: ScalarValue>(left: &InputValue<S>, right: &InputValue<S>) -> bool
    ensures { result ≡ unlocated_eq S.eq left.now right.now }
{
    match (left, right) {
        (InputValue::Null, InputValue::Null) => true,
        (InputValue::Scalar(a), InputValue::Scalar(b)) => a == b,
        (InputValue::Enum(a), InputValue::Enum(b)) => a == b,
        (InputValue::Variable(a), InputValue::Variable(b)) => a == b,
        (InputValue::List(xs), InputValue::List(ys)) => lists_eq(xs.as_slice(), ys.as_slice()),
        (InputValue::Object(xs), InputValue::Object(ys)) => {
            if xs.len() != ys.len() {
                return false;
            }
            for (key, value) in xs {
                if !has_entry(key.item.as_str(), &value.item, ys.as_slice()) {
                    return false;
                }
            }
            true
        }
        _ => false,
    }
}

#[cycle(values_eq)]
fn lists_eq<S: ScalarValue>(
    left: &[Spanning<InputValue<S>>],
    right: &[Spanning<InputValue<S>>],
) -> bool
    ensures { result ≡ pointwise (λ x y. unlocated_eq S.eq x.item y.item) left.now right.now }
{
    if left.len() != right.len() {
        return false;
    }
    for (i, x) in left.iter().enumerate() {
        if !values_eq(&x.item, &right[i].item) {
            return false;
        }
    }
    true
}

/// Whether some entry has this key and an equal value.
#[cycle(values_eq)]
fn has_entry<S: ScalarValue>(
    key: &str,
    value: &InputValue<S>,
    entries: &[(Spanning<String>, Spanning<InputValue<S>>)],
) -> bool
    ensures { result ≡ entry_in (unlocated_eq S.eq value.now) key.now entries.now }
{
    for (k, v) in entries {
        if k.item.as_str() == key && values_eq(value, &v.item) {
            return true;
        }
    }
    false
}

/// `null`, a string between quotes without escapes, any other scalar by its own text, an enum value
/// by its name, `$v`, `[a, b]` or `{k: v, l: w}`.
impl<S: ScalarValue> fmt::Display for InputValue<S> {
    ghost output = { λ v. Some (printed_value S.text S.str_of v) };

    fn fmt<W: fmt::Write>(&self, f: &mut fmt::Formatter<W>) -> fmt::Result {
        print_value(self, f)
    }
}

fn print_scalar<S: ScalarValue, W: fmt::Write>(scalar: &S, f: &mut fmt::Formatter<W>) -> fmt::Result
    ensures { WritesOnOk W.write_str_gives f.old result (printed_scalar S.text S.str_of scalar.now) f.new }
{
    match scalar.try_as_str() {
        Some(text) => {
            f.write_str("\"")?;
            f.write_str(text)?;
            f.write_str("\"")
        }
        None => write!(f, "{scalar}"),
    }
}

/// Prints what goes before a piece: nothing before the first.
fn print_separator<W: fmt::Write>(is_first: bool, f: &mut fmt::Formatter<W>) -> fmt::Result
    ensures { WritesOnOk W.write_str_gives f.old result (separator_before is_first) f.new }
{
    f.write_str(if is_first { "" } else { ", " })
}

fn print_value<S: ScalarValue, W: fmt::Write>(
    value: &InputValue<S>,
    f: &mut fmt::Formatter<W>,
) -> fmt::Result
    ensures { WritesOnOk W.write_str_gives f.old result (printed_value S.text S.str_of value.now) f.new }
{
    match print_opening(value, f)? {
        Some((alloc, inside)) => print_inside(alloc, inside, f),
        None => Ok(()),
    }
}

// Prints a value that holds no other, or the bracket before what a list or an object holds. That is what is left to
// print, here with the allocator that it has, since a formatter has none.
fn print_opening<'v, S: ScalarValue, W: fmt::Write>(
    value: &'v InputValue<S>,
    f: &mut fmt::Formatter<W>,
) -> Result<Option<(Global, Rest<'v, S>)>, fmt::Error>
    ensures { IfOk result (λ o. WritesPart W.write_str_gives f.old f.new
        (printed_opened S.text S.str_of o) (printed_value S.text S.str_of value.now)) }
{
    match value {
        InputValue::Null => {
            f.write_str("null")?;
            Ok(None)
        }
        InputValue::Scalar(scalar) => {
            print_scalar(scalar, f)?;
            Ok(None)
        }
        InputValue::Enum(name) => {
            f.write_str(name.as_str())?;
            Ok(None)
        }
        InputValue::Variable(name) => {
            f.write_str("$")?;
            f.write_str(name.as_str())?;
            Ok(None)
        }
        InputValue::List(items) => {
            f.write_str("[")?;
            Ok(Some((*items.allocator(), Rest::Items(items.as_slice()))))
        }
        InputValue::Object(entries) => {
            f.write_str("{")?;
            Ok(Some((*entries.allocator(), Rest::Entries(entries.as_slice()))))
        }
    }
}

// Prints what a list or an object holds, and the bracket after it. Where the list of those that are begun is refused
// memory it fails.
fn print_inside<S: ScalarValue, W: fmt::Write>(
    alloc: Global,
    inside: Rest<'_, S>,
    f: &mut fmt::Formatter<W>,
) -> fmt::Result
    ensures { WritesOnOk W.write_str_gives f.old result (printed_left S.text S.str_of true inside.entry) f.new }
{
    let mut waiting = Vec::new(alloc);
    let mut is_first = true;
    let mut rest = inside;
    for _ in 0..u64::MAX {
        let Some((first, next)) = print_next(is_first, rest, &mut waiting, f)? else {
            return Ok(());
        };
        is_first = first;
        rest = next;
    }
    Err(fmt::Error)
}

// Prints up to the next bracket or plain value. What is left then, and whether nothing stands before it in its
// brackets; none where nothing is left.
fn print_next<'v, S: ScalarValue, W: fmt::Write>(
    is_first: bool,
    rest: Rest<'v, S>,
    waiting: &mut Vec<Rest<'v, S>>,
    f: &mut fmt::Formatter<W>,
) -> Result<Option<(bool, Rest<'v, S>)>, fmt::Error>
    ensures { IfOk result (λ o. WritesPart W.write_str_gives f.old f.new
        (printed_next S.text S.str_of o waiting.new.items)
        (printed_next S.text S.str_of (Some (is_first, rest.entry)) waiting.old.items)) }
{
    match rest {
        Rest::Items(items) => {
            let Some((first, others)) = items.split_first() else {
                f.write_str("]")?;
                return Ok(next_waiting(waiting));
            };
            print_separator(is_first, f)?;
            print_part(&first.item, Rest::Items(others), waiting, f)
        }
        Rest::Entries(entries) => {
            let Some(((key, first), others)) = entries.split_first() else {
                f.write_str("}")?;
                return Ok(next_waiting(waiting));
            };
            print_separator(is_first, f)?;
            print_key(key.item.as_str(), f)?;
            print_part(&first.item, Rest::Entries(others), waiting, f)
        }
    }
}

// Takes the last one off the list. Something stands before what is left of it.
fn next_waiting<'v, S: ScalarValue>(waiting: &mut Vec<Rest<'v, S>>) -> Option<(bool, Rest<'v, S>)>
    ensures { printed_next S.text S.str_of result waiting.new.items
        ≡ printed_waiting S.text S.str_of waiting.old.items }
{
    match waiting.pop() {
        Some(rest) => Some((false, rest)),
        None => None,
    }
}

// Prints a value, or its opening bracket alone; then what follows it waits.
fn print_part<'v, S: ScalarValue, W: fmt::Write>(
    value: &'v InputValue<S>,
    others: Rest<'v, S>,
    waiting: &mut Vec<Rest<'v, S>>,
    f: &mut fmt::Formatter<W>,
) -> Result<Option<(bool, Rest<'v, S>)>, fmt::Error>
    ensures { IfOk result (λ o. WritesPart W.write_str_gives f.old f.new
        (printed_next S.text S.str_of o waiting.new.items)
        (printed_value S.text S.str_of value.now
        ++ printed_next S.text S.str_of (Some (false, others.entry)) waiting.old.items)) }
{
    let Some((_, inside)) = print_opening(value, f)? else {
        return Ok(Some((false, others)));
    };
    match waiting.push(others) {
        Ok(()) => Ok(Some((true, inside))),
        Err(_) => Err(fmt::Error),
    }
}

fn print_key<W: fmt::Write>(key: &str, f: &mut fmt::Formatter<W>) -> fmt::Result
    ensures { WritesOnOk W.write_str_gives f.old result (key.now ++ codes ": ") f.new }
{
    f.write_str(key)?;
    f.write_str(": ")
}
