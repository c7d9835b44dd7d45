//! The lists, objects and variables that are begun, the innermost last.
ghost use Rattle.std.specs.Prelude.{◌≡◌, ◌∷◌, IfOk, IfErr, OnOk};
ghost use Rattle.value_reader.specs.Machine.{attach, depth_of, going, items_of, fields_of, span_of};
ghost use Rattle.value_reader.specs.Seen.{begun_seen, stack_seen, value_seen, values_seen, entries_seen, IsTurn};
ghost use Rattle.value_reader.specs.Values.{list, object};

use graphql_lexer::error::ReadError;
use language_types::error::OutOfMemory;
use language_types::position::{SourcePosition, Span, Spanning};
use language_values::value::InputValue;
use sdl_scalars::scalar::SourceScalar;

pub(crate) type Value = InputValue<SourceScalar>;

pub(crate) type Entries = Vec<(Spanning<String>, Spanning<Value>)>;

/// What is begun: from where on, and what it holds so far.
#[derive(Drop)]
pub(crate) enum Begun {
    /// A list.
    List(SourcePosition, Vec<Spanning<Value>>),
    /// An object, where a key or the end comes next.
    Key(SourcePosition, Entries),
    /// An object, where the colon behind this key comes next.
    Colon(SourcePosition, Entries, Spanning<String>),
    /// An object, where the value of this key comes next.
    Value(SourcePosition, Entries, Spanning<String>),
    /// A variable, where its name comes next.
    Name(SourcePosition),
}

/// What a token leads to: the whole value, or none while something is begun.
pub(crate) type Turn = Option<Spanning<Value>>;

/// Begins a part.
pub(crate) fn begin<'a>(parts: &mut Vec<Begun>, part: Begun) -> Result<Turn, ReadError<'a>>
    ensures turn { IfOk result (λ t. IsTurn parts.new t (going (begun_seen part ∷ stack_seen parts.old))) }
    ensures memory { IfErr result (λ e. e ≡ ReadError.OutOfMemory) }
{
    match parts.push(part) {
        Ok(()) => Ok(None),
        Err(_) => Err(ReadError::OutOfMemory),
    }
}

/// Puts back what was taken off.
pub(crate) fn put_back<'a>(parts: &mut Vec<Begun>, part: Begun) -> Result<(), ReadError<'a>>
    ensures put { OnOk result (stack_seen parts.new ≡ begun_seen part ∷ stack_seen parts.old) }
    ensures memory { IfErr result (λ e. e ≡ ReadError.OutOfMemory) }
{
    match parts.push(part) {
        Ok(()) => Ok(()),
        Err(_) => Err(ReadError::OutOfMemory),
    }
}

/// Puts a value into what is innermost; where nothing is begun, it is the whole value.
pub(crate) fn attach<'a>(
    parts: &mut Vec<Begun>,
    value: Spanning<Value>,
) -> Result<Turn, ReadError<'a>>
    ensures turn { IfOk result (λ t. IsTurn parts.new t (attach (value_seen value) (stack_seen parts.old))) }
    ensures memory { IfErr result (λ e. e ≡ ReadError.OutOfMemory) }
{
    match put(parts, value) {
        Ok(turn) => Ok(turn),
        Err(_) => Err(ReadError::OutOfMemory),
    }
}

fn put(parts: &mut Vec<Begun>, value: Spanning<Value>) -> Result<Turn, OutOfMemory>
    ensures { IfOk result (λ t. IsTurn parts.new t (attach (value_seen value) (stack_seen parts.old))) }
{
    match parts.pop() {
        None => Ok(Some(value)),
        Some(Begun::List(start, mut items)) => {
            items.push(value)?;
            parts.push(Begun::List(start, items))?;
            Ok(None)
        }
        Some(Begun::Value(start, mut entries, key)) => {
            entries.push((key, value))?;
            parts.push(Begun::Key(start, entries))?;
            Ok(None)
        }
        // No value stands there.
        Some(_) => Ok(None),
    }
}

/// In how many lists and objects the next token stands.
pub(crate) fn depth(parts: &Vec<Begun>) -> usize
    ensures { result ≡ depth_of (stack_seen parts.now) }
{
    parts.len()
}

/// A list that ends there.
pub(crate) fn list(
    start: SourcePosition,
    mut items: Vec<Spanning<Value>>,
    end: SourcePosition,
) -> Spanning<Value>
    ensures { value_seen result ≡ list (items_of (values_seen items)) (span_of start end) }
{
    items.shrink_to_fit();
    Spanning {
        item: InputValue::List(items),
        span: Span { start, end },
    }
}

/// An object that ends there.
pub(crate) fn object(
    start: SourcePosition,
    mut entries: Vec<(Spanning<String>, Spanning<Value>)>,
    end: SourcePosition,
) -> Spanning<Value>
    ensures { value_seen result ≡ object (fields_of (entries_seen entries)) (span_of start end) }
{
    entries.shrink_to_fit();
    Spanning {
        item: InputValue::Object(entries),
        span: Span { start, end },
    }
}
