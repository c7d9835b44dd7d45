//! Whether two types can't stand in one place of a response.
ghost use Rattle.std.specs.Prelude.{◌≡◌, option_copied};
ghost use Rattle.language_types.specs.Types.{shape, borrowed_shape};
ghost use Rattle.merge_field_pairs.specs.TypeConflict.{settled_of, is_leaf_named, do_names_conflict, do_types_conflict};
ghost use Rattle.merge_field_pairs.specs.TypeConflict.{conflict_by_outermost};

use language::types::{BorrowedType, Type, TypeModifier};
use schema::model::SchemaTypeOf;

/// What the outermost modifiers of two types say of their conflict.
pub enum Settled {
    /// It is that of the inner types.
    Inside,
    /// It is that of the plain names.
    ByNames,
    Agreeing,
    Conflicting,
}

/// Whether they differ in a non-null or a list, or are two names of which one is a leaf's. Lists of
/// different expected sizes have no conflict.
pub fn are_in_conflict<S, C>(schema: &SchemaTypeOf<S, C>, left: &Type, right: &Type) -> bool
    ensures value { result ≡ do_types_conflict schema.now (shape left.now) (shape right.now) }
    ensures by_outermost { result ≡ conflict_by_outermost schema.now (shape left.now) (shape right.now) }
{
    conflict_of(schema, left.as_borrowed(), right.as_borrowed())
}

// Goes down both types at once.
fn conflict_of<S, C>(
    schema: &SchemaTypeOf<S, C>,
    mut left: BorrowedType<'_>,
    mut right: BorrowedType<'_>,
) -> bool
    ensures { result ≡ do_types_conflict schema.now (borrowed_shape left.entry) (borrowed_shape right.entry) }
{
    loop {
        match settled_by(left.modifier(), right.modifier()) {
            Settled::Inside => {
                left = left.borrow_inner();
                right = right.borrow_inner();
            }
            Settled::ByNames => {
                return names_conflict(schema, left.innermost_name(), right.innermost_name());
            }
            Settled::Agreeing => return false,
            Settled::Conflicting => return true,
        }
    }
}

// What the outermost modifiers leave open.
fn settled_by(left: Option<&TypeModifier>, right: Option<&TypeModifier>) -> Settled
    ensures { result ≡ settled_of (option_copied left.entry) (option_copied right.entry) }
{
    match (left, right) {
        (Some(TypeModifier::NonNull), Some(TypeModifier::NonNull)) => Settled::Inside,
        (Some(TypeModifier::List(l)), Some(TypeModifier::List(r))) => {
            if *l == *r {
                Settled::Inside
            } else {
                Settled::Agreeing
            }
        }
        (None, None) => Settled::ByNames,
        _ => Settled::Conflicting,
    }
}

// The names first: most pairs of types are equal, and the others cost two look-ups.
fn names_conflict<S, C>(schema: &SchemaTypeOf<S, C>, left: &str, right: &str) -> bool
    ensures { result ≡ do_names_conflict schema.now left.now right.now }
{
    if left == right {
        return false;
    }
    is_leaf(schema, left) || is_leaf(schema, right)
}

fn is_leaf<S, C>(schema: &SchemaTypeOf<S, C>, name: &str) -> bool
    ensures { result ≡ is_leaf_named schema.now name.now }
{
    match schema.concrete_type_by_name(name) {
        Some(meta) => meta.is_leaf(),
        None => false,
    }
}
