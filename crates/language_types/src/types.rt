//! References to types in a document or a schema (GraphQL, October 2021, section 2.11).
ghost use Rattle.std.specs.Prelude.{◌≡◌, Some, IsTrue, ◌↔◌, IfOk, IsOk, option_map, option_copied, fold};
ghost use Rattle.std.specs.Fmt.{WritesOnOk};
ghost use Rattle.std.specs.List.{flat_map, list_any};
ghost use Rattle.language_types.specs.Types.{shape, borrowed_shape, nullable_named, non_null_named, non_null_of};
ghost use Rattle.language_types.specs.Types.{nullable_of, list_of, printed, name_of, inner_of, list_inner_of};
ghost use Rattle.language_types.specs.Types.{IsItemType, IsNonNull, outermost, with_modifier, opening, closing};
ghost use Rattle.language_types.specs.Types.{is_list_modifier};

use crate::error::OutOfMemory;
use std::alloc::{AllocError, Global};
use std::fmt;

/// A wrapper of a type.
#[derive(Clone, Copy, Debug, PartialEq, Eq, Hash)]
pub enum TypeModifier {
    /// The type is non-null.
    NonNull,
    /// A list of the type; with a number, that many items are expected.
    List(Option<usize>),
}

/// A type: a name with its modifiers, innermost first.
///
/// Two types are equal if their names and their modifiers are, the expected sizes included.
#[derive(Debug, PartialEq, Eq, Drop)]
pub struct Type {
    name: String,
    modifiers: Vec<TypeModifier>,
}

/// A type that borrows its name and its modifiers, innermost first.
#[derive(Clone, Copy, Debug, PartialEq, Eq)]
pub struct BorrowedType<'a> {
    name: &'a str,
    modifiers: &'a [TypeModifier],
}

impl Type {
    /// The type of this name, nullable.
    ///
    /// # Errors
    ///
    /// Out of memory.
    pub fn nullable(alloc: Global, name: &str) -> Result<Type, OutOfMemory>
        ensures { IfOk result (λ t. shape t ≡ nullable_named name.now) }
    {
        Ok(Type {
            name: String::from_str(alloc, name)?,
            modifiers: Vec::new(alloc),
        })
    }

    /// The type of this name, non-null.
    ///
    /// # Errors
    ///
    /// Out of memory.
    pub fn non_null(alloc: Global, name: &str) -> Result<Type, OutOfMemory>
        ensures { IfOk result (λ t. shape t ≡ non_null_named name.now) }
    {
        Type::nullable(alloc, name)?.wrap_non_null()
    }

    /// The type made non-null. A non-null type stays as it is, and nothing is allocated.
    ///
    /// # Errors
    ///
    /// Out of memory; never if the type is non-null already.
    pub fn wrap_non_null(self) -> Result<Type, OutOfMemory>
        ensures value { IfOk result (λ t. shape t ≡ non_null_of (shape self)) }
        ensures succeeds { IsNonNull (shape self) → IsOk result }
    {
        if self.is_non_null() {
            return Ok(self);
        }
        let Type {
            name,
            mut modifiers,
        } = self;
        modifiers.push(TypeModifier::NonNull)?;
        Ok(Type { name, modifiers })
    }

    /// The type of lists of this type; with a number, that many items are expected.
    ///
    /// # Errors
    ///
    /// Out of memory.
    pub fn wrap_list(self, expected_size: Option<usize>) -> Result<Type, OutOfMemory>
        ensures { IfOk result (λ t. shape t ≡ list_of expected_size (shape self)) }
    {
        let Type {
            name,
            mut modifiers,
        } = self;
        modifiers.push(TypeModifier::List(expected_size))?;
        Ok(Type { name, modifiers })
    }

    /// The type without its outermost non-null, if it has one.
    pub fn into_nullable(self) -> Type
        ensures { shape result ≡ nullable_of (shape self) }
    {
        if !self.is_non_null() {
            return self;
        }
        let Type {
            name,
            mut modifiers,
        } = self;
        let _ = modifiers.pop();
        Type { name, modifiers }
    }

    /// The same type, borrowed.
    pub fn as_borrowed(&self) -> BorrowedType<'_>
        ensures { borrowed_shape result ≡ shape self.now }
    {
        BorrowedType {
            name: self.name.as_str(),
            modifiers: self.modifiers.as_slice(),
        }
    }

    /// The name; `None` if the type contains a list.
    pub fn name(&self) -> Option<&str>
        ensures { option_copied result ≡ name_of (shape self.now) }
    {
        self.as_borrowed().name()
    }

    /// The name, whatever its modifiers are.
    pub fn innermost_name(&self) -> &str
        ensures { result.now ≡ (shape self.now).name }
    {
        self.name.as_str()
    }

    /// The outermost modifier, if there is one.
    pub fn modifier(&self) -> Option<&TypeModifier>
        ensures { option_copied result ≡ outermost (shape self.now).modifiers }
    {
        self.as_borrowed().modifier()
    }

    /// The modifiers, innermost first.
    pub fn modifiers(&self) -> &[TypeModifier]
        ensures { result.now ≡ (shape self.now).modifiers }
    {
        self.as_borrowed().modifiers()
    }

    /// The type without its outermost modifier; a type with no modifier stays as it is.
    pub fn borrow_inner(&self) -> BorrowedType<'_>
        ensures { borrowed_shape result ≡ inner_of (shape self.now) }
    {
        self.as_borrowed().borrow_inner()
    }

    /// The type of the items, if the type is a list or a non-null list.
    pub fn borrow_list_inner(&self) -> Option<BorrowedType<'_>>
        ensures value { option_map borrowed_shape result ≡ list_inner_of (shape self.now) }
        ensures exactly { (u : _) → (option_map borrowed_shape result ≡ Some u) ↔ IsItemType u (shape self.now) }
    {
        self.as_borrowed().borrow_list_inner()
    }

    /// Whether the outermost modifier is a non-null.
    pub fn is_non_null(&self) -> bool
        ensures { IsTrue result ↔ IsNonNull (shape self.now) }
    {
        self.as_borrowed().is_non_null()
    }
}

impl Clone for Type {
    ghost use Rattle.std.specs.Prelude.{◌≡◌};
    ghost use Rattle.language_types.specs.Types.{shape};

    ghost is_clone = { λ s t. shape t ≡ shape s };

    fn clone(&self) -> Result<Type, AllocError> {
        Ok(Type {
            name: self.name.clone()?,
            modifiers: Vec::from_slice(*self.modifiers.allocator(), self.modifiers.as_slice())?,
        })
    }
}

impl<'a> BorrowedType<'a> {
    /// The type of this name, nullable.
    pub fn nullable(name: &'a str) -> BorrowedType<'a>
        ensures { borrowed_shape result ≡ nullable_named name.now }
    {
        BorrowedType {
            name,
            modifiers: &[],
        }
    }

    /// The type of this name, non-null.
    pub fn non_null(name: &'a str) -> BorrowedType<'a>
        ensures { borrowed_shape result ≡ non_null_named name.now }
    {
        BorrowedType {
            name,
            modifiers: &[TypeModifier::NonNull],
        }
    }

    /// The name; `None` if the type contains a list.
    pub fn name(self) -> Option<&'a str>
        ensures { option_copied result ≡ name_of (borrowed_shape self.entry) }
    {
        if has_list(self.modifiers) {
            None
        } else {
            Some(self.name)
        }
    }

    /// The name, whatever its modifiers are.
    pub fn innermost_name(self) -> &'a str
        ensures { result.now ≡ (borrowed_shape self.entry).name }
    {
        self.name
    }

    /// The outermost modifier, if there is one.
    pub fn modifier(self) -> Option<&'a TypeModifier>
        ensures { option_copied result ≡ outermost (borrowed_shape self.entry).modifiers }
    {
        self.modifiers.last()
    }

    /// The modifiers, innermost first.
    pub fn modifiers(self) -> &'a [TypeModifier]
        ensures { result.now ≡ (borrowed_shape self.entry).modifiers }
    {
        self.modifiers
    }

    /// The type without its outermost modifier; a type with no modifier stays as it is.
    pub fn borrow_inner(self) -> BorrowedType<'a>
        ensures { borrowed_shape result ≡ inner_of (borrowed_shape self.entry) }
    {
        match self.modifiers.split_last() {
            Some((_, inner)) => BorrowedType {
                name: self.name,
                modifiers: inner,
            },
            None => self,
        }
    }

    /// The type of the items, if the type is a list or a non-null list.
    pub fn borrow_list_inner(self) -> Option<BorrowedType<'a>>
        ensures value { option_map borrowed_shape result ≡ list_inner_of (borrowed_shape self.entry) }
        ensures exactly { (u : _) → (option_map borrowed_shape result ≡ Some u)
            ↔ IsItemType u (borrowed_shape self.entry) }
    {
        let list = self.borrow_nullable();
        match list.modifiers.last() {
            Some(TypeModifier::List(_)) => Some(list.borrow_inner()),
            _ => None,
        }
    }

    /// The type without its outermost non-null, if it has one.
    fn borrow_nullable(self) -> BorrowedType<'a>
        ensures { borrowed_shape result ≡ nullable_of (borrowed_shape self.entry) }
    {
        if self.is_non_null() {
            self.borrow_inner()
        } else {
            self
        }
    }

    /// Whether the outermost modifier is a non-null.
    pub fn is_non_null(self) -> bool
        ensures { IsTrue result ↔ IsNonNull (borrowed_shape self.entry) }
    {
        matches!(self.modifiers.last(), Some(TypeModifier::NonNull))
    }
}

fn is_list(m: &TypeModifier) -> bool
    ensures { result ≡ is_list_modifier m.now }
{
    matches!(m, TypeModifier::List(_))
}

fn has_list(modifiers: &[TypeModifier]) -> bool
    ensures { result ≡ list_any is_list_modifier modifiers.now }
{
    modifiers.iter().any(is_list)
}

/// `Name`, `T!` or `[T]`; an expected size is not printed.
impl fmt::Display for BorrowedType<'_> {
    ghost output = { λ t. Some (printed (borrowed_shape t)) };

    fn fmt<W: fmt::Write>(&self, f: &mut fmt::Formatter<W>) -> fmt::Result {
        print_type(self.name, self.modifiers, f)
    }
}

/// `Name`, `T!` or `[T]`; an expected size is not printed.
impl fmt::Display for Type {
    ghost output = { λ t. Some (printed (shape t)) };

    fn fmt<W: fmt::Write>(&self, f: &mut fmt::Formatter<W>) -> fmt::Result {
        print_type(self.name.as_str(), self.modifiers.as_slice(), f)
    }
}

/// Writes a name with its modifiers, innermost first: `Name`, `T!` or `[T]` (section 2.11).
///
/// # Errors
///
/// The formatter's.
pub fn print_type<W: fmt::Write>(
    name: &str,
    modifiers: &[TypeModifier],
    f: &mut fmt::Formatter<W>,
) -> fmt::Result
    ensures { WritesOnOk W.write_str_gives f.old result (fold with_modifier name.now modifiers.now) f.new }
{
    print_openings(modifiers, f)?;
    f.write_str(name)?;
    print_closings(modifiers, f)
}

// A bracket for each list.
fn print_openings<W: fmt::Write>(
    modifiers: &[TypeModifier],
    f: &mut fmt::Formatter<W>,
) -> fmt::Result
    ensures { WritesOnOk W.write_str_gives f.old result (flat_map opening modifiers.now) f.new }
{
    for modifier in modifiers {
        f.write_str(opening(modifier))?;
    }
    Ok(())
}

// What ends each type, from the innermost on.
fn print_closings<W: fmt::Write>(
    modifiers: &[TypeModifier],
    f: &mut fmt::Formatter<W>,
) -> fmt::Result
    ensures { WritesOnOk W.write_str_gives f.old result (flat_map closing modifiers.now) f.new }
{
    for modifier in modifiers {
        f.write_str(closing(modifier))?;
    }
    Ok(())
}

fn opening(modifier: &TypeModifier) -> &'static str
    ensures { result.now ≡ opening modifier.now }
{
    match modifier {
        TypeModifier::NonNull => "",
        TypeModifier::List(_) => "[",
    }
}

fn closing(modifier: &TypeModifier) -> &'static str
    ensures { result.now ≡ closing modifier.now }
{
    match modifier {
        TypeModifier::NonNull => "!",
        TypeModifier::List(_) => "]",
    }
}
