//! Faults: where they are, what they are, and their texts.
ghost use Rattle.std.specs.Prelude.{◌≡◌, Some};
ghost use Rattle.std.specs.Fmt.{WritesOnOk};
ghost use Rattle.language_types.specs.Types.{borrowed_shape};
ghost use Rattle.type_system_report.specs.Fault.{coordinate_value, fault_value, holder_of, last_name};
ghost use Rattle.type_system_report.specs.Texts.{absent_text, coordinate_text, expected_text, fault_text, given_text};
ghost use Rattle.type_system_report.specs.Texts.{missing_text, once_text, required_text, root_word, text_at};

use language::tree::OperationType;
use language::types::BorrowedType;
use std::fmt;

/// Where a fault is: a type, a member of one, or a directive, by names `N`.
#[derive(Clone, Copy, Debug, PartialEq, Eq)]
pub enum CoordinateOf<N> {
    /// `Type`
    Type(N),
    /// `Type.field`, also of an input object
    Field(N, N),
    /// `Type.field(argument:)`
    Argument(N, N, N),
    /// `Enum.VALUE`
    EnumValue(N, N),
    /// `@directive`
    Directive(N),
    /// `@directive(argument:)`
    DirectiveArgument(N, N),
}

/// A coordinate that borrows the names of a schema.
pub type Coordinate<'a> = CoordinateOf<&'a str>;

/// What a fault is, by names `N` and types `T`. Of an interface it has the coordinate of the member
/// that is not met.
#[derive(Clone, Copy, Debug, PartialEq, Eq)]
pub enum FaultKindOf<N, T> {
    /// The name begins with `__` (section 3.3).
    ReservedName,
    /// The type is the root of both kinds of operations (section 3.3.1).
    SharedRoot(OperationType, OperationType),
    /// An object, an interface or an input object has no field (sections 3.6, 3.7 and 3.10).
    NoFields,
    /// An enum has no value (section 3.9).
    NoValues,
    /// A union has no member (section 3.8).
    NoMembers,
    /// A field has this type, which is no output type (sections 3.6 and 3.7).
    NotOutputType(T),
    /// The type implements the type of this name, which is no interface (sections 3.6 and 3.7).
    NotInterface(N),
    /// The type implements the interface of this name again (sections 3.6 and 3.7).
    RepeatedInterface(N),
    /// An interface implements itself (section 3.7).
    OwnInterface,
    /// The type lacks the first interface, which the second, an interface of the type, implements
    /// (sections 3.6 and 3.7).
    MissingAncestor(N, N),
    /// The interface of this name implements the type, which implements it (section 3.7).
    CircularInterface(N),
    /// The type lacks this field of an interface (sections 3.6 and 3.7).
    MissingField(CoordinateOf<N>),
    /// This field of an interface has the first type, of which the second is no subtype (sections 3.6
    /// and 3.7).
    WrongFieldType(CoordinateOf<N>, T, T),
    /// The field lacks this argument of an interface (sections 3.6 and 3.7).
    MissingArgument(CoordinateOf<N>),
    /// This argument of an interface has the first type, which the second is not (sections 3.6 and
    /// 3.7).
    WrongArgumentType(CoordinateOf<N>, T, T),
    /// The argument is required, and this field of an interface lacks it (sections 3.6 and 3.7).
    AddedArgument(CoordinateOf<N>),
    /// A union has the member of this name again (section 3.8).
    RepeatedMember(N),
    /// An enum value is named `true`, `false` or `null` (section 3.9).
    ReservedValue,
    /// A directive has no location (section 3.13).
    NoLocations,
    /// A required argument is deprecated (sections 3.6 and 3.13).
    DeprecatedArgument,
    /// A required input field is deprecated (section 3.10).
    DeprecatedInputField,
}

/// The kind of a fault that borrows from a schema.
pub type FaultKind<'a> = FaultKindOf<&'a str, BorrowedType<'a>>;

/// A fault of a type system, by names `N` and types `T`.
#[derive(Clone, Copy, Debug, PartialEq, Eq)]
pub struct FaultOf<N, T> {
    pub coordinate: CoordinateOf<N>,
    pub kind: FaultKindOf<N, T>,
}

/// A fault that borrows from a schema.
pub type Fault<'a> = FaultOf<&'a str, BorrowedType<'a>>;

impl<'a> CoordinateOf<&'a str> {
    /// The last name of the coordinate.
    pub fn name(self) -> &'a str
        ensures { result.now ≡ last_name (coordinate_value self.entry) }
    {
        match self {
            CoordinateOf::Type(name) => name,
            CoordinateOf::Field(_, name) => name,
            CoordinateOf::Argument(_, _, name) => name,
            CoordinateOf::EnumValue(_, name) => name,
            CoordinateOf::Directive(name) => name,
            CoordinateOf::DirectiveArgument(_, name) => name,
        }
    }

    /// The coordinate of what the last name is a member of; of a type or a directive, that itself.
    pub fn holder(self) -> CoordinateOf<&'a str>
        ensures { coordinate_value result ≡ holder_of (coordinate_value self.entry) }
    {
        match self {
            CoordinateOf::Type(name) => CoordinateOf::Type(name),
            CoordinateOf::Field(of, _) => CoordinateOf::Type(of),
            CoordinateOf::Argument(of, field, _) => CoordinateOf::Field(of, field),
            CoordinateOf::EnumValue(of, _) => CoordinateOf::Type(of),
            CoordinateOf::Directive(name) => CoordinateOf::Directive(name),
            CoordinateOf::DirectiveArgument(of, _) => CoordinateOf::Directive(of),
        }
    }
}

/// `Type`, `Type.field`, `Type.field(argument:)`, `Enum.VALUE`, `@directive` or `@directive(argument:)`.
impl fmt::Display for CoordinateOf<&str> {
    ghost output = { λ c. Some (coordinate_text (coordinate_value c)) };

    fn fmt<W: fmt::Write>(&self, f: &mut fmt::Formatter<W>) -> fmt::Result {
        match self {
            CoordinateOf::Type(name) => write!(f, "{name}"),
            CoordinateOf::Field(of, name) => write!(f, "{of}.{name}"),
            CoordinateOf::Argument(of, field, name) => write!(f, "{of}.{field}({name}:)"),
            CoordinateOf::EnumValue(of, name) => write!(f, "{of}.{name}"),
            CoordinateOf::Directive(name) => write!(f, "@{name}"),
            CoordinateOf::DirectiveArgument(of, name) => write!(f, "@{of}({name}:)"),
        }
    }
}

fn root_word(root: OperationType) -> &'static str
    ensures { result.now ≡ root_word root }
{
    match root {
        OperationType::Query => "query",
        OperationType::Mutation => "mutation",
        OperationType::Subscription => "subscription",
    }
}

/// What is wrong, in a sentence without a period. The coordinate is told only where it is part of that.
impl fmt::Display for FaultOf<&str, BorrowedType<'_>> {
    ghost output = { λ f. Some (fault_text (fault_value f)) };

    fn fmt<W: fmt::Write>(&self, f: &mut fmt::Formatter<W>) -> fmt::Result {
        let at = self.coordinate;
        match &self.kind {
            FaultKindOf::ReservedName => write_reserved_name(f, at),
            FaultKindOf::SharedRoot(a, b) => write_shared_root(f, at, *a, *b),
            FaultKindOf::NoFields => write!(f, "Type {at} must define one or more fields"),
            FaultKindOf::NoValues => write!(f, "Enum type {at} must define one or more values"),
            FaultKindOf::NoMembers => {
                write!(f, "Union type {at} must define one or more member types")
            }
            FaultKindOf::NotOutputType(t) => {
                write!(f, "The type of {at} must be an output type but got {t}")
            }
            FaultKindOf::NotInterface(name) => write!(
                f,
                "Type {at} must only implement interface types, it cannot implement {name}"
            ),
            FaultKindOf::RepeatedInterface(name) => write_repeated(f, at, name),
            FaultKindOf::OwnInterface => write!(
                f,
                "Type {at} cannot implement itself because it would create a circular reference"
            ),
            FaultKindOf::MissingAncestor(name, by) => write_missing_ancestor(f, at, name, by),
            FaultKindOf::CircularInterface(name) => write_circular(f, at, name),
            FaultKindOf::MissingField(wanted) => write_missing(f, "Interface field ", *wanted, at),
            FaultKindOf::WrongFieldType(wanted, t, u) => {
                write_expected(f, "Interface field ", *wanted, *t)?;
                write_given(f, at, *u)
            }
            FaultKindOf::MissingArgument(wanted) => {
                write_missing(f, "Interface field argument ", *wanted, at)
            }
            FaultKindOf::WrongArgumentType(wanted, t, u) => {
                write_expected(f, "Interface field argument ", *wanted, *t)?;
                write_given(f, at, *u)
            }
            FaultKindOf::AddedArgument(wanted) => {
                write_required(f, at)?;
                write!(f, " that is missing from the Interface field {wanted}")
            }
            FaultKindOf::RepeatedMember(name) => write_repeated_member(f, at, name),
            FaultKindOf::ReservedValue => write_reserved_value(f, at),
            FaultKindOf::NoLocations => {
                write!(f, "Directive {at} must include one or more locations")
            }
            FaultKindOf::DeprecatedArgument => {
                write!(f, "Required argument {at} cannot be deprecated")
            }
            FaultKindOf::DeprecatedInputField => {
                write!(f, "Required input field {at} cannot be deprecated")
            }
        }
    }
}

fn write_reserved_name<W: fmt::Write>(f: &mut fmt::Formatter<W>, at: Coordinate<'_>) -> fmt::Result
    ensures { WritesOnOk W.write_str_gives f.old result (text_at (coordinate_value at.entry) FaultKindOf.ReservedName)
        f.new }
{
    let name = at.name();
    write!(
        f,
        "Name \"{name}\" must not begin with \"__\", which is reserved by introspection"
    )
}

fn write_shared_root<W: fmt::Write>(
    f: &mut fmt::Formatter<W>,
    at: Coordinate<'_>,
    a: OperationType,
    b: OperationType,
) -> fmt::Result
    ensures { WritesOnOk W.write_str_gives f.old result
        (text_at (coordinate_value at.entry) (FaultKindOf.SharedRoot a b)) f.new }
{
    let a = root_word(a);
    let b = root_word(b);
    write!(f, "All root types must be different: \"{at}\"")?;
    write!(f, " is the root of {a} and {b}")
}

fn write_repeated<W: fmt::Write>(
    f: &mut fmt::Formatter<W>,
    at: Coordinate<'_>,
    name: &str,
) -> fmt::Result
    ensures { WritesOnOk W.write_str_gives f.old result
        (text_at (coordinate_value at.entry) (FaultKindOf.RepeatedInterface name.now)) f.new }
{
    write!(f, "Type {at}")?;
    write_once(f, name)
}

fn write_once<W: fmt::Write>(f: &mut fmt::Formatter<W>, name: &str) -> fmt::Result
    ensures { WritesOnOk W.write_str_gives f.old result (once_text name.now) f.new }
{
    write!(f, " can only implement {name} once")
}

fn write_missing_ancestor<W: fmt::Write>(
    f: &mut fmt::Formatter<W>,
    at: Coordinate<'_>,
    name: &str,
    by: &str,
) -> fmt::Result
    ensures { WritesOnOk W.write_str_gives f.old result
        (text_at (coordinate_value at.entry) (FaultKindOf.MissingAncestor name.now by.now)) f.new }
{
    write!(f, "Type {at} must implement {name}")?;
    write!(f, " because it is implemented by {by}")
}

fn write_circular<W: fmt::Write>(
    f: &mut fmt::Formatter<W>,
    at: Coordinate<'_>,
    name: &str,
) -> fmt::Result
    ensures { WritesOnOk W.write_str_gives f.old result
        (text_at (coordinate_value at.entry) (FaultKindOf.CircularInterface name.now)) f.new }
{
    write!(f, "Type {at} cannot implement {name}")?;
    f.write_str(" because it would create a circular reference")
}

fn write_repeated_member<W: fmt::Write>(
    f: &mut fmt::Formatter<W>,
    at: Coordinate<'_>,
    name: &str,
) -> fmt::Result
    ensures { WritesOnOk W.write_str_gives f.old result
        (text_at (coordinate_value at.entry) (FaultKindOf.RepeatedMember name.now)) f.new }
{
    write!(f, "Union type {at}")?;
    write!(f, " can only include type {name} once")
}

fn write_missing<W: fmt::Write>(
    f: &mut fmt::Formatter<W>,
    member: &str,
    wanted: Coordinate<'_>,
    at: Coordinate<'_>,
) -> fmt::Result
    ensures { WritesOnOk W.write_str_gives f.old result
        (missing_text member.now (coordinate_value wanted.entry) (coordinate_value at.entry)) f.new }
{
    write!(f, "{member}{wanted}")?;
    write_absent(f, at)
}

fn write_absent<W: fmt::Write>(f: &mut fmt::Formatter<W>, at: Coordinate<'_>) -> fmt::Result
    ensures { WritesOnOk W.write_str_gives f.old result (absent_text (coordinate_value at.entry)) f.new }
{
    write!(f, " expected but {at} does not provide it")
}

fn write_expected<W: fmt::Write>(
    f: &mut fmt::Formatter<W>,
    member: &str,
    wanted: Coordinate<'_>,
    t: BorrowedType<'_>,
) -> fmt::Result
    ensures { WritesOnOk W.write_str_gives f.old result
        (expected_text member.now (coordinate_value wanted.entry) (borrowed_shape t.entry)) f.new }
{
    write!(f, "{member}{wanted} expects type {t}")
}

fn write_given<W: fmt::Write>(
    f: &mut fmt::Formatter<W>,
    at: Coordinate<'_>,
    t: BorrowedType<'_>,
) -> fmt::Result
    ensures { WritesOnOk W.write_str_gives f.old result
        (given_text (coordinate_value at.entry) (borrowed_shape t.entry)) f.new }
{
    write!(f, " but {at} is type {t}")
}

fn write_required<W: fmt::Write>(f: &mut fmt::Formatter<W>, at: Coordinate<'_>) -> fmt::Result
    ensures { WritesOnOk W.write_str_gives f.old result (required_text (coordinate_value at.entry)) f.new }
{
    let of = at.holder();
    let name = at.name();
    write!(f, "Object field {of} includes required argument {name}")
}

fn write_reserved_value<W: fmt::Write>(f: &mut fmt::Formatter<W>, at: Coordinate<'_>) -> fmt::Result
    ensures { WritesOnOk W.write_str_gives f.old result (text_at (coordinate_value at.entry) FaultKindOf.ReservedValue)
        f.new }
{
    let of = at.holder();
    let name = at.name();
    write!(f, "Enum type {of} cannot include value: {name}")
}
