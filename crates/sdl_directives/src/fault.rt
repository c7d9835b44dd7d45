//! What is wrong with a directive of a type system document.
ghost use Rattle.std.specs.Prelude.{◌≡◌, ◌++◌, ◌∷◌, [], OnOk, Some};
ghost use Rattle.std.specs.Fmt.{WritesOnOk};
ghost use Rattle.language_types.specs.Types.{borrowed_shape};
ghost use Rattle.sdl_directives.specs.Fault.{fault_values, kind_value};
ghost use Rattle.sdl_directives.specs.Texts.{kind_text};

use crate::locations::location_words;
use graphql_reader::type_system::DirectivePlace;
use language::error::OutOfMemory;
use language::position::SourcePosition;
use language::types::BorrowedType;
use std::fmt;

/// What is wrong, by names `N` and types `T`.
#[derive(Clone, Copy, Debug, PartialEq, Eq)]
pub enum DirectiveFaultOf<N, T> {
    /// No directive of this name is defined.
    Unknown(N),
    /// The directive may not be used at this location.
    Misplaced(N, DirectivePlace),
    /// The directive, which is not repeatable, stands there before.
    Repeated(N),
    /// This argument is none of the directive's.
    UnknownArgument(N, N),
    /// The directive is given an argument of this name before.
    RepeatedArgument(N),
    /// The directive lacks this required argument, which has this type.
    MissingArgument(N, N, T),
}

/// What is wrong, by what the document has.
pub type DirectiveFault<'d> = DirectiveFaultOf<&'d str, BorrowedType<'d>>;

/// What is wrong, and where: the start of the directive, or the name of the argument.
#[derive(Clone, Copy, Debug, PartialEq, Eq)]
pub struct PlacedDirectiveFault<'d> {
    pub position: SourcePosition,
    pub fault: DirectiveFault<'d>,
}

/// Appends a fault.
pub(crate) fn report<'d>(
    faults: &mut Vec<PlacedDirectiveFault<'d>>,
    position: SourcePosition,
    fault: DirectiveFault<'d>,
) -> Result<(), OutOfMemory>
    ensures { OnOk result (fault_values faults.new.items ≡ fault_values faults.old.items
        ++ record { position = position; fault = kind_value fault.entry } ∷ []) }
{
    faults.push(PlacedDirectiveFault { position, fault })?;
    Ok(())
}

/// What is wrong, in a sentence without a period.
impl fmt::Display for DirectiveFaultOf<&str, BorrowedType<'_>> {
    ghost output = { λ f. Some (kind_text (kind_value f)) };

    fn fmt<W: fmt::Write>(&self, f: &mut fmt::Formatter<W>) -> fmt::Result {
        match self {
            DirectiveFaultOf::Unknown(name) => write!(f, "Unknown directive \"{name}\""),
            DirectiveFaultOf::Misplaced(name, location) => write_misplaced(f, name, *location),
            DirectiveFaultOf::Repeated(name) => {
                write!(f, "Directive \"{name}\" may be used only once here")
            }
            DirectiveFaultOf::UnknownArgument(name, of) => {
                write!(f, "Unknown argument \"{name}\" on directive \"{of}\"")
            }
            DirectiveFaultOf::RepeatedArgument(name) => {
                write!(f, "There can only be one argument named \"{name}\"")
            }
            DirectiveFaultOf::MissingArgument(of, name, t) => write_missing(f, of, name, *t),
        }
    }
}

fn write_misplaced<W: fmt::Write>(
    f: &mut fmt::Formatter<W>,
    name: &str,
    location: DirectivePlace,
) -> fmt::Result
    ensures { WritesOnOk W.write_str_gives f.old result
        (kind_text (DirectiveFaultOf.Misplaced name.now location)) f.new }
{
    let words = location_words(location);
    write!(f, "Directive \"{name}\" may not be used on {words}")
}

fn write_missing<W: fmt::Write>(
    f: &mut fmt::Formatter<W>,
    of: &str,
    name: &str,
    t: BorrowedType<'_>,
) -> fmt::Result
    ensures { WritesOnOk W.write_str_gives f.old result
        (kind_text (DirectiveFaultOf.MissingArgument of.now name.now (borrowed_shape t.entry))) f.new }
{
    write!(f, "Directive \"@{of}\" argument \"{name}\"")?;
    write!(f, " of type \"{t}\" is required but not provided")
}
