//! An error that a rule reports.

ghost use Rattle.std.specs.Prelude.{◌≡◌, IfOk, Some, string_bytes};
ghost use Rattle.std.specs.Fmt.{WritesOnOk};
ghost use Rattle.std.proofs.Common.{rules};
ghost use Rattle.std.specs.Cmp.{partial_equiv_from_equiv, partial_order_from_own_ties};
ghost use Rattle.std.specs.Cmp.Rules.{comparing};
ghost use Rattle.std.specs.Ordering.{as_partial_cmp, eq_by_cmp};
ghost use Rattle.walk.specs.ErrorValue.{error_cmp, more_places, printed_places, printed_error};

use language::error::OutOfMemory;
use language::position::SourcePosition;
use std::alloc::Global;
use std::cmp::Ordering;
use std::error::Error;
use std::fmt;
use std::marker::Model;

/// A message, and the places of the document that it is about.
///
/// Errors are ordered by their places, one by one, where a list stands before a longer one that begins with it; errors
/// at the same places are ordered by the bytes of their messages.
#[derive(Clone, Debug, Drop)]
pub struct RuleError {
    locations: Vec<SourcePosition>,
    message: String,
}

impl Model for RuleError {
    ghost use Rattle.std.specs.Prelude.{string_bytes};
    ghost use Rattle.walk.specs.ErrorValue.{ErrorValue};

    ghost Value = { ErrorValue };

    ghost view = { λ e. record { locations = e.locations.items; message = string_bytes e.message } };
}

impl RuleError {
    /// An error with this message, at these places, which are copied.
    ///
    /// # Errors
    ///
    /// Out of memory.
    pub fn new(
        alloc: Global,
        message: &str,
        locations: &[SourcePosition],
    ) -> Result<RuleError, OutOfMemory>
        ensures { IfOk result (λ e. e ≡ record { locations = locations.now; message = message.now }) }
    {
        Ok(RuleError {
            locations: locations.to_vec(alloc)?,
            message: String::from_str(alloc, message)?,
        })
    }

    /// The text of the error.
    pub fn message(&self) -> &str
        ensures { result.now ≡ self.now.message }
    {
        self.message.as_str()
    }

    /// The places, in the order in which they were given.
    pub fn locations(&self) -> &[SourcePosition]
        ensures { result.now ≡ self.now.locations }
    {
        self.locations.as_slice()
    }
}

/// The message, then `. At `, then the places as `line:column`, each of them 0-based, with `, ` between them.
impl fmt::Display for RuleError {
    ghost output = { λ e. Some (printed_error e) };

    fn fmt<W: fmt::Write>(&self, f: &mut fmt::Formatter<W>) -> fmt::Result {
        write!(f, "{}. At ", self.message)?;
        print_places(self.locations.as_slice(), f)
    }
}

impl Error for RuleError {}

fn print_places<W: fmt::Write>(places: &[SourcePosition], f: &mut fmt::Formatter<W>) -> fmt::Result
    ensures { WritesOnOk W.write_str_gives f.old result (printed_places places.now) f.new }
{
    match places.split_first() {
        None => Ok(()),
        Some((first, others)) => {
            write!(f, "{first}")?;
            print_more_places(others, f)
        }
    }
}

fn print_more_places<W: fmt::Write>(
    places: &[SourcePosition],
    f: &mut fmt::Formatter<W>,
) -> fmt::Result
    ensures { WritesOnOk W.write_str_gives f.old result (more_places places.now) f.new }
{
    for place in places {
        write!(f, ", {place}")?;
    }
    Ok(())
}

impl PartialEq for RuleError {
    ghost eq = { eq_by_cmp error_cmp };

    ghost laws = { partial_equiv_from_equiv (Prim.search (comparing, rules) depth 9) };

    fn eq(&self, other: &RuleError) -> bool {
        self.cmp(other).is_eq()
    }
}

impl Eq for RuleError {
    ghost laws = { Prim.search (comparing, rules) depth 9 };
}

impl Ord for RuleError {
    ghost cmp = { error_cmp };

    ghost total = { Prim.search (comparing, rules) depth 9 };

    ghost matches_partial_cmp = { Prim.search (comparing, rules) depth 9 };

    ghost matches_eq = { Prim.search (comparing, rules) depth 9 };

    fn cmp(&self, other: &RuleError) -> Ordering {
        self.locations
            .cmp(&other.locations)
            .then(self.message.cmp(&other.message))
    }
}

impl PartialOrd for RuleError {
    ghost partial_cmp = { as_partial_cmp error_cmp };

    ghost laws = { partial_order_from_own_ties
        (Prim.search (comparing, rules) depth 9) (Prim.search (comparing, rules) depth 9) };

    fn partial_cmp(&self, other: &RuleError) -> Option<Ordering> {
        Some(self.cmp(other))
    }
}
