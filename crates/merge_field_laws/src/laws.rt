//! Laws of two fields that can be merged.

ghost use Rattle.merge_field_laws.specs.Laws.{MergesEitherOrder, MergesWhereExclusive, MergesWithItself};
ghost use Rattle.merge_field_laws.specs.Laws.{EachMergesWithItself};

use language::scalar::ScalarValue;

/// Where no field of a document repeats an argument, nor a key in one, two of its fields merge if and only if they
/// merge in the other order.
pub fn merges_in_either_order<S: ScalarValue, C>()
    ensures { MergesEitherOrder S C S.eq }
{}

/// Two fields that merge also merge where no object is asked for both.
pub fn merges_where_exclusive<S: ScalarValue, C>()
    ensures { MergesWhereExclusive S C S.eq }
{}

/// Where no field of a document repeats an argument, nor a key in one, and no fragment leads back to itself, a field
/// merges with itself once all sets below it merge. So each field does where the document merges, if the conditions of
/// its inline fragments are known.
pub fn merges_with_itself<S: ScalarValue, C>()
    ensures below { MergesWithItself S C S.eq }
    ensures all { EachMergesWithItself S C S.eq }
{}
