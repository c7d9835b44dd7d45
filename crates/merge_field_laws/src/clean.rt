//! The same laws of documents in which the rules of the first stage find nothing, and of valid ones.

ghost use Rattle.merge_field_laws.specs.Clean.{CleanMergesFairly, ValidMergesWithItself};

use meta::check::CheckedScalar;
use validation::AllRules;
use validation::laws::clean_documents;

/// Laws of the fields of a document in which the rules of the first stage find nothing. Two of them merge if and only
/// if they merge in the other order. Two that merge also merge where no object is asked for both. A field merges with
/// itself if all sets below it merge.
pub fn merges_where_clean<'a, S: CheckedScalar + 'a>()
    ensures { CleanMergesFairly ⟦<S as AllRules<'a>>⟧.rules }
{
    clean_documents::<S>();
}

/// Each field of a valid document merges with itself.
pub fn merges_where_valid<'a, S: CheckedScalar + 'a>()
    ensures { ValidMergesWithItself ⟦<S as AllRules<'a>>⟧.rules }
{
    clean_documents::<S>();
}
