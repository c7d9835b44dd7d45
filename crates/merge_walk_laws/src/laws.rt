//! Laws of the fields and selection sets of a document.

ghost use Rattle.merge_walk_laws.specs.Laws.{FieldsOccur, SetsOccur, InlinesOccur, FieldsAreTidy, SetsAgree};
ghost use Rattle.merge_walk_laws.specs.Laws.{FieldsAgree, TidyArguments};

/// Each field of a document is met by a walk over it.
pub fn fields_occur<S, C>()
    ensures { FieldsOccur S C }
{}

/// Each selection set of a document is met by a walk over it.
pub fn sets_occur<S, C>()
    ensures { SetsOccur S C }
{}

/// Each inline fragment of a document's sets is met by a walk over it.
pub fn inlines_occur<S, C>()
    ensures { InlinesOccur S C }
{}

/// Where no field that a walk meets repeats an argument, nor a key in one, no field of the document does.
pub fn fields_are_tidy<S, C>()
    ensures { FieldsAreTidy S C }
{}

/// Arguments are tidy if and only if their names differ and no value repeats a key.
pub fn tidy_arguments<S>()
    ensures { TidyArguments S }
{}

/// The type around each selection set is the parent type that a walk has there, and the walk meets no other sets.
pub fn sets_agree<S, C>()
    ensures { SetsAgree S C }
{}

/// A walk meets each field under the type around its set, and meets no other fields.
pub fn fields_agree<S, C>()
    ensures { FieldsAgree S C }
{}
