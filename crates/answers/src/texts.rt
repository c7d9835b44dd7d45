//! The errors of a text.
ghost use Rattle.std.specs.Prelude.{◌≡◌, IfErr, IfOk, None};
ghost use Rattle.answers.specs.Answers.{AreErrorsOf, IsReportOn, choices_of};
ghost use Rattle.graphql_reader.specs.Faults.{IsDocumentFault, IsNoDocument};

use crate::choices::Choices;
use crate::errors::errors_of;
use crate::rules::AnswerRules;
use graphql_reader::{ReadError, SourceScalar, read_document};
use std::alloc::Global;
use validation::{Definition, RootNode, RuleError};

/// Reads the document of a text and validates it against a root node. Returns its errors in ascending order. There are
/// none if and only if it is valid. Where they count as many as the root node's `max_errors` or more, or
/// there is one without a place, there may be more.
///
/// # Errors
///
/// The text is that of no document: the error tells the place of the first token with which none goes on. Or out of
/// memory, which says nothing of the text.
pub fn validate_text<'t>(
    alloc: Global,
    root: &RootNode<SourceScalar>,
    text: &'t str,
) -> Result<Vec<RuleError>, ReadError<'t>>
    ensures report { IfOk result (λ errors. IsReportOn ⟦<SourceScalar as AnswerRules>⟧.rules (choices_of root.now)
        root.now.schema text.now errors.items) }
    ensures none { IfErr result (IsNoDocument None text.now) }
    ensures fault { IfErr result (IsDocumentFault None text.now) }
{
    let document = read_document(alloc, text)?;
    errors_in(alloc, root, document.as_slice())
}

// The errors of a document that was read.
fn errors_in<'t>(
    alloc: Global,
    root: &RootNode<SourceScalar>,
    document: &[Definition<'_, SourceScalar>],
) -> Result<Vec<RuleError>, ReadError<'t>>
    ensures errors { IfOk result (λ errors. AreErrorsOf ⟦<SourceScalar as AnswerRules>⟧.rules (choices_of root.now)
        root.now.schema document.now errors.items) }
    ensures memory { IfErr result (λ e. e ≡ ReadError.OutOfMemory) }
{
    let choices = Choices {
        is_closed: root.introspection_disabled,
        max_errors: root.max_errors,
    };
    match errors_of(alloc, &root.schema, document, choices) {
        Ok(errors) => Ok(errors),
        Err(_) => Err(ReadError::OutOfMemory),
    }
}
