//! The events of a walk, as a visitor sees them.

use language::position::{Span, Spanning};
use language::tree::{
    Definition, Directive, Field, Fragment, FragmentSpread, InlineFragment, Operation, Selection,
    VariableDefinition,
};
use language::value::InputValue;

/// Entering or leaving a node of a document.
///
/// Each event holds its node, borrowed from the document. An event of a value holds the value's span beside it.
#[derive(Drop)]
pub enum Event<'a, S> {
    EnterDocument(&'a [Definition<'a, S>]),
    ExitDocument(&'a [Definition<'a, S>]),
    EnterOperationDefinition(&'a Spanning<Operation<'a, S>>),
    ExitOperationDefinition(&'a Spanning<Operation<'a, S>>),
    EnterFragmentDefinition(&'a Spanning<Fragment<'a, S>>),
    ExitFragmentDefinition(&'a Spanning<Fragment<'a, S>>),
    EnterVariableDefinition(&'a (Spanning<&'a str>, VariableDefinition<'a, S>)),
    ExitVariableDefinition(&'a (Spanning<&'a str>, VariableDefinition<'a, S>)),
    EnterDirective(&'a Spanning<Directive<'a, S>>),
    ExitDirective(&'a Spanning<Directive<'a, S>>),
    EnterArgument(&'a (Spanning<&'a str>, Spanning<InputValue<S>>)),
    ExitArgument(&'a (Spanning<&'a str>, Spanning<InputValue<S>>)),
    EnterSelectionSet(&'a [Selection<'a, S>]),
    ExitSelectionSet(&'a [Selection<'a, S>]),
    EnterField(&'a Spanning<Field<'a, S>>),
    ExitField(&'a Spanning<Field<'a, S>>),
    EnterFragmentSpread(&'a Spanning<FragmentSpread<'a, S>>),
    ExitFragmentSpread(&'a Spanning<FragmentSpread<'a, S>>),
    EnterInlineFragment(&'a Spanning<InlineFragment<'a, S>>),
    ExitInlineFragment(&'a Spanning<InlineFragment<'a, S>>),
    EnterNullValue(&'a Span),
    ExitNullValue(&'a Span),
    EnterScalarValue(Spanning<&'a S, &'a Span>),
    ExitScalarValue(Spanning<&'a S, &'a Span>),
    EnterEnumValue(Spanning<&'a String, &'a Span>),
    ExitEnumValue(Spanning<&'a String, &'a Span>),
    EnterVariableValue(Spanning<&'a String, &'a Span>),
    ExitVariableValue(Spanning<&'a String, &'a Span>),
    EnterListValue(Spanning<&'a Vec<Spanning<InputValue<S>>>, &'a Span>),
    ExitListValue(Spanning<&'a Vec<Spanning<InputValue<S>>>, &'a Span>),
    EnterObjectValue(Spanning<&'a Vec<(Spanning<String>, Spanning<InputValue<S>>)>, &'a Span>),
    ExitObjectValue(Spanning<&'a Vec<(Spanning<String>, Spanning<InputValue<S>>)>, &'a Span>),
    EnterObjectField(Spanning<&'a String, &'a Span>, Spanning<&'a InputValue<S>, &'a Span>),
    ExitObjectField(Spanning<&'a String, &'a Span>, Spanning<&'a InputValue<S>, &'a Span>),
}
