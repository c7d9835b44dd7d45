//! A visitor that writes down what it hears.

use language::error::OutOfMemory;
use language::scalar::ScalarValue;
use language::tree::Operation;
use language::types::BorrowedType;
use language::value::DefaultScalarValue;
use meta::MetaType;
use std::alloc::AllocError;
use walk::{Event, Machine, ValidatorContext, Visitor};

/// Writes a line for each event: its name, of what node, and there the type, the type as it was written, the parent
/// type and the input type as it was written.
#[derive(Drop)]
pub struct Recorder {
    pub text: String,
}

impl<S, C> Machine<S, C> for Recorder {
    ghost use Rattle.std.specs.Prelude.{◌≡◌, []};

    // No errors.
    ghost step = { λ scope event a b es. es ≡ [] };
}

impl<'a> Visitor<'a, DefaultScalarValue> for Recorder {
    fn on(
        &mut self,
        ctx: &mut ValidatorContext<'a, DefaultScalarValue>,
        event: &Event<'a, DefaultScalarValue>,
    ) -> Result<(), OutOfMemory> {
        let (name, node) = told(event);
        write!(self.text, "{name}({node})")?;
        show_types(&mut self.text, ctx)?;
        Ok(())
    }
}

/// Writes the type at hand, that type as it was written, the parent type and the input type as it was written, and ends
/// the line.
pub fn show_types(
    out: &mut String,
    ctx: &ValidatorContext<'_, DefaultScalarValue>,
) -> Result<(), AllocError> {
    show_four(
        out,
        name_of(ctx.current_type()),
        ctx.current_type_literal(),
        name_of(ctx.parent_type()),
        ctx.current_input_type_literal(),
    )
}

// A function of its own: where it may return early, a proof need not look at the context again.
fn show_four(
    out: &mut String,
    current: &str,
    written: Option<BorrowedType<'_>>,
    parent: &str,
    input: Option<BorrowedType<'_>>,
) -> Result<(), AllocError> {
    write!(out, " {current} ")?;
    show(out, written)?;
    write!(out, " {parent} ")?;
    show(out, input)?;
    out.push('\n')
}

fn name_of(meta: Option<&MetaType>) -> &str {
    match meta {
        Some(meta) => meta.name().unwrap_or("-"),
        None => "-",
    }
}

fn show(out: &mut String, literal: Option<BorrowedType<'_>>) -> Result<(), AllocError> {
    match literal {
        Some(literal) => write!(out, "{literal}"),
        None => out.push('-'),
    }
}

fn name_in<'e>(operation: &'e Operation<'_, DefaultScalarValue>) -> &'e str {
    match &operation.name {
        Some(name) => name.item,
        None => "",
    }
}

/// The name of an event, and what its node is called.
fn told<'e>(event: &'e Event<'_, DefaultScalarValue>) -> (&'static str, &'e str) {
    match event {
        Event::EnterDocument(_) => ("enter_document", ""),
        Event::EnterOperationDefinition(o) => ("enter_operation_definition", name_in(&o.item)),
        Event::EnterFragmentDefinition(f) => ("enter_fragment_definition", f.item.name.item),
        Event::EnterVariableDefinition(v) => ("enter_variable_definition", v.0.item),
        Event::EnterDirective(d) => ("enter_directive", d.item.name.item),
        Event::EnterArgument(a) => ("enter_argument", a.0.item),
        Event::EnterSelectionSet(_) => ("enter_selection_set", ""),
        Event::EnterField(f) => ("enter_field", f.item.name.item),
        Event::EnterFragmentSpread(s) => ("enter_fragment_spread", s.item.name.item),
        Event::EnterInlineFragment(_) => ("enter_inline_fragment", ""),
        Event::EnterNullValue(_) => ("enter_null_value", ""),
        Event::EnterScalarValue(s) => ("enter_scalar_value", s.item.try_as_str().unwrap_or("")),
        Event::EnterEnumValue(e) => ("enter_enum_value", e.item.as_str()),
        Event::EnterVariableValue(v) => ("enter_variable_value", v.item.as_str()),
        Event::EnterListValue(_) => ("enter_list_value", ""),
        Event::EnterObjectValue(_) => ("enter_object_value", ""),
        Event::EnterObjectField(k, _) => ("enter_object_field", k.item.as_str()),
        Event::ExitDocument(_) => ("exit_document", ""),
        Event::ExitOperationDefinition(o) => ("exit_operation_definition", name_in(&o.item)),
        Event::ExitFragmentDefinition(f) => ("exit_fragment_definition", f.item.name.item),
        Event::ExitVariableDefinition(v) => ("exit_variable_definition", v.0.item),
        Event::ExitDirective(d) => ("exit_directive", d.item.name.item),
        Event::ExitArgument(a) => ("exit_argument", a.0.item),
        Event::ExitSelectionSet(_) => ("exit_selection_set", ""),
        Event::ExitField(f) => ("exit_field", f.item.name.item),
        Event::ExitFragmentSpread(s) => ("exit_fragment_spread", s.item.name.item),
        Event::ExitInlineFragment(_) => ("exit_inline_fragment", ""),
        Event::ExitNullValue(_) => ("exit_null_value", ""),
        Event::ExitScalarValue(s) => ("exit_scalar_value", s.item.try_as_str().unwrap_or("")),
        Event::ExitEnumValue(e) => ("exit_enum_value", e.item.as_str()),
        Event::ExitVariableValue(v) => ("exit_variable_value", v.item.as_str()),
        Event::ExitListValue(_) => ("exit_list_value", ""),
        Event::ExitObjectValue(_) => ("exit_object_value", ""),
        Event::ExitObjectField(k, _) => ("exit_object_field", k.item.as_str()),
    }
}
