//! Definitions made anew, over the samples' scalars and with names of the text itself.
use crate::error::ReadError;
use graphql_reader::SourceScalar;
use language::position::Spanning;
use language::tree::{
    Arguments, Definition, Directive, Field, Fragment, FragmentSpread, InlineFragment, Operation,
    Selection, VariableDefinition, VariableDefinitions,
};
use language::value::DefaultScalarValue;
use std::alloc::Global;
use std::{mem, str};

type Read = SourceScalar;

type Made = DefaultScalarValue;

type Directives<'a, S> = Option<Vec<Spanning<Directive<'a, S>>>>;

/// The text of a tree.
#[derive(Clone, Copy)]
pub(crate) struct Source<'a> {
    pub alloc: Global,
    pub text: &'a [u8],
}

impl<'a> Source<'a> {
    // The name in this text. It ends its span, which begins with the `$` of a variable.
    fn name(&self, name: &Spanning<&str>) -> Spanning<&'a str> {
        let span = name.span;
        let end = span.end.index();
        let bytes = self.text.get(end.saturating_sub(name.item.len())..end);
        let item = str::from_utf8(bytes.unwrap_or(&[])).unwrap_or("");
        Spanning { item, span }
    }

    fn some_name(&self, name: &Option<Spanning<&str>>) -> Option<Spanning<&'a str>> {
        name.as_ref().map(|name| self.name(name))
    }

    pub fn definition(
        &self,
        definition: Definition<'_, Read>,
    ) -> Result<Definition<'a, Made>, ReadError> {
        Ok(match definition {
            Definition::Operation(Spanning { item, span }) => {
                let item = Operation {
                    operation_type: item.operation_type,
                    name: self.some_name(&item.name),
                    variable_definitions: self.variables(&item.variable_definitions)?,
                    directives: self.directives(&item.directives)?,
                    selection_set: self.set(item.selection_set)?,
                };
                Definition::Operation(Spanning { item, span })
            }
            Definition::Fragment(Spanning { item, span }) => {
                let item = Fragment {
                    name: self.name(&item.name),
                    type_condition: self.name(&item.type_condition),
                    directives: self.directives(&item.directives)?,
                    selection_set: self.set(item.selection_set)?,
                };
                Definition::Fragment(Spanning { item, span })
            }
        })
    }

    fn variables(
        &self,
        variables: &Option<Spanning<VariableDefinitions<'_, Read>>>,
    ) -> Result<Option<Spanning<VariableDefinitions<'a, Made>>>, ReadError> {
        let Some(Spanning { item, span }) = variables else {
            return Ok(None);
        };
        let mut items = Vec::with_capacity(self.alloc, item.len())?;
        for (name, definition) in item.iter() {
            let default_value = match &definition.default_value {
                Some(value) => Some(self.value(value)?),
                None => None,
            };
            let definition = VariableDefinition {
                var_type: definition.var_type.clone()?,
                default_value,
                directives: self.directives(&definition.directives)?,
            };
            items.push((self.name(name), definition))?;
        }
        Ok(Some(Spanning {
            item: VariableDefinitions { items },
            span: *span,
        }))
    }

    fn directives(
        &self,
        directives: &Directives<'_, Read>,
    ) -> Result<Directives<'a, Made>, ReadError> {
        let Some(directives) = directives else {
            return Ok(None);
        };
        let mut made = Vec::with_capacity(self.alloc, directives.len())?;
        for Spanning { item, span } in directives {
            let name = self.name(&item.name);
            let arguments = self.arguments(&item.arguments)?;
            made.push(Spanning {
                item: Directive { name, arguments },
                span: *span,
            })?;
        }
        Ok(Some(made))
    }

    fn arguments(
        &self,
        arguments: &Option<Spanning<Arguments<'_, Read>>>,
    ) -> Result<Option<Spanning<Arguments<'a, Made>>>, ReadError> {
        let Some(Spanning { item, span }) = arguments else {
            return Ok(None);
        };
        let mut items = Vec::with_capacity(self.alloc, item.len())?;
        for (name, value) in item.iter() {
            items.push((self.name(name), self.value(value)?))?;
        }
        Ok(Some(Spanning {
            item: Arguments { items },
            span: *span,
        }))
    }

    // The set made anew. What is begun stands on lists in memory, so no depth is too deep.
    fn set(&self, set: Vec<Selection<'_, Read>>) -> Result<Vec<Selection<'a, Made>>, ReadError> {
        let mut made = Vec::with_capacity(self.alloc, set.len())?;
        let mut left = set.into_iter();
        let mut outer_left = Vec::new(self.alloc);
        let mut outer_made = Vec::new(self.alloc);
        // Each turn takes a byte of the text.
        for _ in 0..=self.text.len() {
            if let Some(mut selection) = left.next() {
                made.push(self.selection(&selection)?)?;
                if let Some(set) = take_set(self.alloc, &mut selection) {
                    let inside = Vec::with_capacity(self.alloc, set.len())?;
                    outer_left.push(mem::replace(&mut left, set.into_iter()))?;
                    outer_made.push(mem::replace(&mut made, inside))?;
                }
            } else {
                let (Some(outer), Some(holder)) = (outer_left.pop(), outer_made.pop()) else {
                    return Ok(made);
                };
                left = outer;
                let set = mem::replace(&mut made, holder);
                give_last(&mut made, set);
            }
        }
        Err(ReadError::OutOfMemory)
    }

    // The selection without its set.
    fn selection(&self, selection: &Selection<'_, Read>) -> Result<Selection<'a, Made>, ReadError> {
        Ok(match selection {
            Selection::Field(Spanning { item, span }) => Selection::Field(Spanning {
                item: Field {
                    alias: self.some_name(&item.alias),
                    name: self.name(&item.name),
                    arguments: self.arguments(&item.arguments)?,
                    directives: self.directives(&item.directives)?,
                    selection_set: None,
                },
                span: *span,
            }),
            Selection::FragmentSpread(spread) => Selection::FragmentSpread(Spanning {
                item: FragmentSpread {
                    name: self.name(&spread.item.name),
                    directives: self.directives(&spread.item.directives)?,
                },
                span: spread.span,
            }),
            Selection::InlineFragment(inline) => Selection::InlineFragment(Spanning {
                item: InlineFragment {
                    type_condition: self.some_name(&inline.item.type_condition),
                    directives: self.directives(&inline.item.directives)?,
                    selection_set: Vec::new(self.alloc),
                },
                span: inline.span,
            }),
        })
    }
}

// The set of a selection, taken out of it.
fn take_set<'r>(
    alloc: Global,
    selection: &mut Selection<'r, Read>,
) -> Option<Vec<Selection<'r, Read>>> {
    match selection {
        Selection::Field(field) => field.item.selection_set.take(),
        Selection::InlineFragment(inline) => Some(replace_set(&mut inline.item, Vec::new(alloc))),
        Selection::FragmentSpread(_) => None,
    }
}

// Puts a set into the last of these selections.
fn give_last<'a>(nodes: &mut Vec<Selection<'a, Made>>, set: Vec<Selection<'a, Made>>) {
    if let Some(holder) = nodes.last_mut() {
        give(holder, set);
    }
}

fn give<'a>(holder: &mut Selection<'a, Made>, set: Vec<Selection<'a, Made>>) {
    match holder {
        Selection::Field(field) => field.item.selection_set = Some(set),
        Selection::InlineFragment(inline) => {
            let _ = replace_set(&mut inline.item, set);
        }
        Selection::FragmentSpread(_) => {}
    }
}

fn replace_set<'r, S: Drop>(
    inline: &mut InlineFragment<'r, S>,
    set: Vec<Selection<'r, S>>,
) -> Vec<Selection<'r, S>> {
    mem::replace(&mut inline.selection_set, set)
}
