//! Changes to a schema.
ghost use Rattle.std.specs.Prelude.{◌≡◌, if◌then◌else◌, is_ok, IfErr, IsOkUnless, OnErr, OnOk, Some, not, true, map};
ghost use Rattle.std.specs.Prelude.{string_bytes, option_copied};
ghost use Rattle.std.specs.List.{list_all};
ghost use Rattle.indexmap.specs.IndexMap.{values};
ghost use Rattle.schema_validation.specs.Accepted.{is_listed, is_input_listed};
ghost use Rattle.schema.specs.Changes.{argument_types, directive_types, with_directive, AreInputTypes};
ghost use Rattle.schema.specs.Changes.{IsTrueOfArguments};
ghost use Rattle.schema_validation.specs.Directives.{directive_name};
ghost use Rattle.schema_validation.specs.Named.{are_keyed};

use crate::model::dialect::Dialect;
use crate::model::schemas::SchemaTypeOf;
use indexmap::IndexMap;
use language::error::OutOfMemory;
use meta::arguments::Argument;
use meta::texts::as_text;
use schema_validation::directives::DirectiveType;
use schema_validation::error::SchemaError;
use schema_validation::first::first_argument;
use schema_validation::listed::NameTest;
use std::alloc::Global;

/// Fails for names that no type of the schema has.
#[derive_where(Clone, Copy)]
struct UnknownIn<'s, S, C>(&'s SchemaTypeOf<S, C>);

impl<S, C> NameTest for UnknownIn<'_, S, C> {
    ghost fails_at = { λ t n. not (is_listed t.0.now.types n) };

    fn fails(&self, name: &str) -> bool {
        !self.0.is_known(name)
    }
}

/// Fails for names that no input type of the schema has.
#[derive_where(Clone, Copy)]
struct NoInputIn<'s, S, C>(&'s SchemaTypeOf<S, C>);

impl<S, C> NameTest for NoInputIn<'_, S, C> {
    ghost fails_at = { λ t n. not (is_input_listed t.0.now.types n) };

    fn fails(&self, name: &str) -> bool {
        !self.0.is_input_known(name)
    }
}

/// Puts a directive under its name: in place of the one of this name, or at the end.
fn put_entry<S: Drop>(
    directives: &mut IndexMap<String, DirectiveType<S>>,
    directive: DirectiveType<S>,
) -> Result<(), SchemaError>
    requires { are_keyed directive_name directives.old.entries ≡ true }
    ensures listed { values directives.new
        ≡ (if is_ok result then with_directive directive (values directives.old) else values directives.old) }
    ensures keyed { are_keyed directive_name directives.new.entries ≡ true }
    ensures err { IfErr result (λ e. e ≡ SchemaError.OutOfMemory) }
{
    let key = String::from_str(*directive.name.allocator(), directive.name.as_str())?;
    match directives.insert(key, directive) {
        Ok(_) => Ok(()),
        Err(_) => Err(SchemaError::OutOfMemory),
    }
}

impl<S, C> SchemaTypeOf<S, C> {
    fn is_input_known(&self, name: &str) -> bool
        ensures { result ≡ is_input_listed self.now.types name.now }
    {
        match self.concrete_type_by_name(name) {
            Some(meta) => meta.is_input(),
            None => false,
        }
    }

    fn check_known(&self, alloc: Global, arguments: &[Argument<S>]) -> Result<(), SchemaError>
        ensures ok { OnOk result (list_all (is_listed self.now.types) (argument_types arguments.now) ≡ true) }
        ensures err { IfErr result (IsTrueOfArguments self.now.types (argument_types arguments.now)) }
    {
        match first_argument(&UnknownIn(self), arguments) {
            Some(name) => Err(SchemaError::UnknownType(String::from_str(alloc, name)?)),
            None => Ok(()),
        }
    }

    fn check_input(&self, alloc: Global, arguments: &[Argument<S>]) -> Result<(), SchemaError>
        requires { list_all (is_listed self.now.types) (argument_types arguments.now) ≡ true }
        ensures ok { OnOk result (AreInputTypes self.now.types (argument_types arguments.now)) }
        ensures err { IfErr result (IsTrueOfArguments self.now.types (argument_types arguments.now)) }
    {
        match first_argument(&NoInputIn(self), arguments) {
            Some(name) => Err(SchemaError::NotInputType(String::from_str(alloc, name)?)),
            None => Ok(()),
        }
    }

    fn check_arguments(&self, alloc: Global, arguments: &[Argument<S>]) -> Result<(), SchemaError>
        ensures ok { OnOk result (AreInputTypes self.now.types (argument_types arguments.now)) }
        ensures err { IfErr result (IsTrueOfArguments self.now.types (argument_types arguments.now)) }
    {
        self.check_known(alloc, arguments)?;
        self.check_input(alloc, arguments)
    }

    /// The description, if one was set (section 3.2).
    pub fn description(&self) -> Option<&str>
        ensures { option_copied result ≡ self.now.description }
    {
        as_text(&self.description)
    }

    /// Replaces the description (section 3.2).
    ///
    /// # Errors
    ///
    /// Out of memory; the schema is unchanged then.
    pub fn set_description(&mut self, text: &str) -> Result<(), OutOfMemory>
        ensures ok { OnOk result (self.new ≡ record self.old { description = Some text.now }) }
        ensures err { OnErr result (self.new ≡ self.old) }
    {
        let kept = String::from_str(*self.query.allocator(), text)?;
        self.description = Some(kept);
        Ok(())
    }

    /// By whose rules values and documents are judged.
    pub fn dialect(&self) -> Dialect
        ensures { result ≡ self.now.dialect }
    {
        self.dialect
    }

    /// Chooses by whose rules values and documents are judged.
    pub fn set_dialect(&mut self, dialect: Dialect)
        ensures { self.new ≡ record self.old { dialect = dialect } }
    {
        self.dialect = dialect;
    }
}

impl<S: Drop, C: Drop> SchemaTypeOf<S, C> {
    /// Adds a directive (section 3.13), in place of the one of its name, if there is one.
    ///
    /// # Errors
    ///
    /// `UnknownType` if the schema lacks the type of an argument, and `NotInputType` if that type is
    /// not an input type; if both apply, it is not specified which one is returned. `OutOfMemory` is
    /// the only other error. The schema is unchanged then.
    pub fn add_directive(&mut self, directive: DirectiveType<S>) -> Result<(), SchemaError>
        ensures input { OnOk result (AreInputTypes self.old.types (directive_types directive)) }
        ensures added { OnOk result (self.new.directives ≡ with_directive directive self.old.directives) }
        ensures types { self.new.types ≡ self.old.types }
        ensures roots { self.new.roots ≡ self.old.roots }
        ensures description { self.new.description ≡ self.old.description }
        ensures dialect { self.new.dialect ≡ self.old.dialect }
        ensures refused { IfErr result (IsTrueOfArguments self.old.types (directive_types directive)) }
        ensures unchanged { OnErr result (self.new ≡ self.old) }
        ensures memory_alone { AreInputTypes self.old.types (directive_types directive)
            → IsOkUnless result SchemaError.OutOfMemory }
    {
        self.check_arguments(*directive.name.allocator(), directive.arguments.as_slice())?;
        self.put_directive(directive)
    }

    fn put_directive(&mut self, directive: DirectiveType<S>) -> Result<(), SchemaError>
        requires { AreInputTypes self.old.types (directive_types directive) }
        ensures added { OnOk result (self.new.directives ≡ with_directive directive self.old.directives) }
        ensures types { self.new.types ≡ self.old.types }
        ensures roots { self.new.roots ≡ self.old.roots }
        ensures description { self.new.description ≡ self.old.description }
        ensures dialect { self.new.dialect ≡ self.old.dialect }
        ensures unchanged { OnErr result (self.new ≡ self.old) }
        ensures err { IfErr result (λ e. e ≡ SchemaError.OutOfMemory) }
    {
        put_entry(&mut self.directives, directive)
    }
}
