//! The possible types of a type at run time, and which types overlap (section 5.5.2.3).
ghost use Rattle.std.specs.Prelude.{◌≡◌, true, map, string_bytes};
ghost use Rattle.std.specs.List.{list_any};
ghost use Rattle.meta.specs.Kinds.{is_abstract_meta};
ghost use Rattle.schema.specs.Possible.{is_among, do_meet, is_implementer, implementer_names, possible_names};
ghost use Rattle.schema.specs.Possible.{is_possible_for, have_one_name, do_overlap};

use crate::model::schemas::SchemaTypeOf;
use meta::kinds::MetaTypeOf;

fn is_text_among(texts: &[String], name: &str) -> bool
    ensures { result ≡ is_among (map string_bytes texts.now) name.now }
{
    for text in texts {
        if text.as_str() == name {
            return true;
        }
    }
    false
}

/// Whether the type is an object type that implements the interface of this name.
pub(super) fn implements<S, C>(meta: &MetaTypeOf<S, C>, interface: &str) -> bool
    ensures { result ≡ is_implementer interface.now meta.now }
{
    match meta {
        MetaTypeOf::Object(object) => is_text_among(object.interface_names.as_slice(), interface),
        _ => false,
    }
}

fn have_same_name<S, C>(t1: &MetaTypeOf<S, C>, t2: &MetaTypeOf<S, C>) -> bool
    ensures { result ≡ have_one_name t1.now t2.now }
{
    match t1.name() {
        Some(name) => t2.name() == Some(name),
        None => false,
    }
}

impl<S, C> SchemaTypeOf<S, C> {
    /// Whether some object type of this name implements the interface.
    fn is_implementer_named(&self, interface: &str, name: &str) -> bool
        ensures { result ≡ is_among (implementer_names interface.now self.now.types) name.now }
    {
        match self.concrete_type_by_name(name) {
            Some(meta) => implements(meta, interface),
            None => false,
        }
    }

    /// Whether the type of this name is a possible type of the type.
    pub(crate) fn is_possible_name(&self, meta: &MetaTypeOf<S, C>, name: &str) -> bool
        ensures { result ≡ is_among (possible_names self.now.types meta.now) name.now }
    {
        match meta {
            MetaTypeOf::Union(union) => is_text_among(union.of_type_names.as_slice(), name),
            MetaTypeOf::Interface(interface) => {
                self.is_implementer_named(interface.name.as_str(), name)
            }
            _ => meta.name() == Some(name),
        }
    }

    /// Whether the other type is a possible type of the type, by its name.
    fn is_possible(&self, meta: &MetaTypeOf<S, C>, other: &MetaTypeOf<S, C>) -> bool
        ensures { result ≡ is_possible_for self.now.types meta.now other.now }
    {
        match other.name() {
            Some(name) => self.is_possible_name(meta, name),
            None => false,
        }
    }

    /// Whether the second type is a possible type of the first, by its name (section 5.5.2.3).
    pub fn is_possible_type(
        &self,
        abstract_type: &MetaTypeOf<S, C>,
        possible_type: &MetaTypeOf<S, C>,
    ) -> bool
        requires { is_abstract_meta abstract_type.now ≡ true }
        ensures { result ≡ is_possible_for self.now.types abstract_type.now possible_type.now }
    {
        self.is_possible(abstract_type, possible_type)
    }

    fn is_any_possible(&self, names: &[String], meta: &MetaTypeOf<S, C>) -> bool
        ensures { result ≡ do_meet (map string_bytes names.now) (possible_names self.now.types meta.now) }
    {
        for name in names {
            if self.is_possible_name(meta, name.as_str()) {
                return true;
            }
        }
        false
    }

    fn is_any_implementer_possible(&self, interface: &str, meta: &MetaTypeOf<S, C>) -> bool
        ensures { result
            ≡ do_meet (implementer_names interface.now self.now.types) (possible_names self.now.types meta.now) }
    {
        for listed in self.types.values() {
            if implements(listed, interface) && self.is_possible(meta, listed) {
                return true;
            }
        }
        false
    }

    fn do_possible_meet(&self, t1: &MetaTypeOf<S, C>, t2: &MetaTypeOf<S, C>) -> bool
        ensures { result ≡ do_meet (possible_names self.now.types t1.now) (possible_names self.now.types t2.now) }
    {
        match t1 {
            MetaTypeOf::Union(union) => self.is_any_possible(union.of_type_names.as_slice(), t2),
            MetaTypeOf::Interface(interface) => {
                self.is_any_implementer_possible(interface.name.as_str(), t2)
            }
            _ => self.is_possible(t2, t1),
        }
    }

    /// Whether two types overlap: they have the same name, or some type is a possible type of both
    /// (section 5.5.2.3).
    pub fn type_overlap(&self, t1: &MetaTypeOf<S, C>, t2: &MetaTypeOf<S, C>) -> bool
        ensures overlap { result ≡ do_overlap self.now.types t1.now t2.now }
        ensures symmetric { result ≡ do_overlap self.now.types t2.now t1.now }
    {
        have_same_name(t1, t2) || self.do_possible_meet(t1, t2)
    }
}
