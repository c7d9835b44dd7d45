//! The judgement of a document's fields.
ghost use Rattle.std.specs.Prelude.{◌≡◌, map};
ghost use Rattle.merge_field_pairs.specs.Entries.{plain};
ghost use Rattle.merge_field_pairs.specs.Numbered.{AreTidy};
ghost use Rattle.merge_field_pairs.specs.Objects.{object_number_at};
ghost use Rattle.merge_sets.specs.Judgement.{Lawful};
ghost use Rattle.merge_graph.specs.AlikeLaw.{alike_agree};
ghost use Rattle.merge_graph.specs.Judging.{judgement_of, alike_of, kin_of};
ghost use Rattle.merge_graph.specs.ExclusiveLaw.{exclusive_judged};
ghost use Rattle.merge_graph.specs.KinLaw.{kin_judged_alike};
ghost use Rattle.merge_graph.specs.ObjectLaw.{objects_judged};

use language::scalar::ScalarValue;
use merge_field_pairs::entry::Entry;
use merge_field_pairs::numbered::{
    are_alike_at, are_exclusive_at, are_kin_at, direct_reason_at, object_number_at,
};
use merge_sets::judge::Judge;
use schema::model::SchemaTypeOf;
use std::alloc::AllocError;

/// Fields by number, and the schema that they are judged under. Of a number past the last there is no conflict.
#[derive(Drop)]
pub struct FieldJudge<'a, S, C> {
    pub schema: &'a SchemaTypeOf<S, C>,
    pub fields: Vec<Entry<'a, S, C>>,
}

impl<'a, S: ScalarValue, C> Judge for FieldJudge<'a, S, C> {
    ghost judgement = { judgement_of S.eq };

    ghost are_alike = { alike_of S.eq };

    ghost are_kin = { kin_of S.eq };

    ghost objects = { λ j. object_number_at (map plain j.fields.items) };

    ghost agree = { λ j. alike_agree S.eq j.schema.now (map plain j.fields.items) };

    ghost kin_agree = { λ j. kin_judged_alike S.eq j.schema.now (map plain j.fields.items) };

    ghost exclusive_stays = { λ j. exclusive_judged S.eq j.schema.now (map plain j.fields.items) };

    ghost objects_apart = { λ j. objects_judged S.eq j.schema.now (map plain j.fields.items) };

    fn are_exclusive(&self, exclusive: bool, left: usize, right: usize) -> bool {
        are_exclusive_at(self.fields.as_slice(), exclusive, left, right)
    }

    fn is_plainly_like(&self, one: usize, other: usize) -> bool {
        are_alike_at(self.fields.as_slice(), one, other)
    }

    fn is_kin(&self, one: usize, other: usize) -> bool {
        are_kin_at(self.fields.as_slice(), one, other)
    }

    fn object_number(&self, field: usize) -> usize {
        object_number_at(self.fields.as_slice(), field)
    }

    fn are_in_conflict(
        &self,
        exclusive: bool,
        left: usize,
        right: usize,
    ) -> Result<bool, AllocError> {
        let fields = self.fields.as_slice();
        let reason = direct_reason_at(self.schema, fields, exclusive, left, right)?;
        Ok(reason.is_some())
    }
}

/// The judge of these fields. Where no field repeats an argument, nor a key in one, its judgement is lawful.
pub fn judge_fields<'a, S: ScalarValue, C>(
    schema: &'a SchemaTypeOf<S, C>,
    fields: Vec<Entry<'a, S, C>>,
) -> FieldJudge<'a, S, C>
    ensures schema { result.schema.now ≡ schema.now }
    ensures fields { result.fields ≡ fields.entry }
    ensures lawful { AreTidy (map plain fields.entry.items) → Lawful (judgement_of S.eq result) }
{
    FieldJudge { schema, fields }
}
