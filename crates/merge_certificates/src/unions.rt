//! Unions of the sets below fields that are compared with each other.
//!
//! No object is asked for two fields in different object types, so less is asked of what stands below them: it is
//! compared under the flag that says so. The sets below the fields of each object type have a union without the flag,
//! where those of fields in no object type stand, too. All of them have one with it.
ghost use Rattle.std.specs.Prelude.{◌≡◌, ◌⊎◌, [], IfOk, OnOk, false};
ghost use Rattle.std.specs.Bool.{OnTrue};
ghost use Rattle.std.specs.List.{All, Contains};
ghost use Rattle.merge_sets.specs.Names.{named};
ghost use Rattle.merge_certificates.specs.Quiet.{HoldBelow};
ghost use Rattle.merge_certificates.specs.Unions.{AllJoined, AllJoinedFlat, HasUnion, HaveUnions, UnionsKept};
ghost use Rattle.merge_certificates.specs.Unions.{under_object};
ghost use Rattle.merge_sets.specs.World.{world};

use merge_sets::graph::Graph;
use merge_sets::groups::{fields_named, first_fields, make_set, sorted_fields};
use merge_sets::judge::Judge;
use merge_sets::node::{Entry, SetNode};
use std::alloc::{AllocError, Global};

/// Sets whose fields are compared with each other, under each flag from this one on.
#[derive(Drop)]
pub struct Union {
    pub sets: Vec<usize>,
    pub flag: bool,
}

// No union of an object type is made where they would have more sets than so many times those of all fields.
const MOST: usize = 64;

/// The sets below some fields.
///
/// # Errors
///
/// Out of memory.
pub fn sets_below(alloc: Global, fields: &[Entry]) -> Result<Vec<usize>, AllocError>
    ensures { IfOk result (λ v. HoldBelow v.items fields.now) }
{
    let mut sets = Vec::new(alloc);
    for field in fields {
        if let Some(s) = field.below {
            sets.push(s)?;
        }
    }
    Ok(sets)
}

// Adds a union of the sets below some fields and of some more.
fn add_union(
    alloc: Global,
    flag: bool,
    fields: &[Entry],
    more: &[usize],
    unions: &mut Vec<Union>,
) -> Result<(), AllocError>
    ensures kept { OnOk result (UnionsKept unions.old.items unions.new.items) }
    ensures added { OnOk result (HasUnion unions.new.items flag fields.now more.now) }
{
    let mut sets = sets_below(alloc, fields)?;
    sets.extend_from_slice(more)?;
    unions.push(Union { sets, flag })?;
    Ok(())
}

// Some fields with the numbers of the object types around them in place of their response names.
fn by_objects<J: Judge>(
    alloc: Global,
    graph: &Graph<J>,
    fields: &[Entry],
) -> Result<SetNode, AllocError>
    ensures { IfOk result (λ set.
        All (λ a. Contains set.own.items (under_object (J.objects graph.now.judge) a)) fields.now) }
{
    let mut entries = Vec::new(alloc);
    for field in fields {
        entries.push(Entry {
            response: graph.judge.object_number(field.field),
            field: field.field,
            below: field.below,
        })?;
    }
    make_set(alloc, entries, Vec::new(alloc))
}

// The fields in an object type; of those in none, whose number is 0, no field.
fn fields_in(set: &SetNode, object: usize) -> &[Entry]
    ensures { (object ≡ 0 × result.now ≡ []) ⊎ (result.now ≡ named object set.now.own.items) }
{
    if object == 0 {
        return &[];
    }
    fields_named(sorted_fields(set), object)
}

// Adds a union for each object type, and one of the sets that stand in each of them.
fn add_unions(
    alloc: Global,
    set: &SetNode,
    common: &[usize],
    unions: &mut Vec<Union>,
) -> Result<(), AllocError>
    requires { HoldBelow common.now (named 0 set.now.own.items) }
    ensures kept { OnOk result (UnionsKept unions.old.items unions.new.items) }
    ensures added { OnOk result (HaveUnions unions.new.items set.now.own.items common.now) }
{
    for first in first_fields(set) {
        let group = fields_in(set, first.response);
        add_union(alloc, false, group, common, unions)?;
    }
    Ok(())
}

// Whether there are two object types, and their unions aren't too large. So many fields stand in no object type.
fn are_apart(set: &SetNode, common: usize) -> bool {
    let objects = first_fields(set).len().saturating_sub(common.min(1));
    objects > 1 && objects.saturating_mul(common) <= set.own.len().saturating_mul(MOST)
}

// Adds a union for each object type around some fields, or says that these don't serve.
fn add_by_objects<J: Judge>(
    alloc: Global,
    graph: &Graph<J>,
    fields: &[Entry],
    unions: &mut Vec<Union>,
) -> Result<bool, AllocError>
    ensures kept { OnOk result (UnionsKept unions.old.items unions.new.items) }
    ensures joined { IfOk result (λ b. OnTrue b
        (AllJoinedFlat (world J.judgement graph.now) fields.now unions.new.items)) }
{
    let set = by_objects(alloc, graph, fields)?;
    let group = fields_named(sorted_fields(&set), 0);
    if !are_apart(&set, group.len()) {
        return Ok(false);
    }
    let common = sets_below(alloc, group)?;
    add_unions(alloc, &set, common.as_slice(), unions)?;
    Ok(true)
}

/// Adds unions of the sets below some fields, so that those below each two are in one of them, of the flag under which
/// these are compared. The fields stand where the flag is `x`, or above. There is one union, or without the flag, where
/// the fields are told apart by their object types, one for each of these and one more.
///
/// # Errors
///
/// Out of memory.
pub fn unions_below<J: Judge>(
    alloc: Global,
    graph: &Graph<J>,
    x: bool,
    by_objects: bool,
    fields: &[Entry],
    unions: &mut Vec<Union>,
) -> Result<(), AllocError>
    ensures kept { OnOk result (UnionsKept unions.old.items unions.new.items) }
    ensures joined { OnOk result (AllJoined (world J.judgement graph.now) x fields.now unions.new.items) }
{
    if x || !by_objects {
        add_union(alloc, x, fields, &[], unions)?;
        return Ok(());
    }
    let flag = add_by_objects(alloc, graph, fields, unions)?;
    add_union(alloc, flag, fields, &[], unions)?;
    Ok(())
}
