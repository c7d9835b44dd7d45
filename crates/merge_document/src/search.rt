//! The search for the fields of a document that can't be merged.
ghost use Rattle.std.specs.Prelude.{◌≡◌, ◌<◌, ◌≤◌, ◌*◌, ◌-◌, ◌↔◌, ℕ, List, IfOk, IfSome, IsSome, length};
ghost use Rattle.std.specs.Bool.{OnFalse, OnTrue};
ghost use Rattle.fragment_graph.specs.DocumentCycles.{HasNoCycle, SearchedDocument};
ghost use Rattle.merge_graph.specs.Definitions.{fragment_count};
ghost use Rattle.merge_graph.specs.SetsIn.{HasKnownConditions};
ghost use Rattle.merge_graph.specs.Sizes.{selection_count};
ghost use Rattle.merge_document.specs.Found.{IsFinished, IsJudged, AreTogether, most_compared, most_opened};

use fragment_graph::cycles::DocumentCycles;
use language::error::OutOfMemory;
use language::scalar::ScalarValue;
use language::tree::Document;
use merge_field_pairs::entry::Entry;
use merge_graph::document::graph_of_document;
use merge_graph::judge::FieldJudge;
use merge_search::state::Search;
use merge_sets::finding::Finding;
use merge_sets::graph::Graph;
use merge_tops::top::search_all;
use schema::model::SchemaTypeOf;
use std::alloc::Global;

/// The fields that can't be merged, found in a document.
#[derive(Drop)]
pub struct FoundConflicts<'a, S, C> {
    /// The fields of the document by number.
    pub fields: Vec<Entry<'a, S, C>>,
    /// The findings, in postfix order: a nested conflict stands after those below it, with their number.
    pub found: Vec<Finding>,
    /// How many findings were asked for; 0 for all.
    pub limit: usize,
    /// How many pairs of fragments were compared.
    pub compared: u128,
    /// How many fragments the searches opened.
    pub opened: u128,
    /// How many spreads of opened fragments the searches looked at.
    pub looked: u128,
    /// How many searches there were.
    pub lists: u128,
    /// How many pairs of fields were compared, what was asked and looked at to pass many at once counted with them.
    pub judged: u128,
}

impl<'a, S, C> FoundConflicts<'a, S, C> {
    /// Whether nothing was left to compare. Otherwise the search stopped, since it had found enough.
    pub fn is_finished(&self) -> bool
        ensures finished { OnTrue result (IsFinished self.now) }
        ensures stopped { OnFalse result ((0 < self.now.limit) × (self.now.limit ≤ length self.now.found.items)) }
    {
        self.limit == 0 || self.found.len() < self.limit
    }
}

// What a search of a graph has found of its fields.
fn found_in<'a, S, C>(
    graph: Graph<FieldJudge<'a, S, C>>,
    search: Search,
) -> FoundConflicts<'a, S, C>
    ensures fields { result.fields ≡ graph.entry.judge.fields }
    ensures found { result.found ≡ search.found }
    ensures limit { result.limit ≡ graph.entry.limit }
    ensures compared { result.compared ≡ search.compared }
    ensures opened { result.opened ≡ search.opened }
    ensures looked { result.looked ≡ search.looked }
    ensures lists { result.lists ≡ search.lists }
    ensures judged { result.judged ≡ search.judged }
{
    FoundConflicts {
        fields: graph.judge.fields,
        found: search.found,
        limit: graph.limit,
        compared: search.compared,
        opened: search.opened,
        looked: search.looked,
        lists: search.lists,
        judged: search.judged,
    }
}

// The graph, of which so many findings are asked for.
fn limited<J>(graph: Graph<J>, limit: usize) -> Graph<J>
    ensures { result ≡ record graph { limit = limit } }
{
    let mut graph = graph;
    graph.limit = limit;
    graph
}

/// The fields of a document that can't be merged (GraphQL, October 2021, section 5.3.2).
///
/// The document's fragments were searched for cycles. `None` if and only if some fragment leads back to itself.
///
/// What is found is true. The search stops once it has `limit` findings; 0 asks for all. Unless it stops, nothing is
/// missed where no field repeats an argument, nor a key in one. Of `n` definitions of fragments at most `n (n - 1)`
/// pairs are compared, and unless it stops at least those of which some set spreads both. It opens at most `n` at a
/// time.
///
/// Let the document have `s` selections, at any depth, and `m` definitions of any kind. Let `d` be the sum of the
/// depths of its selections; those of a definition are at depth 1. Where the type conditions of inline fragments are
/// known:
///
/// - at most `48 s d + 64 d + 500,000` pairs of fields are compared, what is asked and looked at to pass many at once
///   counted with them;
/// - each fragment is opened at most `8 s + 4 m + 100` times;
/// - at most `s (8 s + 4 m + 100)` spreads of opened fragments are looked at.
///
/// # Errors
///
/// Out of memory.
pub fn search_fields<'a, S: ScalarValue, C>(
    alloc: Global,
    schema: &'a SchemaTypeOf<S, C>,
    document: Document<'a, S>,
    cycles: DocumentCycles<'a>,
    limit: usize,
) -> Result<Option<FoundConflicts<'a, S, C>>, OutOfMemory>
    requires { SearchedDocument document.now cycles }
    ensures none { IfOk result (λ r. IsSome r ↔ HasNoCycle document.now) }
    ensures judged { IfOk result (λ r. IfSome r (IsJudged S.eq schema.now document.now)) }
    ensures limit { IfOk result (λ r. IfSome r (λ f. f.limit ≡ limit)) }
    ensures few { let n = fragment_count document.now in IfOk result (λ r. IfSome r (λ f. f.compared ≤ n * (n - 1))) }
    ensures enough { IfOk result (λ r. IfSome r (λ f. IsFinished f → (ps : List (List ℕ × List ℕ))
        → AreTogether schema.now document.now ps → length ps ≤ f.compared)) }
    ensures opened { IfOk result (λ r. IfSome r (λ f. f.opened ≤ fragment_count document.now * f.lists)) }
    ensures linear { IfOk result (λ r. IfSome r (λ f. HasKnownConditions schema.now document.now
        → f.opened ≤ fragment_count document.now * most_opened document.now)) }
    ensures looked { IfOk result (λ r. IfSome r (λ f. HasKnownConditions schema.now document.now
        → f.looked ≤ selection_count document.now * most_opened document.now)) }
    ensures compares { IfOk result (λ r. IfSome r (λ f. HasKnownConditions schema.now document.now
        → f.judged ≤ most_compared document.now)) }
{
    match graph_of_document(alloc, schema, document, cycles)? {
        Some(all) => {
            let graph = limited(all, limit);
            let search = search_all(alloc, &graph)?;
            Ok(Some(found_in(graph, search)))
        }
        None => Ok(None),
    }
}
