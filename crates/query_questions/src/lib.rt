// Questions 6, 7 and 13 of the queries, and the number after which a search stops.
#![tactic(auto)]

ghost use Rattle.std.specs.Prelude.{◌≡◌, ℕ, cond, eqb};
ghost use Rattle.columns.specs.Refusals.{question_of, question_then};
ghost use Rattle.engine_columns.specs.Records.{engine_in};
ghost use Rattle.query_questions.specs.Queries.{query_refusal};
ghost use Rattle.query_questions.specs.Scratch.{scratch_in, scratch_fits};

use columns::refusal::{Refusal, require};
use columns::{VertexIndex, Weight};
use engine_columns::{EngineCounts, engine_sound, long_enough};

// Question 6, of scratch.
#[tactic(auto, unfolding(crate::specs::Scratch::scratch_long))]
pub fn scratch_fits(
    c: EngineCounts,
    neighbor_numbers: &[u32],
    list_ends: &[u32],
    status: &[u8],
    weight: &[Weight],
    previous: &[u32],
    node: &[u64],
    leaf: &[u64],
) -> bool
    ensures { result ≡ scratch_fits c (scratch_in neighbor_numbers.now list_ends.now status.now weight.now previous.now node.now leaf.now) }
{
    let v = c.vertices as usize;
    2 * (c.edges as usize) <= neighbor_numbers.len()
        && v <= list_ends.len()
        && v <= status.len()
        && v <= weight.len()
        && v <= previous.len()
        && v <= node.len()
        && v <= leaf.len()
}

// Questions 6, 7 and 13 of a query.
pub fn query_refusal(
    c: EngineCounts,
    ends_a: &[u32],
    ends_b: &[u32],
    weights: &[Weight],
    boundary: &[u8],
    log_edges: &[u32],
    log_weights: &[Weight],
    fits: bool,
    in_range: bool,
) -> Result<(), Refusal>
    ensures number { question_of result ≡ query_refusal (engine_in c ends_a.now ends_b.now weights.now boundary.now log_edges.now log_weights.now) fits in_range 0 }
    ensures then { (next : ℕ) → question_then result next ≡ query_refusal (engine_in c ends_a.now ends_b.now weights.now boundary.now log_edges.now log_weights.now) fits in_range next }
{
    let long = long_enough(
        c,
        ends_a,
        ends_b,
        weights,
        boundary,
        log_edges,
        log_weights,
        0,
    );
    require(long && fits, Refusal::ShortColumn)?;
    let sound = engine_sound(c, ends_a, ends_b, weights, boundary, log_edges, log_weights);
    require(sound, Refusal::UnsoundColumns)?;
    require(in_range, Refusal::NumberOutOfRange)
}

// The number after which a search from the source stops, where an end is named: where that is the source, the number of vertices, which no vertex has.
pub fn named_stop(b: VertexIndex, source: VertexIndex, vertices: u32) -> VertexIndex
    ensures { result.0 ≡ cond (eqb b.0 source.0) vertices b.0 }
{
    if b.0 == source.0 {
        VertexIndex(vertices)
    } else {
        b
    }
}
