// The crossing query: the least weight of a walk from a left to a right vertex, and the least weight from the left of every vertex.
#![tactic(auto)]

ghost use Rattle.std.specs.Prelude.{◌≡◌, List, ℕ, ◌<◌, ◌≤◌, length, get_or, take};
ghost use Rattle.columns.specs.Limits.{sum_limit};
ghost use Rattle.columns.specs.Lists.{each};
ghost use Rattle.engine_columns.specs.Records.{engine_in};
ghost use Rattle.engine_walks.specs.Answers.{table_weight};
ghost use Rattle.query_relaxing.specs.Ready.{state_of};
ghost use Rattle.query_questions.specs.Scratch.{scratch_in};
ghost use Rattle.query_crossing_answer.specs.Crossing.{FoundCrossing};
ghost use Rattle.query_crossings.specs.Found.{crossing_in, FoundIn};

use columns::refusal::Refusal;
use columns::{TableWeight, Weight};
use engine_columns::EngineCounts;
use query_crossing_answer::{crossing_asked, nearest_right, reply};
use query_questions::scratch_fits;
use query_search::{Origin, search, write_weights};

// The crossing weight in the state of the first v vertices, with the weight column; 18 where there is none.
fn found_crossing(
    v: usize,
    status: &[u8],
    weight: &[Weight],
    boundary: &[u8],
    out: &mut [TableWeight],
) -> Result<Weight, Refusal>
    requires lengths { (v ≤ length status.now) × (v ≤ length weight.now) × (v ≤ length boundary.now) × (v ≤ length out.old) }
    requires within { (u : ℕ) → u < v → get_or weight.now u 0 < sum_limit }
    ensures { (p : List ℕ) → FoundIn (crossing_in (state_of (take v status.now) (take v weight.now) p) (take v boundary.now) v) (each v (table_weight (state_of (take v status.now) (take v weight.now) p))) result out.old out.new }
{
    let status = &status[..v];
    let weight = &weight[..v];
    let found = reply(nearest_right(status, weight, &boundary[..v]))?;
    write_weights(status, weight, out);
    Ok(found)
}

// The least weight of a walk from a left to a right vertex; the weight column then holds the least weight from the left, -1 for unreached.
// The columns from `neighbor_numbers` on are scratch.
pub fn crossing(
    c: EngineCounts,
    ends_a: &[u32],
    ends_b: &[u32],
    weights: &[Weight],
    boundary: &[u8],
    log_edges: &[u32],
    log_weights: &[Weight],
    out_weight: &mut [TableWeight],
    neighbor_numbers: &mut [u32],
    list_ends: &mut [u32],
    status: &mut [u8],
    weight: &mut [Weight],
    previous: &mut [u32],
    node: &mut [u64],
    leaf: &mut [u64],
) -> Result<Weight, Refusal>
    ensures { FoundCrossing (engine_in c ends_a.now ends_b.now weights.now boundary.now log_edges.now log_weights.now) result out_weight.old out_weight.new
        (scratch_in neighbor_numbers.old list_ends.old status.old weight.old previous.old node.old leaf.old)
        (scratch_in neighbor_numbers.new list_ends.new status.new weight.new previous.new node.new leaf.new) }
{
    let room = scratch_fits(
        c,
        neighbor_numbers,
        list_ends,
        status,
        weight,
        previous,
        node,
        leaf,
    );
    crossing_asked(
        c,
        ends_a,
        ends_b,
        weights,
        boundary,
        log_edges,
        log_weights,
        out_weight.len(),
        room,
    )?;
    search(
        c,
        ends_a,
        ends_b,
        weights,
        boundary,
        Origin::Left,
        neighbor_numbers,
        list_ends,
        status,
        weight,
        previous,
        node,
        leaf,
    );
    found_crossing(c.vertices as usize, status, weight, boundary, out_weight)
}
