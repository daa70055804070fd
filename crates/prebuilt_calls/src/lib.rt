// The prebuilt complete graph: the row of a vertex, with its least weights to the other vertices that are not virtual, and its nearest virtual vertex; the nearest virtual vertex of every vertex.
#![tactic(auto)]

pub mod boundaries;
pub mod nearest;

ghost use Rattle.engine_columns.specs.Records.{engine_in};
ghost use Rattle.query_questions.specs.Scratch.{scratch_in};
ghost use Rattle.prebuilt_calls.specs.Rows.{FilledRow};

pub use boundaries::fill_boundaries;
use columns::refusal::{Refusal, require};
use columns::{TableWeight, VertexIndex, Weight};
use engine_columns::EngineCounts;
pub use nearest::{BoundaryVertex, get_boundary_weight};
use prebuilt_entries::rows::write_row;
use query_tables::all_edges;

// The row of a vertex: for each vertex the least weight to it, -1 where there is no edge. `nearest` holds each vertex's least weight to a virtual one,
// -1 for none. The columns from `before` on are scratch.
pub fn fill_row(
    c: EngineCounts,
    ends_a: &[u32],
    ends_b: &[u32],
    weights: &[Weight],
    boundary: &[u8],
    log_edges: &[u32],
    log_weights: &[Weight],
    vertex: VertexIndex,
    nearest: &[TableWeight],
    out: &mut [TableWeight],
    before: &mut [u32],
    neighbor_numbers: &mut [u32],
    list_ends: &mut [u32],
    status: &mut [u8],
    weight: &mut [Weight],
    previous: &mut [u32],
    node: &mut [u64],
    leaf: &mut [u64],
) -> Result<(), Refusal>
    ensures { FilledRow (engine_in c ends_a.now ends_b.now weights.now boundary.now log_edges.now log_weights.now) vertex.0 nearest.now result
        out.old out.new before.old before.new
        (scratch_in neighbor_numbers.old list_ends.old status.old weight.old previous.old node.old leaf.old)
        (scratch_in neighbor_numbers.new list_ends.new status.new weight.new previous.new node.new leaf.new) }
{
    let v = c.vertices as usize;
    require(v <= nearest.len(), Refusal::ShortColumn)?;
    all_edges(
        c,
        ends_a,
        ends_b,
        weights,
        boundary,
        log_edges,
        log_weights,
        vertex,
        out,
        before,
        neighbor_numbers,
        list_ends,
        status,
        weight,
        previous,
        node,
        leaf,
    )?;
    write_row(&boundary[..v], nearest, vertex, out);
    Ok(())
}
