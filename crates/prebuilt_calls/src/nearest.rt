// The nearest virtual vertex of a vertex.
ghost use Rattle.std.specs.Prelude.{◌≡◌, ◌<◌, ◌≤◌, length, take};
ghost use Rattle.engine_columns.specs.Records.{engine_in};
ghost use Rattle.query_questions.specs.Scratch.{scratch_in};
ghost use Rattle.prebuilt_entries.specs.Nearest.{boundary_in};
ghost use Rattle.prebuilt_calls.specs.Nearest.{nearest_values, boundary_found, GotBoundaryWeight};

use columns::refusal::Refusal;
use columns::{TableWeight, VertexIndex, Weight};
use engine_columns::EngineCounts;
use prebuilt_entries::boundaries::boundary_place;
use prebuilt_entries::nearest::amount_at;
use query_tables::all_edges;

// The nearest virtual vertex of a vertex, and its least weight.
#[derive(Clone, Copy)]
pub struct BoundaryVertex {
    pub vertex: VertexIndex,
    pub weight: Weight,
}

// That of vertex v, from its table of n vertices.
fn boundary_vertex(
    n: usize,
    boundary: &[u8],
    least: &[TableWeight],
    v: VertexIndex,
) -> Option<BoundaryVertex>
    requires { (n ≤ length boundary.now) × (n ≤ length least.now) × (v.0 < n) × (n ≤ 4096) }
    ensures { nearest_values result ≡ boundary_found (take n least.now) (boundary_in (take n boundary.now) (take n least.now) n v.0) }
{
    let least = &least[..n];
    let u = boundary_place(&boundary[..n], least, v.0 as usize)?;
    Some(BoundaryVertex {
        vertex: VertexIndex(u as u32),
        weight: amount_at(least, u),
    })
}

// The nearest virtual vertex of a vertex that is not virtual, with its least weight. The columns from `least` on are scratch.
pub fn get_boundary_weight(
    c: EngineCounts,
    ends_a: &[u32],
    ends_b: &[u32],
    weights: &[Weight],
    boundary: &[u8],
    log_edges: &[u32],
    log_weights: &[Weight],
    vertex: VertexIndex,
    least: &mut [TableWeight],
    before: &mut [u32],
    neighbor_numbers: &mut [u32],
    list_ends: &mut [u32],
    status: &mut [u8],
    weight: &mut [Weight],
    previous: &mut [u32],
    node: &mut [u64],
    leaf: &mut [u64],
) -> Result<Option<BoundaryVertex>, Refusal>
    ensures { GotBoundaryWeight (engine_in c ends_a.now ends_b.now weights.now boundary.now log_edges.now log_weights.now) vertex.0 result
        least.old least.new before.old before.new
        (scratch_in neighbor_numbers.old list_ends.old status.old weight.old previous.old node.old leaf.old)
        (scratch_in neighbor_numbers.new list_ends.new status.new weight.new previous.new node.new leaf.new) }
{
    all_edges(
        c,
        ends_a,
        ends_b,
        weights,
        boundary,
        log_edges,
        log_weights,
        vertex,
        least,
        before,
        neighbor_numbers,
        list_ends,
        status,
        weight,
        previous,
        node,
        leaf,
    )?;
    Ok(boundary_vertex(c.vertices as usize, boundary, least, vertex))
}
