// The boundary weight and the boundary vertex of a vertex, from its table.
ghost use Rattle.std.specs.Prelude.{◌≡◌, ◌<◌, ◌≤◌, length, set};
ghost use Rattle.engine_walks.specs.Answers.{weight_in};
ghost use Rattle.prebuilt_entries.specs.Nearest.{place_found, boundary_in, weight_to, vertex_to};

use super::nearest::nearest_place;
use columns::TableWeight;

// The nearest virtual vertex of v in its table; a virtual vertex has none.
#[tactic(auto, using(crate::proofs::Places::at_virtual, crate::proofs::Places::at_inner))]
pub fn boundary_place(boundary: &[u8], least: &[TableWeight], v: usize) -> Option<usize>
    requires { (length boundary.now ≡ length least.now) × (v < length boundary.now) }
    ensures { result ≡ place_found (boundary_in boundary.now least.now (length least.now) v) }
{
    if boundary[v] != 0 {
        None
    } else {
        nearest_place(boundary, least)
    }
}

// The weight of u in a table, -1 past its end.
fn weight_at(least: &[TableWeight], u: usize) -> TableWeight
    ensures { result ≡ weight_in least.now u }
{
    if u < least.len() { least[u] } else { -1 }
}

// The weight and the number of the nearest virtual vertex of v, from its table.
pub fn store_boundary(
    boundary: &[u8],
    least: &[TableWeight],
    v: usize,
    out_weight: &mut [TableWeight],
    out_vertex: &mut [u32],
)
    requires { (length boundary.now ≡ length least.now) × (v < length boundary.now) × (length least.now ≤ 4096) × (v < length out_weight.old) × (v < length out_vertex.old) }
    ensures out_weight_after { out_weight.new ≡ set out_weight.old v (weight_to least.now (boundary_in boundary.now least.now (length least.now) v)) }
    ensures out_vertex_after { out_vertex.new ≡ set out_vertex.old v (vertex_to (boundary_in boundary.now least.now (length least.now) v)) }
{
    let (weight, vertex) = match boundary_place(boundary, least, v) {
        None => (-1, 0),
        Some(u) => (weight_at(least, u), u as u32),
    };
    out_weight[v] = weight;
    out_vertex[v] = vertex;
}
