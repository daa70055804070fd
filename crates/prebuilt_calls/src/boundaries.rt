// The prebuilt complete graph: the boundary weight and the boundary vertex of every vertex.
ghost use Rattle.std.specs.Prelude.{◌≡◌, ◌<◌, length, IsOk};
ghost use Rattle.columns.specs.Refusals.{question_of};
ghost use Rattle.engine_columns.specs.Records.{engine_in};
ghost use Rattle.query_questions.specs.Scratch.{scratch_in, scratch_lengths};
ghost use Rattle.prebuilt_calls.specs.Boundaries.{boundaries_refusal, FilledBoundaries};
ghost use Rattle.prebuilt_calls.specs.Steps.{Fillable, OneFilled, AllFilled};

use columns::refusal::Refusal;
use columns::{TableWeight, VertexIndex, Weight};
use engine_columns::EngineCounts;
use prebuilt_entries::boundaries::store_boundary;
use query_questions::{query_refusal, scratch_fits};
use query_tables::all_edges;

// The weight and the number of the nearest virtual vertex of v, by a search from v. The columns from `least` on are scratch.
fn fill_one(
    c: EngineCounts,
    ends_a: &[u32],
    ends_b: &[u32],
    weights: &[Weight],
    boundary: &[u8],
    log_edges: &[u32],
    log_weights: &[Weight],
    v: VertexIndex,
    out_weight: &mut [TableWeight],
    out_vertex: &mut [u32],
    least: &mut [TableWeight],
    before: &mut [u32],
    neighbor_numbers: &mut [u32],
    list_ends: &mut [u32],
    status: &mut [u8],
    weight: &mut [Weight],
    previous: &mut [u32],
    node: &mut [u64],
    leaf: &mut [u64],
) -> Result<(), Refusal>
    requires fillable { Fillable (engine_in c ends_a.now ends_b.now weights.now boundary.now log_edges.now log_weights.now) (length out_weight.old) (length out_vertex.old) (length least.old) (length before.old) (scratch_lengths (scratch_in neighbor_numbers.old list_ends.old status.old weight.old previous.old node.old leaf.old)) }
    requires v_lt_vertices { v.0 < c.vertices }
    ensures ok { IsOk result }
    ensures filled { OneFilled (engine_in c ends_a.now ends_b.now weights.now boundary.now log_edges.now log_weights.now) v.0
        out_weight.old out_weight.new out_vertex.old out_vertex.new least.old least.new before.old before.new
        (scratch_in neighbor_numbers.old list_ends.old status.old weight.old previous.old node.old leaf.old)
        (scratch_in neighbor_numbers.new list_ends.new status.new weight.new previous.new node.new leaf.new) }
{
    all_edges(
        c,
        ends_a,
        ends_b,
        weights,
        boundary,
        log_edges,
        log_weights,
        v,
        least,
        before,
        neighbor_numbers,
        list_ends,
        status,
        weight,
        previous,
        node,
        leaf,
    )?;
    let n = c.vertices as usize;
    store_boundary(
        &boundary[..n],
        &least[..n],
        v.0 as usize,
        out_weight,
        out_vertex,
    );
    Ok(())
}

// The same for every vertex.
fn fill_all(
    c: EngineCounts,
    ends_a: &[u32],
    ends_b: &[u32],
    weights: &[Weight],
    boundary: &[u8],
    log_edges: &[u32],
    log_weights: &[Weight],
    out_weight: &mut [TableWeight],
    out_vertex: &mut [u32],
    least: &mut [TableWeight],
    before: &mut [u32],
    neighbor_numbers: &mut [u32],
    list_ends: &mut [u32],
    status: &mut [u8],
    weight: &mut [Weight],
    previous: &mut [u32],
    node: &mut [u64],
    leaf: &mut [u64],
) -> Result<(), Refusal>
    requires { Fillable (engine_in c ends_a.now ends_b.now weights.now boundary.now log_edges.now log_weights.now) (length out_weight.old) (length out_vertex.old) (length least.old) (length before.old) (scratch_lengths (scratch_in neighbor_numbers.old list_ends.old status.old weight.old previous.old node.old leaf.old)) }
    ensures ok { IsOk result }
    ensures filled { AllFilled (engine_in c ends_a.now ends_b.now weights.now boundary.now log_edges.now log_weights.now)
        out_weight.old out_weight.new out_vertex.old out_vertex.new least.old least.new before.old before.new
        (scratch_in neighbor_numbers.old list_ends.old status.old weight.old previous.old node.old leaf.old)
        (scratch_in neighbor_numbers.new list_ends.new status.new weight.new previous.new node.new leaf.new) }
{
    for v in 0..c.vertices {
        fill_one(
            c,
            ends_a,
            ends_b,
            weights,
            boundary,
            log_edges,
            log_weights,
            VertexIndex(v),
            out_weight,
            out_vertex,
            least,
            before,
            neighbor_numbers,
            list_ends,
            status,
            weight,
            previous,
            node,
            leaf,
        )?;
    }
    Ok(())
}

// Questions 6 and 7 of the boundaries, from the lengths of the columns, and whether scratch is long enough.
fn boundaries_asked(
    c: EngineCounts,
    ends_a: &[u32],
    ends_b: &[u32],
    weights: &[Weight],
    boundary: &[u8],
    log_edges: &[u32],
    log_weights: &[Weight],
    out_weight: usize,
    out_vertex: usize,
    least: usize,
    before: usize,
    scratch: bool,
) -> Result<(), Refusal>
    ensures { question_of result ≡ boundaries_refusal (engine_in c ends_a.now ends_b.now weights.now boundary.now log_edges.now log_weights.now) scratch out_weight out_vertex least before }
{
    let v = c.vertices as usize;
    query_refusal(
        c,
        ends_a,
        ends_b,
        weights,
        boundary,
        log_edges,
        log_weights,
        v <= out_weight && v <= out_vertex && v <= least && v <= before && scratch,
        true,
    )
}

// The boundary weight and the boundary vertex of every vertex: of the virtual vertices that it reaches the nearest, the smallest number among equals; -1 and 0
// for a virtual vertex, and where none is reached. The columns from `least` on are scratch.
pub fn fill_boundaries(
    c: EngineCounts,
    ends_a: &[u32],
    ends_b: &[u32],
    weights: &[Weight],
    boundary: &[u8],
    log_edges: &[u32],
    log_weights: &[Weight],
    out_weight: &mut [TableWeight],
    out_vertex: &mut [u32],
    least: &mut [TableWeight],
    before: &mut [u32],
    neighbor_numbers: &mut [u32],
    list_ends: &mut [u32],
    status: &mut [u8],
    weight: &mut [Weight],
    previous: &mut [u32],
    node: &mut [u64],
    leaf: &mut [u64],
) -> Result<(), Refusal>
    ensures { FilledBoundaries (engine_in c ends_a.now ends_b.now weights.now boundary.now log_edges.now log_weights.now) result
        out_weight.old out_weight.new out_vertex.old out_vertex.new least.old least.new before.old before.new
        (scratch_in neighbor_numbers.old list_ends.old status.old weight.old previous.old node.old leaf.old)
        (scratch_in neighbor_numbers.new list_ends.new status.new weight.new previous.new node.new leaf.new) }
{
    let room = scratch_fits(
        c,
        neighbor_numbers,
        list_ends,
        status,
        weight,
        previous,
        node,
        leaf,
    );
    boundaries_asked(
        c,
        ends_a,
        ends_b,
        weights,
        boundary,
        log_edges,
        log_weights,
        out_weight.len(),
        out_vertex.len(),
        least.len(),
        before.len(),
        room,
    )?;
    fill_all(
        c,
        ends_a,
        ends_b,
        weights,
        boundary,
        log_edges,
        log_weights,
        out_weight,
        out_vertex,
        least,
        before,
        neighbor_numbers,
        list_ends,
        status,
        weight,
        previous,
        node,
        leaf,
    )
}
