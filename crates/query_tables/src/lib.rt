// Queries of the engine graph: the table of least weights and previous vertices.
#![tactic(auto)]

ghost use Rattle.std.specs.Prelude.{◌≡◌, ℕ, ◌<◌, ◌≤◌, length, get_or, take, None};
ghost use Rattle.columns.specs.Limits.{sum_limit};
ghost use Rattle.columns.specs.Lists.{each, over};
ghost use Rattle.columns.specs.Refusals.{question_of};
ghost use Rattle.engine_columns.specs.Records.{engine_in};
ghost use Rattle.engine_walks.specs.Answers.{table_weight, table_previous};
ghost use Rattle.query_relaxing.specs.Ready.{state_of};
ghost use Rattle.query_tables.specs.Ends.{end_in_range, stop_of};
ghost use Rattle.query_tables.specs.Tables.{table_refusal, FoundTable};
ghost use Rattle.query_questions.specs.Scratch.{scratch_in};

use columns::refusal::Refusal;
use columns::{TableWeight, VertexIndex, Weight};
use engine_columns::EngineCounts;
use query_questions::{named_stop, query_refusal, scratch_fits};
use query_search::{Origin, search, write_previous, write_weights};

// Question 13, of the vertex after which a search stops.
fn end_in_range(end: Option<VertexIndex>, vertices: u32) -> bool
    ensures { result ≡ end_in_range end vertices }
{
    match end {
        None => true,
        Some(b) => b.0 < vertices,
    }
}

// The number after which a search from the source stops: that of a named end which is not the source, else one that is no vertex.
fn stop_of(end: Option<VertexIndex>, source: VertexIndex, vertices: u32) -> VertexIndex
    ensures { result.0 ≡ stop_of end source.0 vertices }
{
    match end {
        None => VertexIndex(vertices),
        Some(b) => named_stop(b, source, vertices),
    }
}

// Questions 6, 7 and 13 of a table, from the lengths of its columns, and whether scratch is long enough.
fn table_asked(
    c: EngineCounts,
    ends_a: &[u32],
    ends_b: &[u32],
    weights: &[Weight],
    boundary: &[u8],
    log_edges: &[u32],
    log_weights: &[Weight],
    source: VertexIndex,
    end: Option<VertexIndex>,
    out_weight: usize,
    out_previous: usize,
    scratch: bool,
) -> Result<(), Refusal>
    ensures { question_of result ≡ table_refusal (engine_in c ends_a.now ends_b.now weights.now boundary.now log_edges.now log_weights.now) scratch source.0 end out_weight out_previous }
{
    let v = c.vertices as usize;
    query_refusal(
        c,
        ends_a,
        ends_b,
        weights,
        boundary,
        log_edges,
        log_weights,
        v <= out_weight && v <= out_previous && scratch,
        source.0 < c.vertices && end_in_range(end, c.vertices),
    )
}

// The table of the first v vertices, from the state in the columns.
fn write_table(
    v: usize,
    status: &[u8],
    weight: &[Weight],
    previous: &[u32],
    out_weight: &mut [TableWeight],
    out_previous: &mut [u32],
)
    requires lengths { (v ≤ length status.now) × (v ≤ length weight.now) × (v ≤ length previous.now) × (v ≤ length out_weight.old) × (v ≤ length out_previous.old) }
    requires within { (u : ℕ) → u < v → get_or weight.now u 0 < sum_limit }
    ensures weights_after { out_weight.new ≡ over (each v (table_weight (state_of (take v status.now) (take v weight.now) (take v previous.now)))) out_weight.old }
    ensures previous_after { out_previous.new ≡ over (each v (table_previous (state_of (take v status.now) (take v weight.now) (take v previous.now)))) out_previous.old }
{
    let status = &status[..v];
    write_weights(status, &weight[..v], out_weight);
    write_previous(status, &previous[..v], out_previous);
}

// The least weight from the source and the previous vertex of every vertex, up to the named end: -1 and 0 where a vertex was not taken.
// The columns from `neighbor_numbers` on are scratch.
pub fn all_edges_with_terminate(
    c: EngineCounts,
    ends_a: &[u32],
    ends_b: &[u32],
    weights: &[Weight],
    boundary: &[u8],
    log_edges: &[u32],
    log_weights: &[Weight],
    source: VertexIndex,
    end: Option<VertexIndex>,
    out_weight: &mut [TableWeight],
    out_previous: &mut [u32],
    neighbor_numbers: &mut [u32],
    list_ends: &mut [u32],
    status: &mut [u8],
    weight: &mut [Weight],
    previous: &mut [u32],
    node: &mut [u64],
    leaf: &mut [u64],
) -> Result<(), Refusal>
    ensures { FoundTable (engine_in c ends_a.now ends_b.now weights.now boundary.now log_edges.now log_weights.now) source.0 end result
        out_weight.old out_weight.new out_previous.old out_previous.new
        (scratch_in neighbor_numbers.old list_ends.old status.old weight.old previous.old node.old leaf.old)
        (scratch_in neighbor_numbers.new list_ends.new status.new weight.new previous.new node.new leaf.new) }
{
    let room = scratch_fits(
        c,
        neighbor_numbers,
        list_ends,
        status,
        weight,
        previous,
        node,
        leaf,
    );
    table_asked(
        c,
        ends_a,
        ends_b,
        weights,
        boundary,
        log_edges,
        log_weights,
        source,
        end,
        out_weight.len(),
        out_previous.len(),
        room,
    )?;
    let stop = stop_of(end, source, c.vertices);
    search(
        c,
        ends_a,
        ends_b,
        weights,
        boundary,
        Origin::At(source, stop),
        neighbor_numbers,
        list_ends,
        status,
        weight,
        previous,
        node,
        leaf,
    );
    write_table(
        c.vertices as usize,
        status,
        weight,
        previous,
        out_weight,
        out_previous,
    );
    Ok(())
}

// The table from the source with no end.
pub fn all_edges(
    c: EngineCounts,
    ends_a: &[u32],
    ends_b: &[u32],
    weights: &[Weight],
    boundary: &[u8],
    log_edges: &[u32],
    log_weights: &[Weight],
    source: VertexIndex,
    out_weight: &mut [TableWeight],
    out_previous: &mut [u32],
    neighbor_numbers: &mut [u32],
    list_ends: &mut [u32],
    status: &mut [u8],
    weight: &mut [Weight],
    previous: &mut [u32],
    node: &mut [u64],
    leaf: &mut [u64],
) -> Result<(), Refusal>
    ensures { FoundTable (engine_in c ends_a.now ends_b.now weights.now boundary.now log_edges.now log_weights.now) source.0 None result
        out_weight.old out_weight.new out_previous.old out_previous.new
        (scratch_in neighbor_numbers.old list_ends.old status.old weight.old previous.old node.old leaf.old)
        (scratch_in neighbor_numbers.new list_ends.new status.new weight.new previous.new node.new leaf.new) }
{
    all_edges_with_terminate(
        c,
        ends_a,
        ends_b,
        weights,
        boundary,
        log_edges,
        log_weights,
        source,
        None,
        out_weight,
        out_previous,
        neighbor_numbers,
        list_ends,
        status,
        weight,
        previous,
        node,
        leaf,
    )
}
