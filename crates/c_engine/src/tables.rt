ghost use Rattle.c_reports.specs.Reports.{Reported, ReportsNumber};
ghost use Rattle.c_reports.specs.Engine.{given_end, no_end};
ghost use Rattle.query_tables.specs.Tables.{FoundTable};
ghost use Rattle.query_questions.specs.Scratch.{scratch_in};
ghost use Rattle.engine_columns.specs.Records.{counts, engine_in};

use c_reports::engine::end_of;
use c_reports::number_of;
use columns::{TableWeight, VertexIndex, Weight};
use engine_columns::EngineCounts;

// The least weight from the source and the previous vertex of every vertex, up to the named end: -1 and 0 where a vertex was not taken.
// There is an end where `has_end` is not 0: C has no Option.
// The columns from `neighbor_numbers` on are scratch.
#[unsafe(no_mangle)]
pub extern "C" fn moldingcress_all_edges_with_terminate(
    vertices: u32,
    edges: u32,
    entries: usize,
    ends_a: &[u32],
    ends_b: &[u32],
    weights: &[Weight],
    boundary: &[u8],
    log_edges: &[u32],
    log_weights: &[Weight],
    source: u32,
    has_end: u8,
    end: u32,
    out_weight: &mut [TableWeight],
    out_previous: &mut [u32],
    neighbor_numbers: &mut [u32],
    list_ends: &mut [u32],
    status: &mut [u8],
    weight: &mut [Weight],
    previous: &mut [u32],
    node: &mut [u64],
    leaf: &mut [u64],
) -> u32
    ensures { Reported ReportsNumber (λ r. FoundTable (engine_in (counts vertices edges entries) ends_a.now ends_b.now weights.now boundary.now log_edges.now log_weights.now) source (given_end has_end end) r
        out_weight.old out_weight.new out_previous.old out_previous.new
        (scratch_in neighbor_numbers.old list_ends.old status.old weight.old previous.old node.old leaf.old)
        (scratch_in neighbor_numbers.new list_ends.new status.new weight.new previous.new node.new leaf.new)) result }
{
    number_of(query_tables::all_edges_with_terminate(
        EngineCounts {
            vertices,
            edges,
            entries,
        },
        ends_a,
        ends_b,
        weights,
        boundary,
        log_edges,
        log_weights,
        VertexIndex(source),
        end_of(has_end, end),
        out_weight,
        out_previous,
        neighbor_numbers,
        list_ends,
        status,
        weight,
        previous,
        node,
        leaf,
    ))
}

// The table from the source with no end.
#[unsafe(no_mangle)]
pub extern "C" fn moldingcress_all_edges(
    vertices: u32,
    edges: u32,
    entries: usize,
    ends_a: &[u32],
    ends_b: &[u32],
    weights: &[Weight],
    boundary: &[u8],
    log_edges: &[u32],
    log_weights: &[Weight],
    source: u32,
    out_weight: &mut [TableWeight],
    out_previous: &mut [u32],
    neighbor_numbers: &mut [u32],
    list_ends: &mut [u32],
    status: &mut [u8],
    weight: &mut [Weight],
    previous: &mut [u32],
    node: &mut [u64],
    leaf: &mut [u64],
) -> u32
    ensures { Reported ReportsNumber (λ r. FoundTable (engine_in (counts vertices edges entries) ends_a.now ends_b.now weights.now boundary.now log_edges.now log_weights.now) source no_end r
        out_weight.old out_weight.new out_previous.old out_previous.new
        (scratch_in neighbor_numbers.old list_ends.old status.old weight.old previous.old node.old leaf.old)
        (scratch_in neighbor_numbers.new list_ends.new status.new weight.new previous.new node.new leaf.new)) result }
{
    number_of(query_tables::all_edges(
        EngineCounts {
            vertices,
            edges,
            entries,
        },
        ends_a,
        ends_b,
        weights,
        boundary,
        log_edges,
        log_weights,
        VertexIndex(source),
        out_weight,
        out_previous,
        neighbor_numbers,
        list_ends,
        status,
        weight,
        previous,
        node,
        leaf,
    ))
}
