// Paths and crossings for C and Rust: slices as pointer and length, answers as structs of numbers.

ghost use Rattle.engine_columns.specs.Records.{counts, engine_in};
ghost use Rattle.query_questions.specs.Scratch.{scratch_in};
ghost use Rattle.query_paths.specs.GetPath.{GotPath};
ghost use Rattle.query_crossing_answer.specs.Crossing.{FoundCrossing};
ghost use Rattle.c_reports.specs.Reports.{Reported, ReportsCount};
ghost use Rattle.c_engine.specs.QueryReports.{ReportsPath};

use super::query_reports::path_report;
use c_reports::{OneCount, TwoCounts, count_report};
use columns::{TableWeight, VertexIndex, Weight};
use engine_columns::EngineCounts;

// The path of least weight from a to b: each vertex after a, up to b, with the weight of the step into it.
// The columns from `neighbor_numbers` on are scratch.
#[unsafe(no_mangle)]
pub extern "C" fn moldingcress_get_path(
    vertices: u32,
    edges: u32,
    entries: usize,
    ends_a: &[u32],
    ends_b: &[u32],
    weights: &[Weight],
    boundary: &[u8],
    log_edges: &[u32],
    log_weights: &[Weight],
    a: u32,
    b: u32,
    out_vertices: &mut [u32],
    out_steps: &mut [Weight],
    neighbor_numbers: &mut [u32],
    list_ends: &mut [u32],
    status: &mut [u8],
    weight: &mut [Weight],
    previous: &mut [u32],
    node: &mut [u64],
    leaf: &mut [u64],
) -> TwoCounts
    ensures { Reported ReportsPath (λ r. GotPath (engine_in (counts vertices edges entries) ends_a.now ends_b.now weights.now boundary.now log_edges.now log_weights.now) a b r
        out_vertices.old out_vertices.new out_steps.old out_steps.new
        (scratch_in neighbor_numbers.old list_ends.old status.old weight.old previous.old node.old leaf.old)
        (scratch_in neighbor_numbers.new list_ends.new status.new weight.new previous.new node.new leaf.new)) result }
{
    path_report(query_paths::get_path(
        EngineCounts {
            vertices,
            edges,
            entries,
        },
        ends_a,
        ends_b,
        weights,
        boundary,
        log_edges,
        log_weights,
        VertexIndex(a),
        VertexIndex(b),
        out_vertices,
        out_steps,
        neighbor_numbers,
        list_ends,
        status,
        weight,
        previous,
        node,
        leaf,
    ))
}

// The least weight of a walk from a left to a right vertex; the weight column then holds the least weight from the left, -1 for unreached.
// The columns from `neighbor_numbers` on are scratch.
#[unsafe(no_mangle)]
pub extern "C" fn moldingcress_crossing(
    vertices: u32,
    edges: u32,
    entries: usize,
    ends_a: &[u32],
    ends_b: &[u32],
    weights: &[Weight],
    boundary: &[u8],
    log_edges: &[u32],
    log_weights: &[Weight],
    out_weight: &mut [TableWeight],
    neighbor_numbers: &mut [u32],
    list_ends: &mut [u32],
    status: &mut [u8],
    weight: &mut [Weight],
    previous: &mut [u32],
    node: &mut [u64],
    leaf: &mut [u64],
) -> OneCount
    ensures { Reported ReportsCount (λ r. FoundCrossing (engine_in (counts vertices edges entries) ends_a.now ends_b.now weights.now boundary.now log_edges.now log_weights.now) r out_weight.old out_weight.new
        (scratch_in neighbor_numbers.old list_ends.old status.old weight.old previous.old node.old leaf.old)
        (scratch_in neighbor_numbers.new list_ends.new status.new weight.new previous.new node.new leaf.new)) result }
{
    count_report(query_crossings::crossing(
        EngineCounts {
            vertices,
            edges,
            entries,
        },
        ends_a,
        ends_b,
        weights,
        boundary,
        log_edges,
        log_weights,
        out_weight,
        neighbor_numbers,
        list_ends,
        status,
        weight,
        previous,
        node,
        leaf,
    ))
}
