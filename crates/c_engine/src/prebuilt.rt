// The prebuilt complete graph for C and Rust: slices as pointer and length, answers as numbers or a struct of numbers.

ghost use Rattle.engine_columns.specs.Records.{counts, engine_in};
ghost use Rattle.query_questions.specs.Scratch.{scratch_in};
ghost use Rattle.prebuilt_calls.specs.Rows.{FilledRow};
ghost use Rattle.prebuilt_calls.specs.Nearest.{GotBoundaryWeight};
ghost use Rattle.prebuilt_calls.specs.Boundaries.{FilledBoundaries};
ghost use Rattle.c_reports.specs.Reports.{Reported, ReportsNumber};
ghost use Rattle.c_engine.specs.PrebuiltReports.{ReportsBoundary};

use super::prebuilt_reports::{BoundaryReport, boundary_report};
use c_reports::number_of;
use columns::{TableWeight, VertexIndex, Weight};
use engine_columns::EngineCounts;

// The row of a vertex: for each vertex the least weight to it, -1 where there is no edge. `nearest` holds each vertex's least weight to a virtual one,
// -1 for none, as `moldingcress_fill_boundaries` fills it. The columns from `before` on are scratch.
#[unsafe(no_mangle)]
pub extern "C" fn moldingcress_fill_row(
    vertices: u32,
    edges: u32,
    entries: usize,
    ends_a: &[u32],
    ends_b: &[u32],
    weights: &[Weight],
    boundary: &[u8],
    log_edges: &[u32],
    log_weights: &[Weight],
    vertex: u32,
    nearest: &[TableWeight],
    out: &mut [TableWeight],
    before: &mut [u32],
    neighbor_numbers: &mut [u32],
    list_ends: &mut [u32],
    status: &mut [u8],
    weight: &mut [Weight],
    previous: &mut [u32],
    node: &mut [u64],
    leaf: &mut [u64],
) -> u32
    ensures { Reported ReportsNumber (λ r. FilledRow (engine_in (counts vertices edges entries) ends_a.now ends_b.now weights.now boundary.now log_edges.now log_weights.now) vertex nearest.now r
        out.old out.new before.old before.new
        (scratch_in neighbor_numbers.old list_ends.old status.old weight.old previous.old node.old leaf.old)
        (scratch_in neighbor_numbers.new list_ends.new status.new weight.new previous.new node.new leaf.new)) result }
{
    number_of(prebuilt_calls::fill_row(
        EngineCounts {
            vertices,
            edges,
            entries,
        },
        ends_a,
        ends_b,
        weights,
        boundary,
        log_edges,
        log_weights,
        VertexIndex(vertex),
        nearest,
        out,
        before,
        neighbor_numbers,
        list_ends,
        status,
        weight,
        previous,
        node,
        leaf,
    ))
}

// The nearest virtual vertex of a vertex that is not virtual, with its least weight. The columns from `least` on are scratch.
#[unsafe(no_mangle)]
pub extern "C" fn moldingcress_get_boundary_weight(
    vertices: u32,
    edges: u32,
    entries: usize,
    ends_a: &[u32],
    ends_b: &[u32],
    weights: &[Weight],
    boundary: &[u8],
    log_edges: &[u32],
    log_weights: &[Weight],
    vertex: u32,
    least: &mut [TableWeight],
    before: &mut [u32],
    neighbor_numbers: &mut [u32],
    list_ends: &mut [u32],
    status: &mut [u8],
    weight: &mut [Weight],
    previous: &mut [u32],
    node: &mut [u64],
    leaf: &mut [u64],
) -> BoundaryReport
    ensures { Reported ReportsBoundary (λ r. GotBoundaryWeight (engine_in (counts vertices edges entries) ends_a.now ends_b.now weights.now boundary.now log_edges.now log_weights.now) vertex r
        least.old least.new before.old before.new
        (scratch_in neighbor_numbers.old list_ends.old status.old weight.old previous.old node.old leaf.old)
        (scratch_in neighbor_numbers.new list_ends.new status.new weight.new previous.new node.new leaf.new)) result }
{
    boundary_report(prebuilt_calls::nearest::get_boundary_weight(
        EngineCounts {
            vertices,
            edges,
            entries,
        },
        ends_a,
        ends_b,
        weights,
        boundary,
        log_edges,
        log_weights,
        VertexIndex(vertex),
        least,
        before,
        neighbor_numbers,
        list_ends,
        status,
        weight,
        previous,
        node,
        leaf,
    ))
}

// The boundary weight and the boundary vertex of every vertex, -1 and 0 for none. The columns from `least` on are scratch.
#[unsafe(no_mangle)]
pub extern "C" fn moldingcress_fill_boundaries(
    vertices: u32,
    edges: u32,
    entries: usize,
    ends_a: &[u32],
    ends_b: &[u32],
    weights: &[Weight],
    boundary: &[u8],
    log_edges: &[u32],
    log_weights: &[Weight],
    out_weight: &mut [TableWeight],
    out_vertex: &mut [u32],
    least: &mut [TableWeight],
    before: &mut [u32],
    neighbor_numbers: &mut [u32],
    list_ends: &mut [u32],
    status: &mut [u8],
    weight: &mut [Weight],
    previous: &mut [u32],
    node: &mut [u64],
    leaf: &mut [u64],
) -> u32
    ensures { Reported ReportsNumber (λ r. FilledBoundaries (engine_in (counts vertices edges entries) ends_a.now ends_b.now weights.now boundary.now log_edges.now log_weights.now) r
        out_weight.old out_weight.new out_vertex.old out_vertex.new least.old least.new before.old before.new
        (scratch_in neighbor_numbers.old list_ends.old status.old weight.old previous.old node.old leaf.old)
        (scratch_in neighbor_numbers.new list_ends.new status.new weight.new previous.new node.new leaf.new)) result }
{
    number_of(prebuilt_calls::boundaries::fill_boundaries(
        EngineCounts {
            vertices,
            edges,
            entries,
        },
        ends_a,
        ends_b,
        weights,
        boundary,
        log_edges,
        log_weights,
        out_weight,
        out_vertex,
        least,
        before,
        neighbor_numbers,
        list_ends,
        status,
        weight,
        previous,
        node,
        leaf,
    ))
}
