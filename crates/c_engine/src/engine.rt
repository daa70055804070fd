ghost use Rattle.c_reports.specs.Reports.{Reported};
ghost use Rattle.c_reports.specs.Engine.{ReportsEngine};
ghost use Rattle.engine_columns.specs.Open.{Opened, graph_columns};
ghost use Rattle.engine_columns.specs.Records.{kept, counts, engine_in};
ghost use Rattle.engine_columns.specs.Calls.{Modified, load_erasures, load_weights, reset};

use c_reports::engine::{EngineReport, engine_report};
use columns::Weight;
use engine_columns::EngineCounts;

// Opens a graph: copies ends, weights and boundary bytes into the engine's own columns, with an empty log.
#[unsafe(no_mangle)]
pub extern "C" fn moldingcress_open(
    vertices: u32,
    edges: u32,
    in_a: &[u32],
    in_b: &[u32],
    in_weights: &[Weight],
    in_boundary: &[u8],
    ends_a: &mut [u32],
    ends_b: &mut [u32],
    weights: &mut [Weight],
    boundary: &mut [u8],
) -> EngineReport
    ensures { Reported ReportsEngine (λ r. Opened vertices edges
        (graph_columns in_a.now in_b.now in_weights.now in_boundary.now)
        (graph_columns ends_a.old ends_b.old weights.old boundary.old)
        r
        (graph_columns ends_a.new ends_b.new weights.new boundary.new)) result }
{
    engine_report(engine_calls::open(
        vertices,
        edges,
        in_a,
        in_b,
        in_weights,
        in_boundary,
        ends_a,
        ends_b,
        weights,
        boundary,
    ))
}

// Sets each named edge to weight 0, in list order. It needs an empty log, and keeps the earlier weights there.
#[unsafe(no_mangle)]
pub extern "C" fn moldingcress_load_erasures(
    vertices: u32,
    edges: u32,
    entries: usize,
    ends_a: &[u32],
    ends_b: &[u32],
    weights: &mut [Weight],
    boundary: &[u8],
    log_edges: &mut [u32],
    log_weights: &mut [Weight],
    list: &[u32],
) -> EngineReport
    ensures { Reported ReportsEngine (λ r. Modified (load_erasures list.now)
        (engine_in (counts vertices edges entries) ends_a.now ends_b.now weights.old boundary.now log_edges.old log_weights.old)
        r
        (engine_in (kept (counts vertices edges entries) r) ends_a.now ends_b.now weights.new boundary.now log_edges.new log_weights.new)) result }
{
    engine_report(engine_calls::load_erasures(
        EngineCounts {
            vertices,
            edges,
            entries,
        },
        ends_a,
        ends_b,
        weights,
        boundary,
        log_edges,
        log_weights,
        list,
    ))
}

// Sets each named edge to the weight given for it, in list order. It needs an empty log, and keeps the earlier weights there.
#[unsafe(no_mangle)]
pub extern "C" fn moldingcress_load_dynamic_weights(
    vertices: u32,
    edges: u32,
    entries: usize,
    ends_a: &[u32],
    ends_b: &[u32],
    weights: &mut [Weight],
    boundary: &[u8],
    log_edges: &mut [u32],
    log_weights: &mut [Weight],
    list: &[u32],
    values: &[Weight],
) -> EngineReport
    ensures { Reported ReportsEngine (λ r. Modified (load_weights list.now values.now)
        (engine_in (counts vertices edges entries) ends_a.now ends_b.now weights.old boundary.now log_edges.old log_weights.old)
        r
        (engine_in (kept (counts vertices edges entries) r) ends_a.now ends_b.now weights.new boundary.now log_edges.new log_weights.new)) result }
{
    engine_report(engine_calls::load_dynamic_weights(
        EngineCounts {
            vertices,
            edges,
            entries,
        },
        ends_a,
        ends_b,
        weights,
        boundary,
        log_edges,
        log_weights,
        list,
        values,
    ))
}

// Undoes the log from its end.
#[unsafe(no_mangle)]
pub extern "C" fn moldingcress_reset(
    vertices: u32,
    edges: u32,
    entries: usize,
    ends_a: &[u32],
    ends_b: &[u32],
    weights: &mut [Weight],
    boundary: &[u8],
    log_edges: &[u32],
    log_weights: &[Weight],
) -> EngineReport
    ensures { Reported ReportsEngine (λ r. Modified reset
        (engine_in (counts vertices edges entries) ends_a.now ends_b.now weights.old boundary.now log_edges.now log_weights.now)
        r
        (engine_in (kept (counts vertices edges entries) r) ends_a.now ends_b.now weights.new boundary.now log_edges.now log_weights.now)) result }
{
    engine_report(engine_calls::reset(
        EngineCounts {
            vertices,
            edges,
            entries,
        },
        ends_a,
        ends_b,
        weights,
        boundary,
        log_edges,
        log_weights,
    ))
}
