// The changes of an engine graph's weights: open, load erasures, load weights, reset.
#![tactic(auto)]

ghost use Rattle.engine_columns.specs.Records.{kept, engine_in};
ghost use Rattle.engine_columns.specs.Calls.{Modified, load_erasures, load_weights, reset};
ghost use Rattle.engine_columns.specs.Open.{Opened, graph_columns};

use columns::Weight;
use columns::refusal::Refusal;
use columns_stores::copy;
use engine_columns::EngineCounts;
use engine_log::{erase_all, undo_all, weigh_all};
use engine_questions::{load_erasures_refusal, load_weights_refusal, open_refusal, reset_refusal};

// Sets each named edge to weight 0, in list order. It needs an empty log, and keeps the earlier weights there.
pub fn load_erasures(
    c: EngineCounts,
    ends_a: &[u32],
    ends_b: &[u32],
    weights: &mut [Weight],
    boundary: &[u8],
    log_edges: &mut [u32],
    log_weights: &mut [Weight],
    list: &[u32],
) -> Result<EngineCounts, Refusal>
    ensures { Modified (load_erasures list.now)
        (engine_in c ends_a.now ends_b.now weights.old boundary.now log_edges.old log_weights.old)
        result
        (engine_in (kept c result) ends_a.now ends_b.now weights.new boundary.now log_edges.new log_weights.new) }
{
    load_erasures_refusal(
        c,
        ends_a,
        ends_b,
        weights,
        boundary,
        log_edges,
        log_weights,
        list,
    )?;
    erase_all(weights, log_edges, log_weights, list);
    Ok(EngineCounts {
        entries: list.len(),
        ..c
    })
}

// Sets each named edge to the weight given for it, in list order. It needs an empty log, and keeps the earlier weights there.
pub fn load_dynamic_weights(
    c: EngineCounts,
    ends_a: &[u32],
    ends_b: &[u32],
    weights: &mut [Weight],
    boundary: &[u8],
    log_edges: &mut [u32],
    log_weights: &mut [Weight],
    list: &[u32],
    values: &[Weight],
) -> Result<EngineCounts, Refusal>
    ensures { Modified (load_weights list.now values.now)
        (engine_in c ends_a.now ends_b.now weights.old boundary.now log_edges.old log_weights.old)
        result
        (engine_in (kept c result) ends_a.now ends_b.now weights.new boundary.now log_edges.new log_weights.new) }
{
    load_weights_refusal(
        c,
        ends_a,
        ends_b,
        weights,
        boundary,
        log_edges,
        log_weights,
        list,
        values,
    )?;
    weigh_all(weights, log_edges, log_weights, list, values);
    Ok(EngineCounts {
        entries: list.len(),
        ..c
    })
}

// Undoes the log from its end.
pub fn reset(
    c: EngineCounts,
    ends_a: &[u32],
    ends_b: &[u32],
    weights: &mut [Weight],
    boundary: &[u8],
    log_edges: &[u32],
    log_weights: &[Weight],
) -> Result<EngineCounts, Refusal>
    ensures { Modified reset
        (engine_in c ends_a.now ends_b.now weights.old boundary.now log_edges.now log_weights.now)
        result
        (engine_in (kept c result) ends_a.now ends_b.now weights.new boundary.now log_edges.now log_weights.now) }
{
    reset_refusal(c, ends_a, ends_b, weights, boundary, log_edges, log_weights)?;
    undo_all(weights, log_edges, log_weights, c.entries);
    Ok(EngineCounts { entries: 0, ..c })
}

// Opens a graph: copies ends, weights and boundary bytes into the engine's own columns, with an empty log.
pub fn open(
    vertices: u32,
    edges: u32,
    in_a: &[u32],
    in_b: &[u32],
    in_weights: &[Weight],
    in_boundary: &[u8],
    ends_a: &mut [u32],
    ends_b: &mut [u32],
    weights: &mut [Weight],
    boundary: &mut [u8],
) -> Result<EngineCounts, Refusal>
    ensures { Opened vertices edges
        (graph_columns in_a.now in_b.now in_weights.now in_boundary.now)
        (graph_columns ends_a.old ends_b.old weights.old boundary.old)
        result
        (graph_columns ends_a.new ends_b.new weights.new boundary.new) }
{
    open_refusal(
        vertices,
        edges,
        in_a,
        in_b,
        in_weights,
        in_boundary,
        ends_a,
        ends_b,
        weights,
        boundary,
    )?;
    let n = edges as usize;
    copy(ends_a, in_a, n);
    copy(ends_b, in_b, n);
    copy(weights, in_weights, n);
    copy(boundary, in_boundary, vertices as usize);
    Ok(EngineCounts {
        vertices,
        edges,
        entries: 0,
    })
}
