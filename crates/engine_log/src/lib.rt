// Changes of edge weights with the log of earlier weights: in list order, and undone from the log's end.
#![tactic(auto)]

ghost use Rattle.std.specs.Prelude.{◌≡◌, ℕ, ◌<◌, ◌≤◌, length, set, get_or};
ghost use Rattle.engine_log.specs.Load.{loaded, earlier, named, undone, erased, given};

use columns::{EdgeIndex, Weight};

// Sets edge e to x, and writes e and its earlier weight into place i of the log.
fn set_weight(
    weights: &mut [Weight],
    log_edges: &mut [u32],
    log_weights: &mut [Weight],
    i: usize,
    e: EdgeIndex,
    x: Weight,
)
    requires { (e.0 < length weights.old) × (i < length log_edges.old) × (i < length log_weights.old) }
    ensures weights_after { weights.new ≡ set weights.old e.0 x }
    ensures log_edges_after { log_edges.new ≡ set log_edges.old i e.0 }
    ensures log_weights_after { log_weights.new ≡ set log_weights.old i (get_or weights.old e.0 0) }
{
    let at = e.0 as usize;
    let earlier = weights[at];
    log_edges[i] = e.0;
    log_weights[i] = earlier;
    weights[at] = x;
}

// Sets every named edge to 0, in list order.
pub fn erase_all(
    weights: &mut [Weight],
    log_edges: &mut [u32],
    log_weights: &mut [Weight],
    list: &[u32],
)
    requires by_index { (i : ℕ) → i < length list.now → get_or list.now i 0 < length weights.old }
    requires list_in_bounds { (length list.now ≤ length log_edges.old) × (length list.now ≤ length log_weights.old) }
    ensures weights_after { weights.new ≡ loaded list.now erased (length list.now) weights.old }
    ensures log_edges_after { log_edges.new ≡ named list.now (length list.now) log_edges.old }
    ensures log_weights_after { log_weights.new ≡ earlier list.now erased (length list.now) weights.old log_weights.old }
{
    for i in 0..list.len() {
        set_weight(weights, log_edges, log_weights, i, EdgeIndex(list[i]), 0);
    }
}

// Sets every named edge to the weight given for it, in list order.
pub fn weigh_all(
    weights: &mut [Weight],
    log_edges: &mut [u32],
    log_weights: &mut [Weight],
    list: &[u32],
    values: &[Weight],
)
    requires by_index { (i : ℕ) → i < length list.now → get_or list.now i 0 < length weights.old }
    requires list_in_bounds { (length list.now ≤ length log_edges.old) × (length list.now ≤ length log_weights.old) × (length list.now ≡ length values.now) }
    ensures weights_after { weights.new ≡ loaded list.now (given values.now) (length list.now) weights.old }
    ensures log_edges_after { log_edges.new ≡ named list.now (length list.now) log_edges.old }
    ensures log_weights_after { log_weights.new ≡ earlier list.now (given values.now) (length list.now) weights.old log_weights.old }
{
    for i in 0..list.len() {
        set_weight(
            weights,
            log_edges,
            log_weights,
            i,
            EdgeIndex(list[i]),
            values[i],
        );
    }
}

// Undoes the first n log entries, from the last of them to the first.
pub fn undo_all(weights: &mut [Weight], log_edges: &[u32], log_weights: &[Weight], n: usize)
    requires by_index { (i : ℕ) → i < n → get_or log_edges.now i 0 < length weights.old }
    requires n_in_bounds { (n ≤ length log_edges.now) × (n ≤ length log_weights.now) }
    ensures { weights.new ≡ undone log_edges.now log_weights.now n weights.old }
{
    for at in (0..n).rev() {
        let e = log_edges[at] as usize;
        weights[e] = log_weights[at];
    }
}
