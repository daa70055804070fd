// Settling over columns: one turn takes the waiting vertex of least weight and offers its neighbours, until nothing waits or an end is taken.
#![tactic(auto)]

ghost use Rattle.std.specs.Prelude.{◌≡◌, false, ◌&&◌, List, ℕ, ◌-◌, ◌<◌, length, get_or, take, drop, eqb, ltb};
ghost use Rattle.std.proofs.Math.Option.{none};
ghost use Rattle.engine_walks.specs.Settling.{take_chosen, to_take, settled, relax_along};
ghost use Rattle.query_relaxing.specs.Ready.{graph_of, weighs, state_of, Ready, Listed, Along, Offers, sources, end_of, start_in, Begun};

use columns::{EdgeIndex, VertexIndex, Weight};
use query_relaxing::relax_edge;

// The edges of vertex a at the places from `from` to `to` of the neighbour lists, one after another.
fn relax_list(
    ends_a: &[u32],
    ends_b: &[u32],
    weights: &[Weight],
    neighbor_numbers: &[u32],
    from: usize,
    to: usize,
    status: &mut [u8],
    weight: &mut [Weight],
    previous: &mut [u32],
    node: &mut [u64],
    leaf: &mut [u64],
    a: VertexIndex,
    q: VertexIndex,
    w: Weight,
)
    requires ready { Ready (length status.old) (state_of status.old weight.old previous.old) node.old leaf.old }
    requires along { Along (length status.old) ends_a.now ends_b.now weights.now neighbor_numbers.now from to a.0 w }
    ensures by_index { (n : ℕ) (m : List ℕ) → state_of status.new weight.new previous.new ≡ relax_along (graph_of n ends_a.now ends_b.now m) (weighs weights.now) a.0 q.0 w (take (to - from) (drop from neighbor_numbers.now)) (state_of status.old weight.old previous.old) }
    ensures ready_2 { Ready (length status.old) (state_of status.new weight.new previous.new) node.new leaf.new }
{
    for i in from..to {
        relax_edge(
            ends_a,
            ends_b,
            weights,
            status,
            weight,
            previous,
            node,
            leaf,
            a,
            q,
            w,
            EdgeIndex(neighbor_numbers[i]),
        );
    }
}

// Where the neighbour list of vertex v starts.
fn list_start(list_ends: &[u32], v: usize) -> usize
    requires { v < length list_ends.now }
    ensures { result ≡ start_in list_ends.now v }
{
    if v == 0 {
        return 0;
    }
    list_ends[v - 1] as usize
}

// One turn: takes the waiting vertex of least weight, the smaller number among equals. False where none waits.
fn turn(
    ends_a: &[u32],
    ends_b: &[u32],
    weights: &[Weight],
    neighbor_numbers: &[u32],
    list_ends: &[u32],
    status: &mut [u8],
    weight: &mut [Weight],
    previous: &mut [u32],
    node: &mut [u64],
    leaf: &mut [u64],
) -> bool
    requires ready { Ready (length status.old) (state_of status.old weight.old previous.old) node.old leaf.old }
    requires listed { Listed (length status.old) ends_a.now ends_b.now weights.now neighbor_numbers.now list_ends.now }
    requires status_nonzero { (0 < length status.old) × Offers (state_of status.old weight.old previous.old) weights.now }
    ensures by_index { (m : List ℕ) → state_of status.new weight.new previous.new ≡ take_chosen (graph_of (length status.old) ends_a.now ends_b.now m) (weighs weights.now) (state_of status.old weight.old previous.old) (to_take (length status.old) (state_of status.old weight.old previous.old)) }
    ensures ready_2 { Ready (length status.old) (state_of status.new weight.new previous.new) node.new leaf.new }
    ensures previous_value { result ≡ false → to_take (length status.old) (state_of status.old weight.old previous.old) ≡ none }
{
    let n = status.len();
    let key = query_queue::least(node, leaf, n);
    if key == query_queue::NONE {
        return false;
    }
    let a = (key % 4096) as u32;
    let v = a as usize;
    let w = weight[v];
    let q = previous[v];
    let from = list_start(list_ends, v);
    let to = list_ends[v] as usize;
    status[v] = 2;
    query_queue::put(node, leaf, n, v, query_queue::NONE);
    relax_list(
        ends_a,
        ends_b,
        weights,
        neighbor_numbers,
        from,
        to,
        status,
        weight,
        previous,
        node,
        leaf,
        VertexIndex(a),
        VertexIndex(q),
        w,
    );
    true
}

// Whether the vertex after which settling stops has been taken; a number that is no vertex stops nothing.
fn is_stopped(status: &[u8], stop: VertexIndex) -> bool
    ensures { result ≡ (ltb stop.0 (length status.now) && eqb (get_or status.now stop.0 0) 2) }
{
    let at = stop.0 as usize;
    if at < status.len() {
        return status[at] == 2;
    }
    false
}

// Settles from the vertices that wait, until nothing waits or the vertex `stop`, which is no source, is taken.
pub fn settle(
    ends_a: &[u32],
    ends_b: &[u32],
    weights: &[Weight],
    neighbor_numbers: &[u32],
    list_ends: &[u32],
    status: &mut [u8],
    weight: &mut [Weight],
    previous: &mut [u32],
    node: &mut [u64],
    leaf: &mut [u64],
    stop: VertexIndex,
)
    requires ready { Ready (length status.old) (state_of status.old weight.old previous.old) node.old leaf.old }
    requires listed { Listed (length status.old) ends_a.now ends_b.now weights.now neighbor_numbers.now list_ends.now }
    requires begun { Begun status.old weight.old previous.old weights.now stop.0 }
    ensures by_index { (m : List ℕ) → state_of status.new weight.new previous.new ≡ settled (graph_of (length status.old) ends_a.now ends_b.now m) (weighs weights.now) (sources status.old) (end_of (length status.old) stop.0) }
    ensures ready_2 { Ready (length status.old) (state_of status.new weight.new previous.new) node.new leaf.new }
{
    let n = status.len();
    for _t in 0..n {
        if is_stopped(status, stop) {
            return;
        }
        if !turn(
            ends_a,
            ends_b,
            weights,
            neighbor_numbers,
            list_ends,
            status,
            weight,
            previous,
            node,
            leaf,
        ) {
            return;
        }
    }
}
