// One edge of a taken vertex, over columns: its other end is offered the weight by way of it, and the tie rule decides.
#![tactic(auto)]

ghost use Rattle.std.specs.Prelude.{◌≡◌, ◌⊎◌, cond, List, ℕ, ◌+◌, ◌<◌, length, get_or, eqb};
ghost use Rattle.columns.specs.Limits.{sum_limit};
ghost use Rattle.engine_walks.specs.Settling.{changes, apart, waits, offer, relax_edge};
ghost use Rattle.query_relaxing.specs.Ready.{graph_of, weighs, state_of, takes_up, Ready};

use columns::{EdgeIndex, VertexIndex, Weight};

// The amount by which two vertex numbers differ.
fn difference(x: VertexIndex, y: VertexIndex) -> u32
    ensures { result ≡ apart x.0 y.0 }
{
    if x.0 < y.0 { y.0 - x.0 } else { x.0 - y.0 }
}

// The tie rule: whether u, waiting with weight w and previous p, changes for weight k from a taken vertex with previous q.
fn tie_rule(u: VertexIndex, k: Weight, q: VertexIndex, w: Weight, p: VertexIndex) -> bool
    ensures { result ≡ changes u.0 k q.0 w p.0 }
{
    if k < w {
        return true;
    }
    if w < k {
        return false;
    }
    let new = difference(u, q);
    let old = difference(u, p);
    if new < old {
        return true;
    }
    if old < new {
        return false;
    }
    q.0 < p.0
}

// Whether an offer is taken up: by an absent vertex, by a waiting one that changes, by no taken one.
fn is_accepted(status: u8, change: bool) -> bool
    ensures { result ≡ takes_up status change }
{
    if status == 0 {
        return true;
    }
    if status == 1 {
        return change;
    }
    false
}

// From now on u waits with weight k and previous a.
fn wait(
    status: &mut [u8],
    weight: &mut [Weight],
    previous: &mut [u32],
    node: &mut [u64],
    leaf: &mut [u64],
    a: VertexIndex,
    u: VertexIndex,
    k: Weight,
)
    requires ready { Ready (length status.old) (state_of status.old weight.old previous.old) node.old leaf.old }
    requires u_in_bounds { (u.0 < length status.old) × (k < sum_limit) }
    ensures previous_after { state_of status.new weight.new previous.new ≡ waits u.0 k a.0 (state_of status.old weight.old previous.old) }
    ensures ready_2 { Ready (length status.old) (state_of status.new weight.new previous.new) node.new leaf.new }
{
    let at = u.0 as usize;
    let n = status.len();
    status[at] = 1;
    weight[at] = k;
    previous[at] = a.0;
    query_queue::put(node, leaf, n, at, (k as u64) * 4096 + (u.0 as u64));
}

// What becomes of neighbour u of the taken vertex a, which has previous q; k is the weight by way of a.
fn offer_to(
    status: &mut [u8],
    weight: &mut [Weight],
    previous: &mut [u32],
    node: &mut [u64],
    leaf: &mut [u64],
    a: VertexIndex,
    q: VertexIndex,
    u: VertexIndex,
    k: Weight,
)
    requires ready { Ready (length status.old) (state_of status.old weight.old previous.old) node.old leaf.old }
    requires u_in_bounds { (u.0 < length status.old) × (k < sum_limit) }
    ensures previous_after { state_of status.new weight.new previous.new ≡ offer a.0 q.0 u.0 k (state_of status.old weight.old previous.old) }
    ensures ready_2 { Ready (length status.old) (state_of status.new weight.new previous.new) node.new leaf.new }
{
    let at = u.0 as usize;
    let change = tie_rule(u, k, q, weight[at], VertexIndex(previous[at]));
    if is_accepted(status[at], change) {
        wait(status, weight, previous, node, leaf, a, u, k);
    }
}

// The other end of an edge between x and y.
fn other_end(x: u32, y: u32, a: VertexIndex) -> VertexIndex
    ensures { result.0 ≡ cond (eqb x a.0) y x }
{
    if x == a.0 {
        VertexIndex(y)
    } else {
        VertexIndex(x)
    }
}

// Edge e of vertex a, which is taken with weight w and previous q: its other end is offered the weight by way of a.
pub fn relax_edge(
    ends_a: &[u32],
    ends_b: &[u32],
    weights: &[Weight],
    status: &mut [u8],
    weight: &mut [Weight],
    previous: &mut [u32],
    node: &mut [u64],
    leaf: &mut [u64],
    a: VertexIndex,
    q: VertexIndex,
    w: Weight,
    e: EdgeIndex,
)
    requires ready { Ready (length status.old) (state_of status.old weight.old previous.old) node.old leaf.old }
    requires e_in_bounds { (e.0 < length ends_a.now) × (e.0 < length ends_b.now) × (e.0 < length weights.now) × (w + get_or weights.now e.0 0 < sum_limit) }
    requires e_in_bounds_2 { (get_or ends_a.now e.0 0 < length status.old) × (get_or ends_b.now e.0 0 < length status.old) }
    requires fact { (get_or ends_a.now e.0 0 ≡ a.0) ⊎ (get_or ends_b.now e.0 0 ≡ a.0) }
    ensures by_index { (n : ℕ) (m : List ℕ) → state_of status.new weight.new previous.new ≡ relax_edge (graph_of n ends_a.now ends_b.now m) (weighs weights.now) a.0 q.0 w e.0 (state_of status.old weight.old previous.old) }
    ensures ready_2 { Ready (length status.old) (state_of status.new weight.new previous.new) node.new leaf.new }
{
    let at = e.0 as usize;
    let u = other_end(ends_a[at], ends_b[at], a);
    offer_to(
        status,
        weight,
        previous,
        node,
        leaf,
        a,
        q,
        u,
        w + weights[at],
    );
}
