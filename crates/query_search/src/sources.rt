// The vertices that a search begins from: one vertex, or every left vertex. They wait with weight 0 and themselves as previous.
ghost use Rattle.std.specs.Prelude.{◌≡◌, cond, ◌<◌, ◌≤◌, length, get_or, set, replicate, eqb};
ghost use Rattle.query_queue.specs.Tree.{Tree, TreeRoom};
ghost use Rattle.engine_walks.specs.Lists.{delta};
ghost use Rattle.columns.specs.Lists.{each};
ghost use Rattle.query_relaxing.specs.Ready.{state_of, Ready, Keyed};
ghost use Rattle.query_search.specs.Search.{first_status, stop_in};

use super::Origin;
use columns::{VertexIndex, Weight};

// Every vertex is absent but a, which waits.
fn begin_at(status: &mut [u8], a: VertexIndex)
    ensures { status.new ≡ set (replicate (length status.old) 0) a.0 1 }
{
    status.fill(0);
    let at = a.0 as usize;
    if at < status.len() {
        status[at] = 1;
    }
}

// 1 where the boundary byte is left, else 0.
fn left_mark(boundary: u8) -> u8
    ensures { result ≡ delta boundary 1 }
{
    if boundary == 1 { 1 } else { 0 }
}

// Every left vertex waits, every other is absent.
fn begin_left(status: &mut [u8], boundary: &[u8])
    requires { length status.old ≡ length boundary.now }
    ensures { status.new ≡ each (length status.old) (λ v. delta (get_or boundary.now v 0) 1) }
{
    for v in 0..status.len() {
        status[v] = left_mark(boundary[v]);
    }
}

// The status bytes before the first turn.
pub fn begin_status(origin: Origin, status: &mut [u8], boundary: &[u8])
    requires { length status.old ≡ length boundary.now }
    ensures { status.new ≡ first_status origin boundary.now (length status.old) }
{
    match origin {
        Origin::At(a, _) => begin_at(status, a),
        Origin::Left => begin_left(status, boundary),
    }
}

// The number after which the search stops: that of no vertex where it begins at the left.
pub fn stop_in(origin: Origin, vertices: u32) -> VertexIndex
    ensures { result.0 ≡ stop_in origin vertices }
{
    match origin {
        Origin::At(_, stop) => stop,
        Origin::Left => VertexIndex(vertices),
    }
}

// Every vertex is its own previous.
fn own_previous(previous: &mut [u32])
    requires { length previous.old ≤ 4096 }
    ensures { previous.new ≡ each (length previous.old) (λ v. v) }
{
    for v in 0..previous.len() {
        previous[v] = v as u32;
    }
}

// The key of vertex v, where it waits with weight 0.
fn put_source(status: &[u8], node: &mut [u64], leaf: &mut [u64], v: usize)
    requires { (length status.now ≤ 4096) × (v < length status.now) × TreeRoom node.old leaf.old (length status.now) × Tree node.old leaf.old (length status.now) }
    ensures leaf_after { leaf.new ≡ cond (eqb (get_or status.now v 0) 1) (set leaf.old v v) leaf.old }
    ensures tree { Tree node.new leaf.new (length status.now) }
    ensures node_len_unchanged { length node.new ≡ length node.old }
{
    if status[v] == 1 {
        query_queue::put(node, leaf, status.len(), v, v as u64);
    }
}

// The keys of the vertices that wait with weight 0.
fn put_sources(status: &[u8], node: &mut [u64], leaf: &mut [u64])
    requires { (length status.now ≤ 4096) × (length status.now ≤ length node.old) × (length leaf.old ≡ length status.now) }
    ensures keyed { Keyed status.now (length status.now) leaf.new }
    ensures tree { Tree node.new leaf.new (length status.now) }
{
    query_queue::clear(node, leaf, status.len());
    for v in 0..status.len() {
        put_source(status, node, leaf, v);
    }
}

// The state before the first turn, from the status bytes.
pub fn begin(
    status: &[u8],
    weight: &mut [Weight],
    previous: &mut [u32],
    node: &mut [u64],
    leaf: &mut [u64],
)
    requires { (length status.now ≤ 4096) × (length weight.old ≡ length status.now) × (length previous.old ≡ length status.now) × (length status.now ≤ length node.old) × (length leaf.old ≡ length status.now) }
    ensures ready { Ready (length status.now) (state_of status.now weight.new previous.new) node.new leaf.new }
    ensures weight_after { weight.new ≡ each (length status.now) (λ v. 0) }
    ensures previous_after { previous.new ≡ each (length status.now) (λ v. v) }
{
    weight.fill(0);
    own_previous(previous);
    put_sources(status, node, leaf);
}
