// What all queries of the engine graph share: the search, and the columns of a table.
#![tactic(auto)]

pub mod sources;

ghost use Rattle.std.specs.Prelude.{◌≡◌, true, cond, List, ℕ, ◌<◌, ◌≤◌, length, get_or, eqb, pos, negsuc};
ghost use Rattle.std.proofs.lemmas.List.Edits.{sets};
ghost use Rattle.columns.specs.Limits.{sum_limit};
ghost use Rattle.columns.specs.Lists.{each};
ghost use Rattle.engine_walks.specs.Answers.{table_weight, table_previous};
ghost use Rattle.query_relaxing.specs.Ready.{graph_of, weighs, state_of};
ghost use Rattle.engine_columns.specs.Records.{engine_without_log};
ghost use Rattle.engine_columns.specs.Questions.{columns_long, columns_sound};
ghost use Rattle.query_questions.specs.Scratch.{scratch_in, scratch_fits};
ghost use Rattle.query_search.specs.Search.{Searchable, Searched, Starts, state_from, SearchDone};

use columns::{TableWeight, VertexIndex, Weight};
use engine_columns::EngineCounts;

// Where a search begins, and after which vertex it stops: at a vertex, with the number after which it stops, one that no vertex has for none; or at every
// left vertex, with none.
// No Option: None would have to mean every left vertex, which is not an absence.
#[derive(Clone, Copy)]
pub enum Origin {
    At(VertexIndex, VertexIndex),
    Left,
}

// The search over columns that hold vertices and edges alone: the first status bytes, the neighbour lists, and the turns of settling.
fn search_cut(
    ends_a: &[u32],
    ends_b: &[u32],
    weights: &[Weight],
    boundary: &[u8],
    origin: Origin,
    vertices: u32,
    neighbor_numbers: &mut [u32],
    list_ends: &mut [u32],
    status: &mut [u8],
    weight: &mut [Weight],
    previous: &mut [u32],
    node: &mut [u64],
    leaf: &mut [u64],
)
    requires searchable { Searchable (length status.old) ends_a.now ends_b.now weights.now neighbor_numbers.old list_ends.old weight.old previous.old node.old leaf.old }
    requires boundary_len { (length boundary.now ≡ length status.old) × (vertices ≡ length status.old) × Starts origin (length status.old) }
    ensures { Searched (graph_of (length status.old) ends_a.now ends_b.now boundary.now)
        (state_from origin (graph_of (length status.old) ends_a.now ends_b.now boundary.now) (weighs weights.now))
        neighbor_numbers.old neighbor_numbers.new list_ends.new status.new weight.new previous.new node.new leaf.new }
{
    sources::begin_status(origin, status, boundary);
    columns_neighbors::lists::fill_lists(
        ends_a,
        ends_b,
        ends_a.len(),
        previous,
        neighbor_numbers,
        list_ends,
        status.len(),
    );
    sources::begin(status, weight, previous, node, leaf);
    query_settling::settle(
        ends_a,
        ends_b,
        weights,
        neighbor_numbers,
        list_ends,
        status,
        weight,
        previous,
        node,
        leaf,
        sources::stop_in(origin, vertices),
    );
}

// The search of an engine graph: scratch then holds the neighbour lists and the settled state, in its first places.
#[tactic(auto, using(crate::proofs::Asked::columns_fit, crate::proofs::Asked::scratch_fit, crate::proofs::Asked::cut_is))]
pub fn search(
    c: EngineCounts,
    ends_a: &[u32],
    ends_b: &[u32],
    weights: &[Weight],
    boundary: &[u8],
    origin: Origin,
    neighbor_numbers: &mut [u32],
    list_ends: &mut [u32],
    status: &mut [u8],
    weight: &mut [Weight],
    previous: &mut [u32],
    node: &mut [u64],
    leaf: &mut [u64],
)
    requires boundary_value { (columns_long c.vertices c.edges ends_a.now ends_b.now weights.now boundary.now ≡ true) × (columns_sound c.vertices c.edges ends_a.now ends_b.now weights.now boundary.now ≡ true) }
    requires leaf_value { (scratch_fits c (scratch_in neighbor_numbers.old list_ends.old status.old weight.old previous.old node.old leaf.old) ≡ true) × Starts origin c.vertices }
    ensures { SearchDone (engine_without_log c ends_a.now ends_b.now weights.now boundary.now) origin
        (scratch_in neighbor_numbers.old list_ends.old status.old weight.old previous.old node.old leaf.old)
        (scratch_in neighbor_numbers.new list_ends.new status.new weight.new previous.new node.new leaf.new) }
{
    let v = c.vertices as usize;
    let e = c.edges as usize;
    search_cut(
        &ends_a[..e],
        &ends_b[..e],
        &weights[..e],
        &boundary[..v],
        origin,
        c.vertices,
        neighbor_numbers,
        &mut list_ends[..v],
        &mut status[..v],
        &mut weight[..v],
        &mut previous[..v],
        &mut node[..v],
        &mut leaf[..v],
    );
}

// The weight in the row of a vertex: -1 where it was not taken.
fn row_weight(status: u8, weight: Weight) -> TableWeight
    requires { weight < sum_limit }
    ensures { result ≡ cond (eqb status 2) (pos weight) (negsuc 0) }
{
    if status == 2 {
        weight as TableWeight
    } else {
        -1
    }
}

// The weights of the table, from the column's start.
pub fn write_weights(status: &[u8], weight: &[Weight], out: &mut [TableWeight])
    requires { (length weight.now ≡ length status.now) × (length status.now ≤ length out.old) × ((v : ℕ) → v < length status.now → get_or weight.now v 0 < sum_limit) }
    ensures { (p : List ℕ) → out.new ≡ sets out.old 0 (each (length status.now) (table_weight (state_of status.now weight.now p))) }
{
    for v in 0..status.len() {
        out[v] = row_weight(status[v], weight[v]);
    }
}

// The previous vertex in the row of a vertex: 0 where it was not taken.
fn row_previous(status: u8, previous: u32) -> u32
    ensures { result ≡ cond (eqb status 2) previous 0 }
{
    if status == 2 { previous } else { 0 }
}

// The previous vertices of the table, from the column's start.
pub fn write_previous(status: &[u8], previous: &[u32], out: &mut [u32])
    requires { (length previous.now ≡ length status.now) × (length status.now ≤ length out.old) }
    ensures { (w : List ℕ) → out.new ≡ sets out.old 0 (each (length status.now) (table_previous (state_of status.now w previous.now))) }
{
    for v in 0..status.len() {
        out[v] = row_previous(status[v], previous[v]);
    }
}
