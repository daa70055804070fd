// Vertices from edges.
ghost use Rattle.std.specs.Prelude.{◌≡◌, ◌*◌, ◌≤◌, length, replicate};
ghost use Rattle.columns.specs.Refusals.{question_of};
ghost use Rattle.std.proofs.lemmas.List.Edits.{sets};
ghost use Rattle.columns.specs.Lists.{over};
ghost use Rattle.columns.specs.Places.{zero_float};
ghost use Rattle.columns_neighbors.specs.Lists.{lists, degrees};
ghost use Rattle.columns_neighbors.specs.Steps.{InRange};
ghost use Rattle.access_calls.specs.Fill.{vertex_columns_long, fill_refusal, FilledVertices, vertices_in};

use columns::VisualizePosition;
use columns::refusal::{Refusal, require};
use columns_neighbors::lists::fill_lists;
use columns_neighbors::sound::graph_sound;
use columns_room::{edge_columns_long, three_long};
use columns_stores::fill;

// Question 6 of the vertex columns.
#[tactic(auto, unfolding(crate::specs::Fill::vertex_columns_long))]
fn vertex_columns_long(
    vertex_num: u32,
    pos_i: &[f64],
    pos_j: &[f64],
    pos_t: &[f64],
    boundary: &[u8],
    defect: &[u8],
    list_lengths: &[u32],
    neighbor_numbers: &[u32],
) -> bool
    ensures { result ≡ vertex_columns_long vertex_num (vertices_in pos_i.now pos_j.now pos_t.now boundary.now defect.now list_lengths.now neighbor_numbers.now) }
{
    let n = vertex_num as usize;
    let positions = three_long(n, pos_i.len(), pos_j.len(), pos_t.len());
    let others = three_long(n, boundary.len(), defect.len(), list_lengths.len());
    positions && others
}

// Questions 6 and 7 of fill_vertices.
fn fill_questions(
    vertex_num: u32,
    edge_num: u32,
    ends_a: &[u32],
    ends_b: &[u32],
    pos_i: &[f64],
    pos_j: &[f64],
    pos_t: &[f64],
    boundary: &[u8],
    defect: &[u8],
    list_lengths: &[u32],
    neighbor_numbers: &[u32],
) -> Result<(), Refusal>
    ensures { question_of result ≡ fill_refusal vertex_num edge_num ends_a.now ends_b.now (vertices_in pos_i.now pos_j.now pos_t.now boundary.now defect.now list_lengths.now neighbor_numbers.now) }
{
    let vertices = vertex_columns_long(
        vertex_num,
        pos_i,
        pos_j,
        pos_t,
        boundary,
        defect,
        list_lengths,
        neighbor_numbers,
    );
    let edges = edge_columns_long(edge_num, ends_a, ends_b, neighbor_numbers);
    require(vertices && edges, Refusal::ShortColumn)?;
    let sound = graph_sound(vertex_num, edge_num, ends_a, ends_b);
    require(sound, Refusal::UnsoundColumns)
}

// The neighbour lists of n vertices from the ends of e edges.
fn write_lists(
    ends_a: &[u32],
    ends_b: &[u32],
    e: usize,
    list_lengths: &mut [u32],
    neighbor_numbers: &mut [u32],
    n: usize,
)
    requires e_in_bounds { (e ≤ length ends_a.now) × (e ≤ length ends_b.now) × (n ≤ length list_lengths.old) × (2 * e ≤ length neighbor_numbers.old) }
    requires e_bound { (e ≤ 32768) × (n ≤ 4096) × InRange ends_a.now e n × InRange ends_b.now e n }
    ensures { (list_lengths.new ≡ over (degrees ends_a.now ends_b.now e n) list_lengths.old) × (neighbor_numbers.new ≡ over (lists ends_a.now ends_b.now e n) neighbor_numbers.old) }
{
    let mut list_ends = [0u32; 4096];
    fill_lists(
        ends_a,
        ends_b,
        e,
        list_lengths,
        neighbor_numbers,
        &mut list_ends,
        n,
    );
}

// Builds a position for each of n vertices: 0, 0, 0.
#[tactic(auto, using(columns::proofs::Columns::fill_more))]
fn fill_positions(pos_i: &mut [f64], pos_j: &mut [f64], pos_t: &mut [f64], n: usize)
    ensures pos_i_after { pos_i.new ≡ sets pos_i.old 0 (replicate n zero_float) }
    ensures pos_j_after { pos_j.new ≡ sets pos_j.old 0 (replicate n zero_float) }
    ensures pos_t_after { pos_t.new ≡ sets pos_t.old 0 (replicate n zero_float) }
{
    for v in 0..n {
        let position = VisualizePosition::new(0.0, 0.0, 0.0);
        position.store(pos_i, pos_j, pos_t, v);
    }
}

// New vertices for the edges: at position 0, inner, without defect, with their neighbour lists.
pub fn fill_vertices(
    vertex_num: u32,
    edge_num: u32,
    ends_a: &[u32],
    ends_b: &[u32],
    pos_i: &mut [f64],
    pos_j: &mut [f64],
    pos_t: &mut [f64],
    boundary: &mut [u8],
    defect: &mut [u8],
    list_lengths: &mut [u32],
    neighbor_numbers: &mut [u32],
) -> Result<(), Refusal>
    ensures { FilledVertices vertex_num edge_num ends_a.now ends_b.now
        (vertices_in pos_i.old pos_j.old pos_t.old boundary.old defect.old list_lengths.old neighbor_numbers.old)
        (vertices_in pos_i.new pos_j.new pos_t.new boundary.new defect.new list_lengths.new neighbor_numbers.new)
        result }
{
    fill_questions(
        vertex_num,
        edge_num,
        ends_a,
        ends_b,
        pos_i,
        pos_j,
        pos_t,
        boundary,
        defect,
        list_lengths,
        neighbor_numbers,
    )?;
    let n = vertex_num as usize;
    fill_positions(pos_i, pos_j, pos_t, n);
    fill(boundary, n, 0);
    fill(defect, n, 0);
    write_lists(
        ends_a,
        ends_b,
        edge_num as usize,
        list_lengths,
        neighbor_numbers,
        n,
    );
    Ok(())
}
