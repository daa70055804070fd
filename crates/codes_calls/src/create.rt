// `create_code`: builds a code into lent columns.
ghost use Rattle.std.specs.Prelude.{◌≡◌, length};
ghost use Rattle.columns.specs.Refusals.{question_of};
ghost use Rattle.codes_layers.specs.Counts.{vertex_num, edge_num};
ghost use Rattle.codes_layers.specs.Accepts.{Buildable};
ghost use Rattle.codes_calls.specs.Columns.{shortest, code_in};
ghost use Rattle.codes_calls.specs.CreateCode.{create_refusal, CreateCode};
ghost use Rattle.codes_calls.specs.Steps.{EdgeColumnsLong, EdgeColumnsFilled, VertexColumnsLong, VertexColumnsFilled};

use super::CodeCounts;
use codes_questions::code_questions;
use columns::Weight;
use columns::refusal::{Refusal, require};
use columns_room::long_enough;
use columns_stores::fill;

// The least of six lengths.
pub fn shortest_of(a: usize, b: usize, c: usize, d: usize, e: usize, f: usize) -> usize
    ensures { result ≡ shortest a b c d e f }
{
    a.min(b.min(c.min(d.min(e.min(f)))))
}

// Questions 2 to 6.
pub fn create_questions(
    kind: u32,
    d: u32,
    rounds: u32,
    vertex_room: usize,
    edge_room: usize,
    numbers: usize,
) -> Result<(), Refusal>
    ensures { question_of result ≡ create_refusal kind d rounds vertex_room edge_room numbers }
{
    code_questions(kind, d, rounds)?;
    let vertices = codes_layers::counts::vertex_num(kind, d, rounds);
    let edges = codes_layers::counts::edge_num(kind, d, rounds);
    let long = long_enough(vertices, edges, vertex_room, edge_room, numbers);
    require(long, Refusal::ShortColumn)
}

// The edge columns.
fn fill_edges(
    kind: u32,
    d: u32,
    rounds: u32,
    ends_a: &mut [u32],
    ends_b: &mut [u32],
    p: &mut [f64],
    pe: &mut [f64],
    half_weight: &mut [Weight],
    erasure: &mut [u8],
) -> usize
    requires buildable { Buildable kind d rounds }
    requires edge_columns_long { EdgeColumnsLong (edge_num kind d rounds) ends_a.old ends_b.old p.old pe.old half_weight.old erasure.old }
    ensures { EdgeColumnsFilled kind d rounds ends_a.old ends_b.old p.old pe.old half_weight.old erasure.old ends_a.new ends_b.new p.new pe.new half_weight.new erasure.new result }
{
    let n = codes_edges::code_edges(ends_a, ends_b, kind, d, rounds);
    fill(p, n, 0.0);
    fill(pe, n, 0.0);
    fill(half_weight, n, 0);
    fill(erasure, n, 0);
    n
}

// The vertex columns but the list lengths.
fn fill_vertices(
    kind: u32,
    d: u32,
    rounds: u32,
    pos_i: &mut [f64],
    pos_j: &mut [f64],
    pos_t: &mut [f64],
    boundary: &mut [u8],
    defect: &mut [u8],
) -> usize
    requires buildable { Buildable kind d rounds }
    requires vertex_columns_long { VertexColumnsLong (vertex_num kind d rounds) pos_i.old pos_j.old pos_t.old boundary.old defect.old }
    ensures { VertexColumnsFilled kind d rounds pos_i.old pos_j.old pos_t.old boundary.old defect.old pos_i.new pos_j.new pos_t.new boundary.new defect.new result }
{
    let n = codes_layers::vertices::code_vertices(boundary, pos_i, pos_j, pos_t, kind, d, rounds);
    fill(defect, n, 0);
    n
}

// The same with a column for the places where neighbour lists end.
fn create_in(
    kind: u32,
    d: u32,
    rounds: u32,
    ends_a: &mut [u32],
    ends_b: &mut [u32],
    p: &mut [f64],
    pe: &mut [f64],
    half_weight: &mut [Weight],
    erasure: &mut [u8],
    pos_i: &mut [f64],
    pos_j: &mut [f64],
    pos_t: &mut [f64],
    boundary: &mut [u8],
    defect: &mut [u8],
    list_lengths: &mut [u32],
    neighbor_numbers: &mut [u32],
    list_ends: &mut [u32],
) -> Result<CodeCounts, Refusal>
    requires { length list_ends.old ≡ 4096 }
    ensures { CreateCode kind d rounds
        (code_in ends_a.old ends_b.old p.old pe.old half_weight.old erasure.old pos_i.old pos_j.old pos_t.old boundary.old defect.old list_lengths.old neighbor_numbers.old)
        (code_in ends_a.new ends_b.new p.new pe.new half_weight.new erasure.new pos_i.new pos_j.new pos_t.new boundary.new defect.new list_lengths.new neighbor_numbers.new)
        result }
{
    let edge_room = shortest_of(
        ends_a.len(),
        ends_b.len(),
        p.len(),
        pe.len(),
        half_weight.len(),
        erasure.len(),
    );
    let vertex_room = shortest_of(
        pos_i.len(),
        pos_j.len(),
        pos_t.len(),
        boundary.len(),
        defect.len(),
        list_lengths.len(),
    );
    create_questions(
        kind,
        d,
        rounds,
        vertex_room,
        edge_room,
        neighbor_numbers.len(),
    )?;
    let e = fill_edges(kind, d, rounds, ends_a, ends_b, p, pe, half_weight, erasure);
    let v = fill_vertices(kind, d, rounds, pos_i, pos_j, pos_t, boundary, defect);
    columns_neighbors::lists::fill_lists(
        ends_a,
        ends_b,
        e,
        list_lengths,
        neighbor_numbers,
        list_ends,
        v,
    );
    Ok(CodeCounts {
        vertices: v as u32,
        edges: e as u32,
    })
}

// Builds a code: questions 2 to 6, then every column's first places.
pub fn create_code(
    kind: u32,
    d: u32,
    rounds: u32,
    ends_a: &mut [u32],
    ends_b: &mut [u32],
    p: &mut [f64],
    pe: &mut [f64],
    half_weight: &mut [Weight],
    erasure: &mut [u8],
    pos_i: &mut [f64],
    pos_j: &mut [f64],
    pos_t: &mut [f64],
    boundary: &mut [u8],
    defect: &mut [u8],
    list_lengths: &mut [u32],
    neighbor_numbers: &mut [u32],
) -> Result<CodeCounts, Refusal>
    ensures { CreateCode kind d rounds
        (code_in ends_a.old ends_b.old p.old pe.old half_weight.old erasure.old pos_i.old pos_j.old pos_t.old boundary.old defect.old list_lengths.old neighbor_numbers.old)
        (code_in ends_a.new ends_b.new p.new pe.new half_weight.new erasure.new pos_i.new pos_j.new pos_t.new boundary.new defect.new list_lengths.new neighbor_numbers.new)
        result }
{
    let mut list_ends = [0u32; 4096];
    create_in(
        kind,
        d,
        rounds,
        ends_a,
        ends_b,
        p,
        pe,
        half_weight,
        erasure,
        pos_i,
        pos_j,
        pos_t,
        boundary,
        defect,
        list_lengths,
        neighbor_numbers,
        &mut list_ends,
    )
}
