// The text that `codelist` prints, in a text column that has room for it.
ghost use Rattle.std.specs.Prelude.{[], ◌∷◌, ◌≤◌, ◌<◌, length};
ghost use Rattle.text_numbers.specs.Text.{ended, refusal_line, graph_line, vertex_line, edge_line, vertex_lines, edge_lines, listing};
ghost use Rattle.text_numbers.specs.Steps.{Put};

use super::{put_byte, put_field};
use columns::{EdgeIndex, VertexIndex, Weight};

// A line of one number.
fn put_one(text: &mut [u8], at: usize, letter: u8, n: u32) -> usize
    requires { at ≤ 10000000 }
    ensures { Put text.old at (letter ∷ ended (n ∷ [])) text.new result }
{
    let a = put_byte(text, at, letter);
    let b = put_field(text, a, n);
    put_byte(text, b, b'\n')
}

// The line of a vertex.
fn put_vertex(text: &mut [u8], at: usize, boundary: &[u8], v: VertexIndex) -> usize
    requires { (at ≤ 10000000) × (v.0 < length boundary.now) }
    ensures { Put text.old at (vertex_line boundary.now v.0) text.new result }
{
    let a = put_byte(text, at, b'v');
    let b = put_field(text, a, v.0);
    let c = put_field(text, b, boundary[v.0 as usize] as u32);
    put_byte(text, c, b'\n')
}

// The line of an edge.
fn put_edge(
    text: &mut [u8],
    at: usize,
    ends_a: &[u32],
    ends_b: &[u32],
    weights: &[Weight],
    e: EdgeIndex,
) -> usize
    requires { (at ≤ 10000000) × (e.0 < length ends_a.now) × (e.0 < length ends_b.now) × (e.0 < length weights.now) }
    ensures { Put text.old at (edge_line ends_a.now ends_b.now weights.now e.0) text.new result }
{
    let k = e.0 as usize;
    let a = put_byte(text, at, b'e');
    let b = put_field(text, a, e.0);
    let c = put_field(text, b, ends_a[k]);
    let d = put_field(text, c, ends_b[k]);
    let f = put_field(text, d, weights[k]);
    put_byte(text, f, b'\n')
}

// The lines of the first n vertices.
fn put_vertices(text: &mut [u8], at: usize, boundary: &[u8], n: u32) -> usize
    requires { (at ≤ 1000000) × (n ≤ 4096) × (n ≤ length boundary.now) }
    ensures { Put text.old at (vertex_lines n boundary.now) text.new result }
{
    let mut next = at;
    for v in 0..n {
        next = put_vertex(text, next, boundary, VertexIndex(v));
    }
    next
}

// The lines of the first n edges.
fn put_edges(
    text: &mut [u8],
    at: usize,
    ends_a: &[u32],
    ends_b: &[u32],
    weights: &[Weight],
    n: u32,
) -> usize
    requires { (at ≤ 1000000) × (n ≤ 32768) × (n ≤ length ends_a.now) × (n ≤ length ends_b.now) × (n ≤ length weights.now) }
    ensures { Put text.old at (edge_lines n ends_a.now ends_b.now weights.now) text.new result }
{
    let mut next = at;
    for e in 0..n {
        next = put_edge(text, next, ends_a, ends_b, weights, EdgeIndex(e));
    }
    next
}

// The line of the graph.
fn put_graph(text: &mut [u8], kind: u32, d: u32, rounds: u32, vertices: u32, edges: u32) -> usize
    ensures { Put text.old 0 (graph_line kind d rounds vertices edges) text.new result }
{
    let a = put_byte(text, 0, b'g');
    let b = put_field(text, a, kind);
    let c = put_field(text, b, d);
    let e = put_field(text, c, rounds);
    let f = put_field(text, e, vertices);
    let g = put_field(text, f, edges);
    put_byte(text, g, b'\n')
}

// Writes a refusal; answers how many bytes it has.
pub fn write_refusal(text: &mut [u8], number: u32) -> usize
    requires { length (refusal_line number) ≤ length text.old }
    ensures { Put text.old 0 (refusal_line number) text.new result }
{
    put_one(text, 0, b'r', number)
}

// The numbers of a graph line.
#[derive(Clone, Copy)]
pub struct GraphLine {
    pub kind: u32,
    pub d: u32,
    pub rounds: u32,
    pub vertices: u32,
    pub edges: u32,
}

// Writes the listing of a code; answers how many bytes it has.
pub fn write_listing(
    text: &mut [u8],
    g: GraphLine,
    boundary: &[u8],
    ends_a: &[u32],
    ends_b: &[u32],
    weights: &[Weight],
    crossing: Weight,
) -> usize
    requires vertices_bound { (g.vertices ≤ 4096) × (g.vertices ≤ length boundary.now) }
    requires edges_bound { (g.edges ≤ 32768) × (g.edges ≤ length ends_a.now) × (g.edges ≤ length ends_b.now) × (g.edges ≤ length weights.now) }
    requires crossing_in_bounds { length (listing g.kind g.d g.rounds g.vertices g.edges boundary.now ends_a.now ends_b.now weights.now crossing) ≤ length text.old }
    ensures { Put text.old 0 (listing g.kind g.d g.rounds g.vertices g.edges boundary.now ends_a.now ends_b.now weights.now crossing) text.new result }
{
    let a = put_graph(text, g.kind, g.d, g.rounds, g.vertices, g.edges);
    let b = put_vertices(text, a, boundary, g.vertices);
    let c = put_edges(text, b, ends_a, ends_b, weights, g.edges);
    put_one(text, c, b'c', crossing)
}
