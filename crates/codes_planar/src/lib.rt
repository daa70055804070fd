// Kinds 1, 2 and 3, and the vertices and the edges within a layer of kind 4: rows of d + 1 places.
#![tactic(auto)]

ghost use Rattle.std.specs.Prelude.{◌≡◌, cond, ◌+◌, ◌-◌, ◌*◌, ◌≤◌, ◌<◌, ltb};
ghost use Rattle.codes_writers.specs.Steps.{Room, Wrote};
ghost use Rattle.codes_planar.specs.Planar.{planar_size, row_edges, planar_row, planar_layer, planar_boundary, planar_across, capacity_vertex, layer_vertex};

use codes_writers::{CodeVertex, push, straight_edges};
use columns::{INNER, LEFT, RIGHT, VertexIndex, VisualizePosition};

// The edges along a row that starts at vertex bias, then the left most edge.
pub fn row_edges(ends_a: &mut [u32], ends_b: &mut [u32], at: usize, d: u32, bias: u32) -> usize
    requires room { Room ends_a.old ends_b.old at (row_edges d bias) }
    requires le_d { (1 ≤ d) × ((d ≤ 4095) × (bias ≤ 4096)) }
    ensures { Wrote ends_a.old ends_b.old at (row_edges d bias) ends_a.new ends_b.new result }
{
    let mut next = at;
    for i in 0..d - 1 {
        next = push(
            ends_a,
            ends_b,
            next,
            VertexIndex(bias + i),
            VertexIndex(bias + i + 1),
        );
    }
    push(
        ends_a,
        ends_b,
        next,
        VertexIndex(bias),
        VertexIndex(bias + d),
    )
}

// How many edges lead from a row to the next: none from the last.
fn downward(d: u32, row: u32) -> u32
    requires { (1 ≤ d) × (row < d) }
    ensures { (result ≡ cond (ltb (row + 1) d) (d - 1) 0) × (result ≤ d) }
{
    if row + 1 < d { d - 1 } else { 0 }
}

// A row of a layer that starts at vertex base, and the edges to the next row.
fn planar_row(
    ends_a: &mut [u32],
    ends_b: &mut [u32],
    at: usize,
    d: u32,
    base: u32,
    row: u32,
) -> usize
    requires room { Room ends_a.old ends_b.old at (planar_row d base row) }
    requires le_d { (1 ≤ d) × ((d ≤ 4095) × ((row < d) × (base + row * (d + 1) ≤ 4096))) }
    ensures { Wrote ends_a.old ends_b.old at (planar_row d base row) ends_a.new ends_b.new result }
{
    let bias = base + row * (d + 1);
    let down = downward(d, row);
    let next = row_edges(ends_a, ends_b, at, d, bias);
    straight_edges(ends_a, ends_b, next, down, bias, d + 1)
}

// A layer of kinds 2, 3 and 4.
pub fn planar_layer(ends_a: &mut [u32], ends_b: &mut [u32], at: usize, d: u32, base: u32) -> usize
    requires room { Room ends_a.old ends_b.old at (planar_layer d base) }
    requires le_d { (1 ≤ d) × ((d ≤ 4095) × (base + planar_size d ≤ 4096)) }
    ensures { Wrote ends_a.old ends_b.old at (planar_layer d base) ends_a.new ends_b.new result }
{
    let mut next = at;
    for row in 0..d {
        next = planar_row(ends_a, ends_b, next, d, base, row);
    }
    next
}

// The boundary byte of place j of a row.
fn planar_boundary(d: u32, j: u32) -> u8
    requires { j ≤ 4096 }
    ensures { result ≡ planar_boundary d j }
{
    if j == d {
        return LEFT;
    }
    if j + 1 == d {
        return RIGHT;
    }
    INNER
}

// Where place j of a row is across.
fn planar_across(d: u32, j: u32) -> f64
    ensures { result ≡ planar_across d j }
{
    if j == d {
        return -1.0;
    }
    j as f64
}

// Kinds 1 and 2: place j of a row.
pub fn capacity_vertex(d: u32, row: u32, j: u32) -> CodeVertex
    requires { j ≤ 4096 }
    ensures { result ≡ capacity_vertex d row j }
{
    let boundary = planar_boundary(d, j);
    let across = planar_across(d, j);
    let position = VisualizePosition::new(row as f64, across, 0.0);
    CodeVertex { boundary, position }
}

// Kinds 3 and 4: the same in layer t, shifted across by 1/2.
pub fn layer_vertex(d: u32, row: u32, j: u32, t: u32) -> CodeVertex
    requires { j ≤ 4096 }
    ensures { result ≡ layer_vertex d row j t }
{
    let boundary = planar_boundary(d, j);
    let across = planar_across(d, j);
    let position = VisualizePosition::new(row as f64, across + 0.5, t as f64);
    CodeVertex { boundary, position }
}
