// The vertices of a code.
ghost use Rattle.std.specs.Prelude.{◌≡◌, cond, ◌+◌, ◌*◌, ◌≤◌, eqb};
ghost use Rattle.columns.specs.Lists.{each};
ghost use Rattle.columns.specs.Places.{zero_float};
ghost use Rattle.codes_writers.specs.Steps.{VertexRoom, Placed};
ghost use Rattle.codes_rotated.specs.Rotated.{rotated_time};
ghost use Rattle.codes_layers.specs.Codes.{rows, width, layer_size, vertex_of, layer_vertices, vertices_of};

use codes_planar::{capacity_vertex, layer_vertex};
use codes_rotated::{rotated_time, rotated_vertex};
use codes_writers::{CodeVertex, push_vertex};

// Rows of a layer.
pub fn rows_of(kind: u32, d: u32) -> u32
    requires { d ≤ 4095 }
    ensures { result ≡ rows kind d }
{
    if kind == 1 {
        return 1;
    }
    if kind <= 4 {
        return d;
    }
    d + 1
}

// Places of a row.
pub fn width_of(kind: u32, d: u32) -> u32
    requires { (1 ≤ d) × (d ≤ 4095) }
    ensures { (result ≡ width kind d) × (result ≤ 4096) }
{
    if kind <= 4 {
        return d + 1;
    }
    (d - 1) / 2 + 1
}

// When layer t of kind 6 is; kind 5 has one layer, at 0.
fn time_of(kind: u32, t: u32) -> f64
    ensures { result ≡ cond (eqb kind 6) (rotated_time t) zero_float }
{
    if kind == 6 {
        return rotated_time(t);
    }
    0.0
}

// Place i of a row of layer t.
fn vertex_of(kind: u32, d: u32, t: u32, row: u32, i: u32) -> CodeVertex
    requires { (1 ≤ d) × (i ≤ 4096) }
    ensures { result ≡ vertex_of kind d t row i }
{
    if kind <= 2 {
        return capacity_vertex(d, row, i);
    }
    if kind <= 4 {
        return layer_vertex(d, row, i, t);
    }
    let time = time_of(kind, t);
    rotated_vertex((d - 1) / 2 + 1, row, i, time)
}

// A row of layer t.
fn row_vertices(
    boundary: &mut [u8],
    pos_i: &mut [f64],
    pos_j: &mut [f64],
    pos_t: &mut [f64],
    at: usize,
    kind: u32,
    d: u32,
    t: u32,
    row: u32,
) -> usize
    requires vertex_room { VertexRoom boundary.old pos_i.old pos_j.old pos_t.old at (width kind d) }
    requires le_d { (1 ≤ d) × (d ≤ 4095) }
    ensures { Placed boundary.old pos_i.old pos_j.old pos_t.old at (each (width kind d) (λ i. vertex_of kind d t row i)) boundary.new pos_i.new pos_j.new pos_t.new result }
{
    let w = width_of(kind, d);
    let mut next = at;
    for i in 0..w {
        let v = vertex_of(kind, d, t, row, i);
        next = push_vertex(boundary, pos_i, pos_j, pos_t, next, v);
    }
    next
}

// Layer t.
fn layer_vertices(
    boundary: &mut [u8],
    pos_i: &mut [f64],
    pos_j: &mut [f64],
    pos_t: &mut [f64],
    at: usize,
    kind: u32,
    d: u32,
    t: u32,
) -> usize
    requires vertex_room { VertexRoom boundary.old pos_i.old pos_j.old pos_t.old at (layer_size kind d) }
    requires le_d { (1 ≤ d) × (d ≤ 4095) }
    ensures { Placed boundary.old pos_i.old pos_j.old pos_t.old at (layer_vertices kind d t) boundary.new pos_i.new pos_j.new pos_t.new result }
{
    let rows = rows_of(kind, d);
    let mut next = at;
    for row in 0..rows {
        next = row_vertices(boundary, pos_i, pos_j, pos_t, next, kind, d, t, row);
    }
    next
}

// The vertices of a code.
pub fn code_vertices(
    boundary: &mut [u8],
    pos_i: &mut [f64],
    pos_j: &mut [f64],
    pos_t: &mut [f64],
    kind: u32,
    d: u32,
    rounds: u32,
) -> usize
    requires vertex_room { VertexRoom boundary.old pos_i.old pos_j.old pos_t.old 0 ((rounds + 1) * layer_size kind d) }
    requires le_d { (1 ≤ d) × ((d ≤ 4095) × (rounds ≤ 4095)) }
    ensures { Placed boundary.old pos_i.old pos_j.old pos_t.old 0 (vertices_of kind d rounds) boundary.new pos_i.new pos_j.new pos_t.new result }
{
    let mut next: usize = 0;
    for t in 0..rounds + 1 {
        next = layer_vertices(boundary, pos_i, pos_j, pos_t, next, kind, d, t);
    }
    next
}
