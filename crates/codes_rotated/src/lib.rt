// Kinds 5 and 6: d + 1 rows of (d + 1) / 2 places.
#![tactic(auto)]

ghost use Rattle.std.specs.Prelude.{◌≡◌, cond, ◌+◌, ◌*◌, ◌%◌, ◌≤◌, eqb};
ghost use Rattle.codes_writers.specs.Steps.{Room, Wrote};
ghost use Rattle.codes_rotated.specs.Rotated.{rotated_width, rotated_size, rotated_place, rotated_row, rotated_layer, rotated_boundary, rotated_time, rotated_vertex};

use codes_writers::{CodeVertex, push};
use columns::{INNER, LEFT, RIGHT, VertexIndex, VisualizePosition};

const ROOT2: f64 = 1.4142135623730951;

// The place of the i-th edge's end in an even row, or in an odd one.
fn rotated_place(even: bool, i: u32) -> u32
    requires { i ≤ 4096 }
    ensures { (result ≡ rotated_place even i) × (result ≤ 4096) }
{
    if i % 2 == 0 {
        return i / 2;
    }
    if even {
        return (i - 1) / 2;
    }
    (i + 1) / 2
}

// The d edges below a row of the layer that starts at vertex base.
fn rotated_row(
    ends_a: &mut [u32],
    ends_b: &mut [u32],
    at: usize,
    d: u32,
    base: u32,
    row: u32,
) -> usize
    requires room { Room ends_a.old ends_b.old at (rotated_row d base row) }
    requires le_d { (1 ≤ d) × ((d ≤ 4095) × (base + row * rotated_width d ≤ 4096)) }
    ensures { Wrote ends_a.old ends_b.old at (rotated_row d base row) ends_a.new ends_b.new result }
{
    let w = (d - 1) / 2 + 1;
    let bias = base + row * w;
    let even = row % 2 == 0;
    let odd = row % 2 == 1;
    let mut next = at;
    for i in 0..d {
        let a = bias + rotated_place(even, i);
        let b = bias + w + rotated_place(odd, i);
        next = push(ends_a, ends_b, next, VertexIndex(a), VertexIndex(b));
    }
    next
}

// A layer.
pub fn rotated_layer(ends_a: &mut [u32], ends_b: &mut [u32], at: usize, d: u32, base: u32) -> usize
    requires room { Room ends_a.old ends_b.old at (rotated_layer d base) }
    requires le_d { (1 ≤ d) × ((d ≤ 4095) × (base + rotated_size d ≤ 4096)) }
    ensures { Wrote ends_a.old ends_b.old at (rotated_layer d base) ends_a.new ends_b.new result }
{
    let mut next = at;
    for row in 0..d {
        next = rotated_row(ends_a, ends_b, next, d, base, row);
    }
    next
}

// The boundary byte of place i of a row.
fn rotated_boundary(w: u32, row: u32, i: u32) -> u8
    requires { i ≤ 4096 }
    ensures { result ≡ rotated_boundary w row i }
{
    if row % 2 == 0 {
        if i + 1 == w {
            return RIGHT;
        }
        return INNER;
    }
    if i == 0 {
        return LEFT;
    }
    INNER
}

// How far an even row is shifted across.
fn rotated_shift(row: u32) -> u32
    ensures { (result ≤ 1) × (result ≡ cond (eqb (row % 2) 0) 1 0) }
{
    if row % 2 == 0 {
        return 1;
    }
    0
}

// When layer t of kind 6 is.
pub fn rotated_time(t: u32) -> f64
    ensures { result ≡ rotated_time t }
{
    t as f64 * ROOT2
}

// Place i of a row, at a time.
pub fn rotated_vertex(w: u32, row: u32, i: u32, time: f64) -> CodeVertex
    requires { i ≤ 4096 }
    ensures { result ≡ rotated_vertex w row i time }
{
    let boundary = rotated_boundary(w, row, i);
    let shift = rotated_shift(row);
    let position = VisualizePosition::new(row as f64, (i * 2 + shift) as f64, time);
    CodeVertex { boundary, position }
}
