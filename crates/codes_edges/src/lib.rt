// The edges of a code.
#![tactic(auto)]

ghost use Rattle.std.specs.Prelude.{◌≡◌, ◌+◌, ◌*◌, ◌≤◌};
ghost use Rattle.codes_writers.specs.Steps.{Room, Wrote};
ghost use Rattle.codes_layers.specs.Codes.{layer_size, layer_edges, gap_edges, edges_of};

use codes_circuit::circuit_gap;
use codes_planar::{planar_layer, row_edges};
use codes_rotated::rotated_layer;
use codes_writers::straight_rows;

// The edges of the layer that starts at vertex base.
fn layer_edges(
    ends_a: &mut [u32],
    ends_b: &mut [u32],
    at: usize,
    kind: u32,
    d: u32,
    base: u32,
) -> usize
    requires room { Room ends_a.old ends_b.old at (layer_edges kind d base) }
    requires le_d { (1 ≤ d) × ((d ≤ 4095) × (base + layer_size kind d ≤ 4096)) }
    ensures { Wrote ends_a.old ends_b.old at (layer_edges kind d base) ends_a.new ends_b.new result }
{
    if kind == 1 {
        return row_edges(ends_a, ends_b, at, d, base);
    }
    if kind <= 4 {
        return planar_layer(ends_a, ends_b, at, d, base);
    }
    rotated_layer(ends_a, ends_b, at, d, base)
}

// The edges between that layer and the next.
fn gap_edges(
    ends_a: &mut [u32],
    ends_b: &mut [u32],
    at: usize,
    kind: u32,
    d: u32,
    base: u32,
) -> usize
    requires room { Room ends_a.old ends_b.old at (gap_edges kind d base) }
    requires le_d { (1 ≤ d) × ((d ≤ 4095) × (base + layer_size kind d ≤ 4096)) }
    ensures { Wrote ends_a.old ends_b.old at (gap_edges kind d base) ends_a.new ends_b.new result }
{
    if kind == 3 {
        return straight_rows(ends_a, ends_b, at, d, d - 1, d + 1, base, d * (d + 1));
    }
    if kind == 4 {
        return circuit_gap(ends_a, ends_b, at, d, base);
    }
    if kind == 6 {
        let w = (d - 1) / 2 + 1;
        return straight_rows(ends_a, ends_b, at, d + 1, w, w, base, w * (d + 1));
    }
    at
}

// Vertices of a layer.
fn layer_size(kind: u32, d: u32) -> u32
    requires { (1 ≤ d) × ((d ≤ 4095) × (layer_size kind d ≤ 4096)) }
    ensures { result ≡ layer_size kind d }
{
    codes_layers::vertices::rows_of(kind, d) * codes_layers::vertices::width_of(kind, d)
}

// The edges of a code.
pub fn code_edges(ends_a: &mut [u32], ends_b: &mut [u32], kind: u32, d: u32, rounds: u32) -> usize
    requires room { Room ends_a.old ends_b.old 0 (edges_of kind d rounds) }
    requires le_d { (1 ≤ d) × ((d ≤ 4095) × ((rounds ≤ 4095) × ((rounds + 1) * layer_size kind d ≤ 4096))) }
    ensures { Wrote ends_a.old ends_b.old 0 (edges_of kind d rounds) ends_a.new ends_b.new result }
{
    let size = layer_size(kind, d);
    let mut next: usize = 0;
    for t in 0..rounds {
        let m = layer_edges(ends_a, ends_b, next, kind, d, t * size);
        next = gap_edges(ends_a, ends_b, m, kind, d, t * size);
    }
    layer_edges(ends_a, ends_b, next, kind, d, rounds * size)
}
