// The defect flip, at a vertex, at the ends of an edge, and for a list of edges.
#![tactic(auto)]

ghost use Rattle.std.specs.Prelude.{◌≡◌, ℕ, ◌<◌, ◌-◌, length, get_or};
ghost use Rattle.columns.specs.Lists.{when};
ghost use Rattle.sampling_flips.specs.Flip.{inner_bit, flipped, flip_at, flip_edge, flip_each};
ghost use Rattle.sampling_flips.specs.Steps.{Fits};

use columns::{EdgeIndex, INNER, VertexIndex};

// 1 for an inner vertex, 0 for a virtual one.
fn inner_bit(boundary: u8) -> u8
    ensures { result ≡ inner_bit boundary }
{
    (boundary == INNER) as u8
}

// 1 minus a byte, 0 where the byte is above 1.
fn one_minus(byte: u8) -> u8
    ensures { result ≡ 1 - byte }
{
    ((256 - byte as u32) / 256) as u8
}

// A vertex's defect byte after a flip, by its boundary byte: every flip is this one. The second product is 0 at an inner vertex, the first at a virtual one.
pub fn flip(boundary: u8, defect: u8) -> u8
    ensures { result ≡ flipped boundary defect }
{
    let inner = inner_bit(boundary);
    inner * one_minus(defect) + (1 - inner) * defect
}

// Flips vertex v.
#[tactic(auto, unfolding(crate::specs::Flip::flip_at))]
fn flip_at(boundary: &[u8], v: VertexIndex, defect: &mut [u8])
    requires { (v.0 < length boundary.now) × (v.0 < length defect.old) }
    ensures { defect.new ≡ flip_at boundary.now v.0 defect.old }
{
    let at = v.0 as usize;
    defect[at] = flip(boundary[at], defect[at]);
}

// An error on edge k: flips its two ends.
#[tactic(auto, unfolding(crate::specs::Flip::flip_edge))]
fn flip_edge(
    vertex_num: u32,
    edge_num: u32,
    ends_a: &[u32],
    ends_b: &[u32],
    boundary: &[u8],
    k: EdgeIndex,
    defect: &mut [u8],
)
    requires { (k.0 < edge_num) × Fits vertex_num edge_num ends_a.now ends_b.now boundary.now defect.old }
    ensures { defect.new ≡ flip_edge ends_a.now ends_b.now boundary.now k.0 defect.old }
{
    let at = k.0 as usize;
    flip_at(boundary, VertexIndex(ends_a[at]), defect);
    flip_at(boundary, VertexIndex(ends_b[at]), defect);
}

// An error on edge k, if there is one.
#[tactic(auto, unfolding(crate::specs::Flip::flip_each))]
pub fn flip_edge_if(
    error: bool,
    vertex_num: u32,
    edge_num: u32,
    ends_a: &[u32],
    ends_b: &[u32],
    boundary: &[u8],
    k: EdgeIndex,
    defect: &mut [u8],
)
    requires { (k.0 < edge_num) × Fits vertex_num edge_num ends_a.now ends_b.now boundary.now defect.old }
    ensures { defect.new ≡ flip_each ends_a.now ends_b.now boundary.now (when error k.0) defect.old }
{
    if error {
        flip_edge(vertex_num, edge_num, ends_a, ends_b, boundary, k, defect);
    }
}

// An error on each listed edge, in list order.
pub fn flip_all(
    vertex_num: u32,
    edge_num: u32,
    ends_a: &[u32],
    ends_b: &[u32],
    boundary: &[u8],
    list: &[u32],
    defect: &mut [u8],
)
    requires fits { Fits vertex_num edge_num ends_a.now ends_b.now boundary.now defect.old }
    requires by_index { (i : ℕ) → i < length list.now → get_or list.now i 0 < edge_num }
    ensures { defect.new ≡ flip_each ends_a.now ends_b.now boundary.now list.now defect.old }
{
    for edge in list {
        flip_edge(
            vertex_num,
            edge_num,
            ends_a,
            ends_b,
            boundary,
            EdgeIndex(*edge),
            defect,
        );
    }
}
