// The p and the half weight of each edge. A code has two different p at most, so each logarithm is computed once.
ghost use Rattle.std.specs.Prelude.{◌≡◌, cond, ◌<◌, length, set};
ghost use Rattle.codes_weights.specs.Steps.{diagonal_p, weighed_of, diagonal_at, WeighRoom, EdgesWeighed};

use super::Weighed;
use columns::{VisualizePosition, Weight};
use weights_diagonal::is_diagonal;
use weights_recipe::logarithm::edge_weight;
use weights_recipe::rounding::half_weight;

// The p of a diagonal edge.
pub fn diagonal_p(p: f64, diagonal: Option<f64>) -> f64
    ensures { result ≡ diagonal_p p diagonal }
{
    diagonal.unwrap_or(p)
}

// What an edge with this p gets.
pub fn weighed(p: f64, max_half_weight: Weight, largest: f64) -> Weighed
    ensures { result ≡ weighed_of p max_half_weight largest }
{
    Weighed {
        p,
        half: half_weight(max_half_weight, edge_weight(p), largest),
    }
}

fn picked(test: bool, x: Weighed, y: Weighed) -> Weighed
    ensures { result ≡ cond test x y }
{
    if test { x } else { y }
}

// Whether an edge is diagonal.
#[tactic(auto, unfolding(crate::specs::Steps::diagonal_at))]
fn diagonal_at(
    ends_a: &[u32],
    ends_b: &[u32],
    pos_i: &[f64],
    pos_j: &[f64],
    pos_t: &[f64],
    at: usize,
) -> bool
    requires { (at < length ends_a.now) × (at < length ends_b.now) }
    ensures { result ≡ diagonal_at ends_a.now ends_b.now pos_i.now pos_j.now pos_t.now at }
{
    let a = VisualizePosition::load(pos_i, pos_j, pos_t, ends_a[at] as usize);
    let b = VisualizePosition::load(pos_i, pos_j, pos_t, ends_b[at] as usize);
    is_diagonal(a, b)
}

// Stores what an edge gets.
fn store_weighed(w: Weighed, at: usize, p: &mut [f64], half_weight: &mut [Weight])
    requires { (at < length p.old) × (at < length half_weight.old) }
    ensures { (p.new ≡ set p.old at w.p) × (half_weight.new ≡ set half_weight.old at w.half) }
{
    p[at] = w.p;
    half_weight[at] = w.half;
}

// Stores what each of the first n edges gets.
pub fn weigh_edges(
    n: usize,
    ends_a: &[u32],
    ends_b: &[u32],
    pos_i: &[f64],
    pos_j: &[f64],
    pos_t: &[f64],
    straight: Weighed,
    other: Weighed,
    p: &mut [f64],
    half_weight: &mut [Weight],
)
    requires { WeighRoom n ends_a.now ends_b.now p.old half_weight.old }
    ensures { EdgesWeighed n (diagonal_at ends_a.now ends_b.now pos_i.now pos_j.now pos_t.now) straight other p.old half_weight.old p.new half_weight.new }
{
    for i in 0..n {
        let diagonal = diagonal_at(ends_a, ends_b, pos_i, pos_j, pos_t, i);
        store_weighed(picked(diagonal, other, straight), i, p, half_weight);
    }
}
