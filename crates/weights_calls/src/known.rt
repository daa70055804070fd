// A table of the probabilities that a pass met, with what was computed for them. Most graphs have few different probabilities,
// and then few logarithms and half weights are computed. The bits of a probability choose two neighbouring places, which hold
// the last two probabilities that were computed for them: of two different probabilities none is computed twice.
ghost use Rattle.std.specs.Prelude.{◌≡◌, ◌+◌, ◌<◌, length, get_or, Float};
ghost use Rattle.std.specs.Float.{nan};
ghost use Rattle.weights_recipe.specs.Logarithm.{edge_weight};
ghost use Rattle.weights_calls.specs.Steps.{places, Computes, Known, half_weight_of};

use columns::Weight;
use weights_recipe::logarithm::edge_weight;
use weights_recipe::rounding::half_weight;

// How many places a table has.
pub const PLACES: usize = 256;

// The first of the two places of p, by all its bits, seven at a time.
fn place_of(p: f64) -> usize
    ensures { result + 1 < places }
{
    if p == p {
        let bits = f64::to_bits(p);
        let folded = bits ^ (bits >> 28) ^ (bits >> 56);
        let mixed = folded ^ (folded >> 14);
        return (((mixed ^ (mixed >> 7)) % 128) * 2) as usize;
    }
    0
}

// The place where a probability stands that equals p, or the number of places.
fn find(p: f64, known_p: &[f64]) -> usize
    requires { length known_p.now ≡ places }
    ensures { result < places → edge_weight (get_or known_p.now result nan) ≡ edge_weight p }
{
    let k = place_of(p);
    if p == known_p[k] {
        return k;
    }
    if p == known_p[k + 1] {
        return k + 1;
    }
    PLACES
}

// What a weight gives for p, from the table where it is known, else computed and kept.
pub fn known<T: Copy, F: FnOnce(f64) -> T>(
    p: f64,
    compute: F,
    known_p: &mut [f64],
    known: &mut [T],
) -> T
    requires callable { F.IsAlwaysCallable compute }
    requires room { (length known_p.old ≡ places) × (length known.old ≡ places) }
    ensures { (of_weight : Float → T) → Computes (F.post compute) of_weight → Known (λ q. of_weight (edge_weight q)) known_p.old known.old
        → (result ≡ of_weight (edge_weight p)) × Known (λ q. of_weight (edge_weight q)) known_p.new known.new }
{
    let at = find(p, known_p);
    if at < PLACES {
        return known[at];
    }
    let k = place_of(p);
    let value = compute(p);
    known_p[k + 1] = known_p[k];
    known[k + 1] = known[k];
    known_p[k] = p;
    known[k] = value;
    value
}

// The half weight of an edge with probability p.
pub fn half_weight_of(max_half_weight: Weight, largest: f64, p: f64) -> Weight
    ensures { result ≡ half_weight_of max_half_weight largest p }
{
    half_weight(max_half_weight, edge_weight(p), largest)
}
