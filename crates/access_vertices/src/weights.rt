// The weights of a code's edges from its half weights.
ghost use Rattle.std.specs.Prelude.{◌≡◌, ℕ, ◌<◌, ◌≤◌, length, get_or};
ghost use Rattle.columns.specs.Limits.{half_weight_limit};
ghost use Rattle.columns.specs.Lists.{over};
ghost use Rattle.access_vertices.specs.Weights.{weights};

use columns::Weight;

// Stores twice the half weight of each of the first n edges.
pub fn store_weights(half_weight: &[Weight], n: usize, weight: &mut [Weight])
    requires n_in_bounds { (n ≤ length half_weight.now) × (n ≤ length weight.old) }
    requires by_index { (k : ℕ) → k < n → get_or half_weight.now k 0 ≤ half_weight_limit }
    ensures { weight.new ≡ over (weights n half_weight.now) weight.old }
{
    for k in 0..n {
        weight[k] = 2 * half_weight[k];
    }
}
