// The half weight of an edge.
ghost use Rattle.std.specs.Prelude.{◌≡◌, ℕ, ◌+◌, ◌<◌, ◌≤◌, true, false, ◌⊎◌};
ghost use Rattle.weights_recipe.specs.Rounding.{reaches, greatest, half_weight, search_limit};

use columns::Weight;

// A number that mostly is the greatest: v + 0.5 without its fraction, or the end of 0 to max that is nearer.
fn near(max: u64, v: f64) -> u64
    ensures { result ≤ max }
{
    let x = v + 0.5;
    if x > -1.0 {
        if x < 18446744073709551616.0 {
            let n = std::num::truncating_f64_to_u64(x);
            return if n < max { n } else { max };
        }
        return max;
    }
    0
}

// Whether v >= n - 0.5.
fn is_reached(v: f64, n: u64) -> bool
    requires { n ≤ search_limit + 1 }
    ensures { result ≡ reaches v n }
{
    v >= (n as f64) - 0.5
}

// n where v reaches it, else 0.
fn reached_at(v: f64, n: u64) -> u64
    requires { n ≤ search_limit }
    ensures { (result ≤ n) × ((result ≡ 0) ⊎ (reaches v result ≡ true)) }
{
    if is_reached(v, n) { n } else { 0 }
}

// The number after n where v does not reach it, else the one after max: v reaches none from there to max.
fn missed_from(max: u64, v: f64, n: u64) -> u64
    requires { (n ≤ max) × (max ≤ search_limit) }
    ensures { (n < result) × (result ≤ max + 1) × ((k : ℕ) → result ≤ k → k ≤ max → reaches v k ≡ false) }
{
    if is_reached(v, n + 1) { max + 1 } else { n + 1 }
}

// The greatest n of 0 to max with n = 0 or v >= n - 0.5: lo is such a number, and no number from hi on is. Two tests of a near number
// mostly leave nothing between them.
fn greatest_reached(max: u64, v: f64) -> u64
    requires { max ≤ search_limit }
    ensures { result ≡ greatest v max }
{
    let n = near(max, v);
    let mut lo = reached_at(v, n);
    let mut hi = missed_from(max, v, n);
    loop {
        if hi - lo <= 1 {
            break lo;
        }
        let mid = lo + (hi - lo) / 2;
        if is_reached(v, mid) {
            lo = mid;
        } else {
            hi = mid;
        }
    }
}

// The half weight of an edge of weight w, from the largest half weight and the largest weight.
pub fn half_weight(max_half_weight: Weight, w: f64, largest: f64) -> Weight
    ensures { result ≡ half_weight max_half_weight w largest }
{
    let max = max_half_weight as u64;
    let n = greatest_reached(max, (max as f64) * w / largest);
    if n == 0 { 1 } else { n as Weight }
}
