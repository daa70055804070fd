// The diagonal probability of kind 4.
#![tactic(auto)]

ghost use Rattle.std.specs.Prelude.{◌≡◌};
ghost use Rattle.weights_diagonal.specs.Diagonal.{manhattan_distance, is_diagonal, new_diagonal, is_diagonal_probability};

use columns::VisualizePosition;
use weights_questions::is_probability;

// The diagonal probability that `new` gives.
pub fn new_diagonal_probability(p: f64) -> Option<f64>
    ensures { result ≡ new_diagonal p }
{
    Some(p / 3.0)
}

// Question 9 of the diagonal probability.
pub fn is_diagonal_probability(d: Option<f64>) -> bool
    ensures { result ≡ is_diagonal_probability d }
{
    d.is_none_or(is_probability)
}

// The Manhattan distance of two positions.
fn manhattan_distance(a: VisualizePosition, b: VisualizePosition) -> f64
    ensures { result ≡ manhattan_distance a b }
{
    (a.i - b.i).abs() + (a.j - b.j).abs() + (a.t - b.t).abs()
}

// Whether an edge with these ends is diagonal.
pub fn is_diagonal(a: VisualizePosition, b: VisualizePosition) -> bool
    ensures { result ≡ is_diagonal a b }
{
    manhattan_distance(a, b) > 1.0
}
