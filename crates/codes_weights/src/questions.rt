// The largest weight, and questions 8 to 10.
ghost use Rattle.std.specs.Prelude.{◌≡◌, ◌&&◌, ℕ, cond, eqb};
ghost use Rattle.std.specs.Float.Ieee.{lt};
ghost use Rattle.columns.specs.Places.{zero_float};
ghost use Rattle.columns.specs.Refusals.{question_of};
ghost use Rattle.weights_recipe.specs.Probabilities.{is_probability};
ghost use Rattle.weights_diagonal.specs.Diagonal.{is_diagonal_probability};
ghost use Rattle.weights_calls.specs.Calls.{is_largest_half_weight};
ghost use Rattle.codes_weights.specs.Steps.{largest_of, weights_refusal};

use super::weigh::diagonal_p;
use columns::Weight;
use columns::refusal::{Refusal, require};
use weights_calls::{is_above_zero, is_largest_half_weight, larger_weight};
use weights_diagonal::is_diagonal_probability;
use weights_questions::is_probability;
use weights_recipe::logarithm::edge_weight;

// The largest weight of a code's edges. Some edge is not diagonal; from one round on some edge of kind 4 is.
pub fn largest_weight(rounds: u32, p: f64, diagonal: Option<f64>) -> f64
    ensures { result ≡ largest_of rounds p diagonal }
{
    let straight = larger_weight(0.0, edge_weight(p));
    let largest = larger_weight(straight, edge_weight(diagonal_p(p, diagonal)));
    if rounds == 0 { straight } else { largest }
}

// Questions 8 to 10, in order.
#[tactic(auto, unfolding(crate::specs::Steps::weights_refusal))]
pub fn weights_questions(
    p: f64,
    diagonal: Option<f64>,
    max_half_weight: Weight,
    largest: f64,
) -> Result<(), Refusal>
    ensures number { question_of result ≡ weights_refusal 0 (is_largest_half_weight max_half_weight) (is_probability p && is_diagonal_probability diagonal) (lt zero_float largest) }
    ensures after { (q : ℕ) → cond (eqb q 0) (question_of result) q ≡ weights_refusal q (is_largest_half_weight max_half_weight) (is_probability p && is_diagonal_probability diagonal) (lt zero_float largest) }
{
    let eight = is_largest_half_weight(max_half_weight);
    let nine = is_probability(p) && is_diagonal_probability(diagonal);
    require(eight, Refusal::BadHalfWeight)?;
    require(nine, Refusal::BadProbability)?;
    require(is_above_zero(largest), Refusal::NoWeight)
}
