// Weights: document 01's section "Weights" with questions 6 to 10.
#![tactic(auto)]

mod known;
pub mod setters;

ghost use Rattle.std.specs.Prelude.{◌≡◌, map, ◌≤◌, length, take, IfOk};
ghost use Rattle.std.specs.Float.Ieee.{lt};
ghost use Rattle.columns.specs.Lists.{over};
ghost use Rattle.columns.specs.Places.{zero_float};
ghost use Rattle.weights_recipe.specs.Logarithm.{edge_weight};
ghost use Rattle.weights_recipe.specs.Rounding.{half_weight};
ghost use Rattle.columns.specs.Refusals.{question_of};
ghost use Rattle.columns_answers.specs.Said.{said, Answered};
ghost use Rattle.weights_calls.specs.Steps.{Known, half_weight_of};
ghost use Rattle.weights_calls.specs.Calls.{weight_refusal, larger, largest_weight, is_largest_half_weight, compute_refusal, ComputedWeights};

use columns::refusal::{Refusal, require};
use columns::{EDGE_LIMIT, HALF_WEIGHT_LIMIT, Weight};
use known::{PLACES, half_weight_of, known};
pub use setters::{set_erasure_probability, set_probability};
use weights_questions::{are_probabilities, is_probability};
use weights_recipe::logarithm::edge_weight;

// The weight of an edge with probability p.
pub fn weight_of_p(p: f64) -> Result<f64, Refusal>
    ensures { Answered (said zero_float result) (weight_refusal p) (edge_weight p) zero_float }
{
    require(is_probability(p), Refusal::BadProbability)?;
    Ok(edge_weight(p))
}

// The larger of two weights.
pub fn larger_weight(m: f64, w: f64) -> f64
    ensures { result ≡ larger m w }
{
    if w > m { w } else { m }
}

// The largest weight of the first n edges, or of all where there are fewer, from 0 on, by a table of known weights.
fn largest_by_table(p: &[f64], n: usize, known_p: &mut [f64], known_w: &mut [f64]) -> f64
    requires { Known edge_weight known_p.old known_w.old }
    ensures { result ≡ largest_weight (take n p.now) }
{
    let m = n.min(p.len());
    let mut largest = 0.0;
    for i in 0..m {
        largest = larger_weight(largest, known(p[i], edge_weight, known_p, known_w));
    }
    largest
}

// The same, from a table that holds the probability 0 alone.
fn largest_weight(p: &[f64], n: usize) -> f64
    ensures { result ≡ largest_weight (take n p.now) }
{
    let w = edge_weight(0.0);
    let mut known_p = [0.0; PLACES];
    let mut known_w = [w; PLACES];
    largest_by_table(p, n, &mut known_p, &mut known_w)
}

// Whether a weight is above 0.
pub fn is_above_zero(w: f64) -> bool
    ensures { result ≡ lt zero_float w }
{
    w > 0.0
}

// Question 8.
pub fn is_largest_half_weight(max_half_weight: Weight) -> bool
    ensures { result ≡ is_largest_half_weight max_half_weight }
{
    1 <= max_half_weight && max_half_weight <= HALF_WEIGHT_LIMIT
}

// Stores the half weight of each of the first n edges, by a table of known half weights.
fn store_by_table(
    n: usize,
    p: &[f64],
    column: &mut [Weight],
    max_half_weight: Weight,
    largest: f64,
    known_p: &mut [f64],
    known_half: &mut [Weight],
)
    requires { (n ≤ length p.now) × (n ≤ length column.old) × Known (half_weight_of max_half_weight largest) known_p.old known_half.old }
    ensures { column.new ≡ over (map (half_weight_of max_half_weight largest) (take n p.now)) column.old }
{
    for i in 0..n {
        column[i] = known(
            p[i],
            |q| half_weight_of(max_half_weight, largest, q),
            known_p,
            known_half,
        );
    }
}

// The same, from a table that holds the probability 0 alone. The weight of each different probability is computed here a second time:
// the largest has to be known before the first half weight, and no column is lent that could hold the weights.
fn store_half_weights(
    n: usize,
    p: &[f64],
    column: &mut [Weight],
    max_half_weight: Weight,
    largest: f64,
)
    requires { (n ≤ length p.now) × (n ≤ length column.old) }
    ensures { column.new ≡ over (map (λ q. half_weight max_half_weight (edge_weight q) largest) (take n p.now)) column.old }
{
    let half = half_weight_of(max_half_weight, largest, 0.0);
    let mut known_p = [0.0; PLACES];
    let mut known_half = [half; PLACES];
    store_by_table(
        n,
        p,
        column,
        max_half_weight,
        largest,
        &mut known_p,
        &mut known_half,
    );
}

// Questions 6 to 10, in order. The largest weight.
#[tactic(auto, using(crate::proofs::Largest::some_above_lem))]
fn compute_questions(
    edge_num: u32,
    p: &[f64],
    half_weight: &[Weight],
    max_half_weight: Weight,
) -> Result<f64, Refusal>
    ensures number { question_of result ≡ compute_refusal edge_num p.now half_weight.now max_half_weight }
    ensures largest { IfOk result (λ largest. largest ≡ largest_weight (take edge_num p.now)) }
{
    let n = edge_num as usize;
    require(n <= p.len() && n <= half_weight.len(), Refusal::ShortColumn)?;
    require(edge_num <= EDGE_LIMIT, Refusal::UnsoundColumns)?;
    require(
        is_largest_half_weight(max_half_weight),
        Refusal::BadHalfWeight,
    )?;
    require(are_probabilities(p, n), Refusal::BadProbability)?;
    let largest = largest_weight(p, n);
    require(is_above_zero(largest), Refusal::NoWeight)?;
    Ok(largest)
}

// Sets the half weight of each edge from the edges' probabilities.
pub fn compute_weights(
    edge_num: u32,
    p: &[f64],
    half_weight: &mut [Weight],
    max_half_weight: Weight,
) -> Result<(), Refusal>
    ensures { ComputedWeights edge_num p.now half_weight.old max_half_weight half_weight.new result }
{
    let largest = compute_questions(edge_num, p, half_weight, max_half_weight)?;
    store_half_weights(edge_num as usize, p, half_weight, max_half_weight, largest);
    Ok(())
}
