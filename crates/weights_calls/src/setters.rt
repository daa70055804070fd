// The calls that set the probability of each edge.
ghost use Rattle.std.specs.Prelude.{◌≡◌};
ghost use Rattle.columns.specs.Refusals.{question_of};
ghost use Rattle.weights_recipe.specs.Probabilities.{is_probability, is_erasure_probability};
ghost use Rattle.weights_calls.specs.Setters.{set_each_refusal, SetEach};

use columns::EDGE_LIMIT;
use columns::refusal::{Refusal, require};
use columns_stores::fill;
use weights_questions::{is_erasure_probability, is_probability};

// Questions 6, 7 and 9; `met` says whether 9 is met.
fn set_questions(met: bool, edge_num: u32, column: &[f64]) -> Result<(), Refusal>
    ensures { question_of result ≡ set_each_refusal met edge_num column.now }
{
    require(edge_num as usize <= column.len(), Refusal::ShortColumn)?;
    require(edge_num <= EDGE_LIMIT, Refusal::UnsoundColumns)?;
    require(met, Refusal::BadProbability)
}

// Sets each edge to the value; `met` says whether question 9 is met.
fn set_each(met: bool, edge_num: u32, value: f64, column: &mut [f64]) -> Result<(), Refusal>
    ensures { SetEach met edge_num value column.old column.new result }
{
    set_questions(met, edge_num, column)?;
    fill(column, edge_num as usize, value);
    Ok(())
}

// Sets the probability of each edge.
pub fn set_probability(edge_num: u32, value: f64, p: &mut [f64]) -> Result<(), Refusal>
    ensures { SetEach (is_probability value) edge_num value p.old p.new result }
{
    set_each(is_probability(value), edge_num, value, p)
}

// Sets the erasure probability of each edge.
pub fn set_erasure_probability(edge_num: u32, value: f64, pe: &mut [f64]) -> Result<(), Refusal>
    ensures { SetEach (is_erasure_probability value) edge_num value pe.old pe.new result }
{
    set_each(is_erasure_probability(value), edge_num, value, pe)
}
