ghost use Rattle.c_reports.specs.Reports.{Reported, ReportsNumber};
ghost use Rattle.c_codes.specs.Reports.{ReportsWeighed};
ghost use Rattle.columns_answers.specs.Said.{said, Answered};
ghost use Rattle.columns.specs.Places.{zero_float};
ghost use Rattle.weights_calls.specs.Setters.{SetEach};
ghost use Rattle.weights_calls.specs.Calls.{weight_refusal, ComputedWeights};
ghost use Rattle.weights_recipe.specs.Logarithm.{edge_weight};
ghost use Rattle.weights_recipe.specs.Probabilities.{is_probability, is_erasure_probability};

use super::reports::{WeighedReport, weighed_report};
use c_reports::number_of;
use columns::Weight;

// The weight of an edge with probability p.
#[unsafe(no_mangle)]
pub extern "C" fn moldingcress_weight_of_p(p: f64) -> WeighedReport
    ensures { Reported ReportsWeighed (λ r. Answered (said zero_float r) (weight_refusal p) (edge_weight p) zero_float) result }
{
    weighed_report(weights_calls::weight_of_p(p))
}

// Sets the half weight of each edge from the edges' probabilities.
#[unsafe(no_mangle)]
pub extern "C" fn moldingcress_compute_weights(
    edge_num: u32,
    p: &[f64],
    half_weight: &mut [Weight],
    max_half_weight: Weight,
) -> u32
    ensures { Reported ReportsNumber (λ r. ComputedWeights edge_num p.now half_weight.old max_half_weight half_weight.new r) result }
{
    number_of(weights_calls::compute_weights(edge_num, p, half_weight, max_half_weight))
}

// Sets the probability of each edge.
#[unsafe(no_mangle)]
pub extern "C" fn moldingcress_set_probability(edge_num: u32, value: f64, p: &mut [f64]) -> u32
    ensures { Reported ReportsNumber (λ r. SetEach (is_probability value) edge_num value p.old p.new r) result }
{
    number_of(weights_calls::set_probability(edge_num, value, p))
}

// Sets the erasure probability of each edge.
#[unsafe(no_mangle)]
pub extern "C" fn moldingcress_set_erasure_probability(
    edge_num: u32,
    value: f64,
    pe: &mut [f64],
) -> u32
    ensures { Reported ReportsNumber (λ r. SetEach (is_erasure_probability value) edge_num value pe.old pe.new r) result }
{
    number_of(weights_calls::set_erasure_probability(edge_num, value, pe))
}
