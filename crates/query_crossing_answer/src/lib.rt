// What a crossing asks and answers: its questions, the nearest of the right vertices that a search has taken, the reply.
#![tactic(auto)]

ghost use Rattle.std.specs.Prelude.{◌≡◌, cond, ◌&&◌, List, ℕ, length, get_or, eqb, ok_or};
ghost use Rattle.columns.specs.Refusals.{question_of};
ghost use Rattle.columns.specs.declared.refusal.Refusal.TheVariants.{NoCrossing};
ghost use Rattle.engine_columns.specs.Records.{engine_in};
ghost use Rattle.engine_walks.specs.Settling.{first_least, weight_at};
ghost use Rattle.engine_walks.specs.Answers.{taken, weight_of};
ghost use Rattle.query_relaxing.specs.Ready.{state_of};
ghost use Rattle.query_crossing_answer.specs.Least.{if_any, lesser_weight};
ghost use Rattle.query_crossing_answer.specs.Crossing.{crossing_asked};

use columns::refusal::Refusal;
use columns::{RIGHT, Weight};
use engine_columns::EngineCounts;
use query_questions::query_refusal;

// The lesser of the least weight so far and that of a vertex, where the vertex is a right one that was taken.
fn nearer(best: Option<Weight>, boundary: u8, status: u8, weight: Weight) -> Option<Weight>
    ensures { result ≡ cond (eqb boundary 2 && eqb status 2) (lesser_weight weight best) best }
{
    if boundary != RIGHT || status != 2 {
        return best;
    }
    match best {
        None => Some(weight),
        Some(least) => Some(weight.min(least)),
    }
}

// The least weight of a right vertex that was taken.
pub fn nearest_right(status: &[u8], weight: &[Weight], boundary: &[u8]) -> Option<Weight>
    requires { (length weight.now ≡ length status.now) × (length boundary.now ≡ length status.now) }
    ensures { (p : List ℕ) → result ≡ if_any (weight_of (state_of status.now weight.now p) (first_least (λ v. eqb (get_or boundary.now v 0) 2 && taken (state_of status.now weight.now p) v) (weight_at (state_of status.now weight.now p)) (length status.now))) }
{
    let mut best = None;
    for v in 0..status.len() {
        best = nearer(best, boundary[v], status[v], weight[v]);
    }
    best
}

// Questions 6 and 7 of a crossing.
pub fn crossing_asked(
    c: EngineCounts,
    ends_a: &[u32],
    ends_b: &[u32],
    weights: &[Weight],
    boundary: &[u8],
    log_edges: &[u32],
    log_weights: &[Weight],
    out: usize,
    scratch: bool,
) -> Result<(), Refusal>
    ensures { question_of result ≡ crossing_asked (engine_in c ends_a.now ends_b.now weights.now boundary.now log_edges.now log_weights.now) scratch out 0 }
{
    query_refusal(
        c,
        ends_a,
        ends_b,
        weights,
        boundary,
        log_edges,
        log_weights,
        c.vertices as usize <= out && scratch,
        true,
    )
}

// Question 18: the crossing weight that was found.
pub fn reply(found: Option<Weight>) -> Result<Weight, Refusal>
    ensures { result ≡ ok_or found NoCrossing }
{
    found.ok_or(Refusal::NoCrossing)
}
