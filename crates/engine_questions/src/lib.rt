// The questions of open, the loads and reset.
#![tactic(auto)]

ghost use Rattle.std.specs.Prelude.{◌≡◌};
ghost use Rattle.columns.specs.Refusals.{question_of};
ghost use Rattle.engine_columns.specs.Records.{engine_in};
ghost use Rattle.engine_columns.specs.Calls.{engine_refusal, load_erasures, load_weights, reset};
ghost use Rattle.engine_columns.specs.Open.{open_refusal, graph_columns};

use columns::Weight;
use columns::questions::{each_below, each_weight_sound};
use columns::refusal::{Refusal, require};
use engine_columns::{EngineCounts, columns_long, columns_sound, engine_sound, long_enough};

// The first question of load_erasures that is not met.
pub fn load_erasures_refusal(
    c: EngineCounts,
    ends_a: &[u32],
    ends_b: &[u32],
    weights: &[Weight],
    boundary: &[u8],
    log_edges: &[u32],
    log_weights: &[Weight],
    list: &[u32],
) -> Result<(), Refusal>
    ensures { question_of result ≡ engine_refusal (load_erasures list.now) (engine_in c ends_a.now ends_b.now weights.now boundary.now log_edges.now log_weights.now) }
{
    let long = long_enough(
        c,
        ends_a,
        ends_b,
        weights,
        boundary,
        log_edges,
        log_weights,
        list.len(),
    );
    require(long, Refusal::ShortColumn)?;
    let sound = engine_sound(c, ends_a, ends_b, weights, boundary, log_edges, log_weights);
    require(sound, Refusal::UnsoundColumns)?;
    require(c.entries == 0, Refusal::LogNotEmpty)?;
    require(each_below(list, c.edges), Refusal::NumberOutOfRange)
}

// The first question of load_dynamic_weights that is not met.
pub fn load_weights_refusal(
    c: EngineCounts,
    ends_a: &[u32],
    ends_b: &[u32],
    weights: &[Weight],
    boundary: &[u8],
    log_edges: &[u32],
    log_weights: &[Weight],
    list: &[u32],
    values: &[Weight],
) -> Result<(), Refusal>
    ensures { question_of result ≡ engine_refusal (load_weights list.now values.now) (engine_in c ends_a.now ends_b.now weights.now boundary.now log_edges.now log_weights.now) }
{
    require(list.len() == values.len(), Refusal::ShortColumn)?;
    load_erasures_refusal(
        c,
        ends_a,
        ends_b,
        weights,
        boundary,
        log_edges,
        log_weights,
        list,
    )?;
    require(each_weight_sound(values), Refusal::BadWeight)
}

// The first question of reset that is not met.
pub fn reset_refusal(
    c: EngineCounts,
    ends_a: &[u32],
    ends_b: &[u32],
    weights: &[Weight],
    boundary: &[u8],
    log_edges: &[u32],
    log_weights: &[Weight],
) -> Result<(), Refusal>
    ensures { question_of result ≡ engine_refusal reset (engine_in c ends_a.now ends_b.now weights.now boundary.now log_edges.now log_weights.now) }
{
    let long = long_enough(
        c,
        ends_a,
        ends_b,
        weights,
        boundary,
        log_edges,
        log_weights,
        0,
    );
    require(long, Refusal::ShortColumn)?;
    let sound = engine_sound(c, ends_a, ends_b, weights, boundary, log_edges, log_weights);
    require(sound, Refusal::UnsoundColumns)
}

// The first question of open that is not met.
pub fn open_refusal(
    vertices: u32,
    edges: u32,
    in_a: &[u32],
    in_b: &[u32],
    in_weights: &[Weight],
    in_boundary: &[u8],
    ends_a: &[u32],
    ends_b: &[u32],
    weights: &[Weight],
    boundary: &[u8],
) -> Result<(), Refusal>
    ensures { question_of result ≡ open_refusal vertices edges
        (graph_columns in_a.now in_b.now in_weights.now in_boundary.now)
        (graph_columns ends_a.now ends_b.now weights.now boundary.now) }
{
    require(
        columns_long(vertices, edges, in_a, in_b, in_weights, in_boundary)
            && columns_long(vertices, edges, ends_a, ends_b, weights, boundary),
        Refusal::ShortColumn,
    )?;
    require(
        columns_sound(vertices, edges, in_a, in_b, in_weights, in_boundary),
        Refusal::UnsoundColumns,
    )
}
