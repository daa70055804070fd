// Questions 6, 7 and 9 of the columns that the calls are lent, and those of each call.
ghost use Rattle.std.specs.Prelude.{◌≡◌};
ghost use Rattle.columns.specs.Refusals.{question_of};
ghost use Rattle.columns_room.specs.Graph.{code_graph};
ghost use Rattle.sampling_calls.specs.Records.{syndrome_columns, syndrome_long};
ghost use Rattle.sampling_calls.specs.Errors.{errors_refusal};
ghost use Rattle.sampling_calls.specs.Sampling.{probabilities_sound, sampling_refusal};
ghost use Rattle.sampling_calls.specs.Syndrome.{syndrome_refusal};

use columns::questions::{each_below, marks_sound};
use columns::refusal::{Refusal, require};
use columns_room::{code_sound, graph_long, two_long};
use weights_questions::are_probable;

// Question 6, of defect and erasure bytes and of both lists.
#[tactic(auto, unfolding(crate::specs::Records::syndrome_long))]
pub fn syndrome_long(
    vertex_num: u32,
    edge_num: u32,
    defect: &[u8],
    erasure: &[u8],
    defect_list: &[u32],
    erasure_list: &[u32],
) -> bool
    ensures { result ≡ syndrome_long vertex_num edge_num (syndrome_columns defect.now erasure.now defect_list.now erasure_list.now) }
{
    two_long(vertex_num as usize, defect.len(), defect_list.len())
        && two_long(edge_num as usize, erasure.len(), erasure_list.len())
}

// Questions 6, 7 and 13 of generate_errors.
#[tactic(auto, unfolding(crate::specs::Errors::errors_refusal))]
pub fn errors_refusal(
    vertex_num: u32,
    edge_num: u32,
    ends_a: &[u32],
    ends_b: &[u32],
    boundary: &[u8],
    list: &[u32],
    defect: &[u8],
    erasure: &[u8],
    defect_list: &[u32],
    erasure_list: &[u32],
) -> Result<(), Refusal>
    ensures { question_of result ≡ errors_refusal (code_graph vertex_num edge_num ends_a.now ends_b.now boundary.now) list.now
        (syndrome_columns defect.now erasure.now defect_list.now erasure_list.now) }
{
    let long = graph_long(vertex_num, edge_num, ends_a, ends_b, boundary)
        && syndrome_long(
            vertex_num,
            edge_num,
            defect,
            erasure,
            defect_list,
            erasure_list,
        );
    require(long, Refusal::ShortColumn)?;
    let sound = code_sound(vertex_num, edge_num, ends_a, ends_b, boundary)
        && marks_sound(defect, vertex_num as usize)
        && marks_sound(erasure, edge_num as usize);
    require(sound, Refusal::UnsoundColumns)?;
    require(each_below(list, edge_num), Refusal::NumberOutOfRange)
}

// Question 9, of the first places of p and pe.
#[tactic(auto, unfolding(crate::specs::Sampling::probabilities_sound))]
fn probabilities_sound(edge_num: u32, p: &[f64], pe: &[f64]) -> bool
    ensures { result ≡ probabilities_sound edge_num p.now pe.now }
{
    are_probable(p, pe, edge_num as usize)
}

// Questions 6, 7 and 9 of generate_random_errors.
#[tactic(auto, unfolding(crate::specs::Sampling::sampling_refusal))]
pub fn sampling_refusal(
    vertex_num: u32,
    edge_num: u32,
    ends_a: &[u32],
    ends_b: &[u32],
    p: &[f64],
    pe: &[f64],
    boundary: &[u8],
    defect: &[u8],
    erasure: &[u8],
    defect_list: &[u32],
    erasure_list: &[u32],
) -> Result<(), Refusal>
    ensures { question_of result ≡ sampling_refusal (code_graph vertex_num edge_num ends_a.now ends_b.now boundary.now) p.now pe.now
        (syndrome_columns defect.now erasure.now defect_list.now erasure_list.now) }
{
    let long = graph_long(vertex_num, edge_num, ends_a, ends_b, boundary)
        && two_long(edge_num as usize, p.len(), pe.len())
        && syndrome_long(
            vertex_num,
            edge_num,
            defect,
            erasure,
            defect_list,
            erasure_list,
        );
    require(long, Refusal::ShortColumn)?;
    let sound = code_sound(vertex_num, edge_num, ends_a, ends_b, boundary);
    require(sound, Refusal::UnsoundColumns)?;
    require(
        probabilities_sound(edge_num, p, pe),
        Refusal::BadProbability,
    )
}

// Questions 6, 7 and 13 of syndrome_of.
#[tactic(auto, unfolding(crate::specs::Syndrome::syndrome_refusal))]
pub fn syndrome_refusal(
    vertex_num: u32,
    edge_num: u32,
    ends_a: &[u32],
    ends_b: &[u32],
    boundary: &[u8],
    list: &[u32],
    defect_list: &[u32],
) -> Result<(), Refusal>
    ensures { question_of result ≡ syndrome_refusal (code_graph vertex_num edge_num ends_a.now ends_b.now boundary.now) list.now defect_list.now }
{
    let long = graph_long(vertex_num, edge_num, ends_a, ends_b, boundary)
        && vertex_num as usize <= defect_list.len();
    require(long, Refusal::ShortColumn)?;
    let sound = code_sound(vertex_num, edge_num, ends_a, ends_b, boundary);
    require(sound, Refusal::UnsoundColumns)?;
    require(each_below(list, edge_num), Refusal::NumberOutOfRange)
}
