// Clears the defects and sets the erasures of a code.
#![tactic(auto)]

ghost use Rattle.std.specs.Prelude.{◌≡◌};
ghost use Rattle.columns.specs.Refusals.{question_of};
ghost use Rattle.sampling_clear.specs.Clear.{clear_refusal, ClearedErrors};

use columns::questions::{edge_count_sound, vertex_count_sound};
use columns::refusal::{Refusal, require};
use columns_stores::fill;

// Questions 6 and 7 of clear_errors.
fn clear_questions(
    vertex_num: u32,
    edge_num: u32,
    defect: &[u8],
    erasure: &[u8],
) -> Result<(), Refusal>
    ensures { question_of result ≡ clear_refusal vertex_num edge_num defect.now erasure.now }
{
    let long = vertex_num as usize <= defect.len() && edge_num as usize <= erasure.len();
    require(long, Refusal::ShortColumn)?;
    let sound = vertex_count_sound(vertex_num) && edge_count_sound(edge_num);
    require(sound, Refusal::UnsoundColumns)
}

// Clears every defect, and sets every erasure byte to 1.
pub fn clear_errors(
    vertex_num: u32,
    edge_num: u32,
    defect: &mut [u8],
    erasure: &mut [u8],
) -> Result<(), Refusal>
    ensures { ClearedErrors vertex_num edge_num defect.old erasure.old result defect.new erasure.new }
{
    clear_questions(vertex_num, edge_num, defect, erasure)?;
    fill(defect, vertex_num as usize, 0);
    fill(erasure, edge_num as usize, 1);
    Ok(())
}
