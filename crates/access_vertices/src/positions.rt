// The positions of a code's vertices.
ghost use Rattle.std.specs.Prelude.{◌≡◌, ◌≤◌, length, take};
ghost use Rattle.columns.specs.Refusals.{question_of};
ghost use Rattle.std.proofs.lemmas.List.Edits.{sets};
ghost use Rattle.access_vertices.specs.Positions.{positions, positions_refusal, GotPositions};

use columns::VisualizePosition;
use columns::questions::vertex_count_sound;
use columns::refusal::{Refusal, require};
use columns_room::three_long;

// Questions 6 and 7 of get_positions.
fn positions_questions(
    vertex_num: u32,
    pos_i: &[f64],
    pos_j: &[f64],
    pos_t: &[f64],
    to_i: &[f64],
    to_j: &[f64],
    to_t: &[f64],
) -> Result<(), Refusal>
    ensures { question_of result ≡ positions_refusal vertex_num
        (positions pos_i.now pos_j.now pos_t.now)
        (positions to_i.now to_j.now to_t.now) }
{
    let n = vertex_num as usize;
    let from = three_long(n, pos_i.len(), pos_j.len(), pos_t.len());
    let to = three_long(n, to_i.len(), to_j.len(), to_t.len());
    require(from && to, Refusal::ShortColumn)?;
    require(vertex_count_sound(vertex_num), Refusal::UnsoundColumns)
}

// Copies the positions of the first n vertices.
#[tactic(auto, using(columns::proofs::Columns::copy_more))]
fn copy_positions(
    n: usize,
    pos_i: &[f64],
    pos_j: &[f64],
    pos_t: &[f64],
    to_i: &mut [f64],
    to_j: &mut [f64],
    to_t: &mut [f64],
)
    requires { (n ≤ length pos_i.now) × (n ≤ length pos_j.now) × (n ≤ length pos_t.now) }
    ensures to_i_after { to_i.new ≡ sets to_i.old 0 (take n pos_i.now) }
    ensures to_j_after { to_j.new ≡ sets to_j.old 0 (take n pos_j.now) }
    ensures to_t_after { to_t.new ≡ sets to_t.old 0 (take n pos_t.now) }
{
    for v in 0..n {
        let position = VisualizePosition::load(pos_i, pos_j, pos_t, v);
        position.store(to_i, to_j, to_t, v);
    }
}

// Copies the position of every vertex.
pub fn get_positions(
    vertex_num: u32,
    pos_i: &[f64],
    pos_j: &[f64],
    pos_t: &[f64],
    to_i: &mut [f64],
    to_j: &mut [f64],
    to_t: &mut [f64],
) -> Result<(), Refusal>
    ensures { GotPositions vertex_num
        (positions pos_i.now pos_j.now pos_t.now)
        (positions to_i.old to_j.old to_t.old)
        (positions to_i.new to_j.new to_t.new)
        result }
{
    positions_questions(vertex_num, pos_i, pos_j, pos_t, to_i, to_j, to_t)?;
    let n = vertex_num as usize;
    copy_positions(n, pos_i, pos_j, pos_t, to_i, to_j, to_t);
    Ok(())
}
