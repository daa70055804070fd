// Whether a vertex is virtual, or a defect; the positions of vertices, and the weights of edges.
#![tactic(auto)]

pub mod positions;
pub mod weights;

ghost use Rattle.std.specs.Prelude.{◌≡◌};
ghost use Rattle.columns.specs.Refusals.{question_of};
ghost use Rattle.columns.specs.Questions.{boundaries_sound, marks_sound};
ghost use Rattle.access_vertices.specs.Marked.{is_marked_refusal, IsMarked};

use columns::VertexIndex;
use columns::questions::{boundaries_sound, marks_sound, vertex_count_sound};
use columns::refusal::{Refusal, require};
use columns_marks::is_set;

// Questions 6, 7 and 13; `sound` is question 7 of the bytes.
fn marked_questions(
    sound: bool,
    vertex_num: u32,
    column: &[u8],
    vertex: VertexIndex,
) -> Result<(), Refusal>
    ensures { question_of result ≡ is_marked_refusal sound vertex_num column.now vertex.0 }
{
    require(vertex_num as usize <= column.len(), Refusal::ShortColumn)?;
    require(
        vertex_count_sound(vertex_num) && sound,
        Refusal::UnsoundColumns,
    )?;
    require(vertex.0 < vertex_num, Refusal::NumberOutOfRange)
}

// Whether the byte of a vertex is set; `sound` is question 7 of the bytes.
fn is_marked(
    sound: bool,
    vertex_num: u32,
    column: &[u8],
    vertex: VertexIndex,
) -> Result<bool, Refusal>
    ensures { IsMarked sound vertex_num column.now vertex.0 result }
{
    marked_questions(sound, vertex_num, column, vertex)?;
    Ok(is_set(column[vertex.0 as usize]))
}

// Whether a vertex is virtual.
pub fn is_virtual(vertex_num: u32, boundary: &[u8], vertex: VertexIndex) -> Result<bool, Refusal>
    ensures { IsMarked (boundaries_sound vertex_num boundary.now) vertex_num boundary.now vertex.0 result }
{
    is_marked(
        boundaries_sound(boundary, vertex_num as usize),
        vertex_num,
        boundary,
        vertex,
    )
}

// Whether a vertex is a defect.
pub fn is_defect(vertex_num: u32, defect: &[u8], vertex: VertexIndex) -> Result<bool, Refusal>
    ensures { IsMarked (marks_sound vertex_num defect.now) vertex_num defect.now vertex.0 result }
{
    is_marked(
        marks_sound(defect, vertex_num as usize),
        vertex_num,
        defect,
        vertex,
    )
}
