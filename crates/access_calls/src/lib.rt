// Getters and setters of a code's columns, and its vertex columns filled in from the edges.
#![tactic(auto)]

pub mod fill;

ghost use Rattle.std.specs.Prelude.{◌≡◌};
ghost use Rattle.columns.specs.Refusals.{question_of};
ghost use Rattle.columns.specs.Questions.{vertex_count_sound, edge_count_sound};
ghost use Rattle.access_calls.specs.Calls.{code, initializer, initializer_long, initializer_sound, initializer_refusal, GotInitializer, SetMarks, set_marks_refusal, syndrome, counts_sound, set_syndrome_refusal, SetSyndrome, get_marks_refusal, GotMarks, get_syndrome_refusal, GotSyndrome};

pub use access_vertices::positions::get_positions;
use access_vertices::weights::store_weights;
pub use access_vertices::{is_defect, is_virtual};
use columns::Weight;
use columns::questions::{
    each_below, edge_count_sound, half_weights_sound, marks_sound, vertex_count_sound,
};
use columns::refusal::{Refusal, require};
pub use columns_answers::SyndromeLengths;
use columns_marks::{list_set, set_marks};
use columns_room::{code_sound, three_long, two_long};
use columns_stores::copy;
pub use fill::fill_vertices;

// Question 6 of get_initializer.
#[tactic(auto, unfolding(crate::specs::Calls::initializer_long))]
fn initializer_long(
    vertex_num: u32,
    edge_num: u32,
    ends_a: &[u32],
    ends_b: &[u32],
    half_weight: &[Weight],
    boundary: &[u8],
    to_a: &[u32],
    to_b: &[u32],
    to_weight: &[Weight],
    to_virtual: &[u32],
) -> bool
    ensures { result ≡ initializer_long vertex_num edge_num
        (code ends_a.now ends_b.now half_weight.now boundary.now)
        (initializer to_a.now to_b.now to_weight.now to_virtual.now) }
{
    let n = vertex_num as usize;
    let e = edge_num as usize;
    let from = three_long(e, ends_a.len(), ends_b.len(), half_weight.len());
    let to = three_long(e, to_a.len(), to_b.len(), to_weight.len());
    let vertices = two_long(n, boundary.len(), to_virtual.len());
    from && to && vertices
}

// Question 7 of get_initializer.
#[tactic(auto, unfolding(crate::specs::Calls::initializer_sound))]
fn initializer_sound(
    vertex_num: u32,
    edge_num: u32,
    ends_a: &[u32],
    ends_b: &[u32],
    half_weight: &[Weight],
    boundary: &[u8],
) -> bool
    ensures { result ≡ initializer_sound vertex_num edge_num (code ends_a.now ends_b.now half_weight.now boundary.now) }
{
    let code = code_sound(vertex_num, edge_num, ends_a, ends_b, boundary);
    let halves = half_weights_sound(half_weight, edge_num as usize);
    code && halves
}

// Questions 6 and 7 of get_initializer.
fn initializer_questions(
    vertex_num: u32,
    edge_num: u32,
    ends_a: &[u32],
    ends_b: &[u32],
    half_weight: &[Weight],
    boundary: &[u8],
    to_a: &[u32],
    to_b: &[u32],
    to_weight: &[Weight],
    to_virtual: &[u32],
) -> Result<(), Refusal>
    ensures { question_of result ≡ initializer_refusal vertex_num edge_num
        (code ends_a.now ends_b.now half_weight.now boundary.now)
        (initializer to_a.now to_b.now to_weight.now to_virtual.now) }
{
    let long = initializer_long(
        vertex_num,
        edge_num,
        ends_a,
        ends_b,
        half_weight,
        boundary,
        to_a,
        to_b,
        to_weight,
        to_virtual,
    );
    require(long, Refusal::ShortColumn)?;
    let sound = initializer_sound(vertex_num, edge_num, ends_a, ends_b, half_weight, boundary);
    require(sound, Refusal::UnsoundColumns)
}

// The ends and the weight of every edge, and the virtual vertices, ascending. How many virtual vertices there are.
pub fn get_initializer(
    vertex_num: u32,
    edge_num: u32,
    ends_a: &[u32],
    ends_b: &[u32],
    half_weight: &[Weight],
    boundary: &[u8],
    to_a: &mut [u32],
    to_b: &mut [u32],
    to_weight: &mut [Weight],
    to_virtual: &mut [u32],
) -> Result<u32, Refusal>
    ensures { GotInitializer vertex_num edge_num
        (code ends_a.now ends_b.now half_weight.now boundary.now)
        (initializer to_a.old to_b.old to_weight.old to_virtual.old)
        (initializer to_a.new to_b.new to_weight.new to_virtual.new)
        result }
{
    initializer_questions(
        vertex_num,
        edge_num,
        ends_a,
        ends_b,
        half_weight,
        boundary,
        to_a,
        to_b,
        to_weight,
        to_virtual,
    )?;
    let e = edge_num as usize;
    copy(to_a, ends_a, e);
    copy(to_b, ends_b, e);
    store_weights(half_weight, e, to_weight);
    Ok(list_set(boundary, vertex_num, to_virtual))
}

// Questions 6, 7 and 13 of a call that sets bytes: n is their count and `sound` question 7 of it.
fn set_questions(sound: bool, n: u32, list: &[u32], column: &[u8]) -> Result<(), Refusal>
    ensures { question_of result ≡ set_marks_refusal sound n list.now column.now }
{
    require(n as usize <= column.len(), Refusal::ShortColumn)?;
    require(sound, Refusal::UnsoundColumns)?;
    require(each_below(list, n), Refusal::NumberOutOfRange)
}

// Sets the bytes that the list names and clears the others, n being their count and `sound` question 7 of it.
#[tactic(auto, using(crate::proofs::Refusals::set_met))]
fn set_named(sound: bool, n: u32, list: &[u32], column: &mut [u8]) -> Result<(), Refusal>
    ensures { SetMarks sound n list.now column.old column.new result }
{
    set_questions(sound, n, list, column)?;
    set_marks(column, n as usize, list);
    Ok(())
}

// Makes the vertices of the list the defects.
pub fn set_defect_vertices(vertex_num: u32, list: &[u32], defect: &mut [u8]) -> Result<(), Refusal>
    ensures { SetMarks (vertex_count_sound vertex_num) vertex_num list.now defect.old defect.new result }
{
    set_named(vertex_count_sound(vertex_num), vertex_num, list, defect)
}

// Makes the edges of the list the erasures.
pub fn set_erasures(edge_num: u32, list: &[u32], erasure: &mut [u8]) -> Result<(), Refusal>
    ensures { SetMarks (edge_count_sound edge_num) edge_num list.now erasure.old erasure.new result }
{
    set_named(edge_count_sound(edge_num), edge_num, list, erasure)
}

// Question 7 of both counts.
#[tactic(auto, unfolding(crate::specs::Calls::counts_sound))]
fn counts_sound(vertex_num: u32, edge_num: u32) -> bool
    ensures { result ≡ counts_sound vertex_num edge_num }
{
    vertex_count_sound(vertex_num) && edge_count_sound(edge_num)
}

// Questions 6, 7 and 13 of set_syndrome.
fn set_syndrome_questions(
    vertex_num: u32,
    edge_num: u32,
    defect_list: &[u32],
    erasure_list: &[u32],
    defect: &[u8],
    erasure: &[u8],
) -> Result<(), Refusal>
    ensures { question_of result ≡ set_syndrome_refusal vertex_num edge_num
        (syndrome defect_list.now erasure_list.now)
        (syndrome defect.now erasure.now) }
{
    let long_d = vertex_num as usize <= defect.len();
    let long_e = edge_num as usize <= erasure.len();
    require(long_d && long_e, Refusal::ShortColumn)?;
    require(counts_sound(vertex_num, edge_num), Refusal::UnsoundColumns)?;
    let below_d = each_below(defect_list, vertex_num);
    let below_e = each_below(erasure_list, edge_num);
    require(below_d && below_e, Refusal::NumberOutOfRange)
}

// Makes the vertices of one list the defects and the edges of the other the erasures.
pub fn set_syndrome(
    vertex_num: u32,
    edge_num: u32,
    defect_list: &[u32],
    erasure_list: &[u32],
    defect: &mut [u8],
    erasure: &mut [u8],
) -> Result<(), Refusal>
    ensures { SetSyndrome vertex_num edge_num
        (syndrome defect_list.now erasure_list.now)
        (syndrome defect.old erasure.old)
        (syndrome defect.new erasure.new)
        result }
{
    set_syndrome_questions(
        vertex_num,
        edge_num,
        defect_list,
        erasure_list,
        defect,
        erasure,
    )?;
    set_marks(defect, vertex_num as usize, defect_list);
    set_marks(erasure, edge_num as usize, erasure_list);
    Ok(())
}

// Questions 6 and 7 of a call that lists bytes: n is their count and `sound` question 7 of it.
fn get_questions(sound: bool, n: u32, column: &[u8], list: &[u32]) -> Result<(), Refusal>
    ensures { question_of result ≡ get_marks_refusal sound n column.now list.now }
{
    let long = two_long(n as usize, column.len(), list.len());
    require(long, Refusal::ShortColumn)?;
    require(
        sound && marks_sound(column, n as usize),
        Refusal::UnsoundColumns,
    )
}

// Lists the bytes that are set, n being their count and `sound` question 7 of it.
#[tactic(auto, using(crate::proofs::Refusals::get_met))]
fn get_named(sound: bool, n: u32, column: &[u8], list: &mut [u32]) -> Result<u32, Refusal>
    ensures { GotMarks sound n column.now list.old list.new result }
{
    get_questions(sound, n, column, list)?;
    Ok(list_set(column, n, list))
}

// The defects, ascending.
pub fn get_defect_vertices(vertex_num: u32, defect: &[u8], list: &mut [u32]) -> Result<u32, Refusal>
    ensures { GotMarks (vertex_count_sound vertex_num) vertex_num defect.now list.old list.new result }
{
    get_named(vertex_count_sound(vertex_num), vertex_num, defect, list)
}

// The erasures, ascending.
pub fn get_erasures(edge_num: u32, erasure: &[u8], list: &mut [u32]) -> Result<u32, Refusal>
    ensures { GotMarks (edge_count_sound edge_num) edge_num erasure.now list.old list.new result }
{
    get_named(edge_count_sound(edge_num), edge_num, erasure, list)
}

// Questions 6 and 7 of get_syndrome.
fn get_syndrome_questions(
    vertex_num: u32,
    edge_num: u32,
    defect: &[u8],
    erasure: &[u8],
    defect_list: &[u32],
    erasure_list: &[u32],
) -> Result<(), Refusal>
    ensures { question_of result ≡ get_syndrome_refusal vertex_num edge_num
        (syndrome defect.now erasure.now)
        (syndrome defect_list.now erasure_list.now) }
{
    let n = vertex_num as usize;
    let e = edge_num as usize;
    let defects = two_long(n, defect.len(), defect_list.len());
    let erasures = two_long(e, erasure.len(), erasure_list.len());
    require(defects && erasures, Refusal::ShortColumn)?;
    let counts = counts_sound(vertex_num, edge_num);
    let marks = marks_sound(defect, n) && marks_sound(erasure, e);
    require(counts && marks, Refusal::UnsoundColumns)
}

// The defects and the erasures, each ascending.
pub fn get_syndrome(
    vertex_num: u32,
    edge_num: u32,
    defect: &[u8],
    erasure: &[u8],
    defect_list: &mut [u32],
    erasure_list: &mut [u32],
) -> Result<SyndromeLengths, Refusal>
    ensures { GotSyndrome vertex_num edge_num
        (syndrome defect.now erasure.now)
        (syndrome defect_list.old erasure_list.old)
        (syndrome defect_list.new erasure_list.new)
        result }
{
    get_syndrome_questions(
        vertex_num,
        edge_num,
        defect,
        erasure,
        defect_list,
        erasure_list,
    )?;
    let defects = list_set(defect, vertex_num, defect_list);
    let erasures = list_set(erasure, edge_num, erasure_list);
    Ok(SyndromeLengths { defects, erasures })
}
