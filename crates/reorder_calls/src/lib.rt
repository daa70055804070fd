// Vertices in another order: old numbers and new ones, and every column moved.
#![tactic(auto)]

mod lists;

ghost use Rattle.std.specs.Prelude.{◌≡◌, true, ◌≤◌};
ghost use Rattle.columns.specs.Refusals.{question_of};
ghost use Rattle.reorder_calls.specs.Columns.{reorder_long, reorder_sound, order_refusal, reorder_refusal, ReorderedVertices, reorder_in};
ghost use Rattle.reorder_calls.specs.Numbers.{build_refusal, BuiltOldToNew, translate_refusal, TranslatedDefects};

use columns::VERTEX_LIMIT;
use columns::questions::{each_below, marks_sound};
use columns::refusal::{Refusal, require};
use columns_room::{code_sound, lists_long, three_long, two_long};
use lists::move_lists;
use reorder_columns::{move_positions, move_u8, move_u32};
use reorder_orders::{order_questions, place_numbers, rename_ends, translate};

// Questions 6, 11, 13 and 14 of build_old_to_new.
#[tactic(auto, unfolding(crate::specs::Numbers::build_refusal))]
fn build_questions(order: &[u32], column: &[u32]) -> Result<(), Refusal>
    ensures { question_of result ≡ build_refusal order.now column.now }
{
    let n = order.len();
    require(n <= column.len(), Refusal::ShortColumn)?;
    require(n <= VERTEX_LIMIT as usize, Refusal::OrderLength)?;
    order_questions(each_below(order, n as u32), order)
}

// Stores the new number of each old vertex.
pub fn build_old_to_new(order: &[u32], column: &mut [u32]) -> Result<(), Refusal>
    ensures { BuiltOldToNew order.now column.old result column.new }
{
    build_questions(order, column)?;
    place_numbers(order, column);
    Ok(())
}

// Questions 6, 11, 13 and 14 of translated_defect_to_reordered.
#[tactic(auto, unfolding(crate::specs::Numbers::translate_refusal))]
fn translate_questions(order: &[u32], list: &[u32], column: &[u32]) -> Result<(), Refusal>
    ensures { question_of result ≡ translate_refusal order.now list.now column.now }
{
    let n = order.len();
    require(list.len() <= column.len(), Refusal::ShortColumn)?;
    require(n <= VERTEX_LIMIT as usize, Refusal::OrderLength)?;
    let named = each_below(order, n as u32) && each_below(list, n as u32);
    order_questions(named, order)
}

// Stores the new number of each listed old vertex, in the list's order; answers how many.
pub fn translated_defect_to_reordered(
    order: &[u32],
    list: &[u32],
    column: &mut [u32],
) -> Result<usize, Refusal>
    ensures { TranslatedDefects order.now list.now column.old result column.new }
{
    translate_questions(order, list, column)?;
    translate(order, list, column);
    Ok(list.len())
}

// Question 6, of ends, vertex columns, positions and neighbour lists.
#[tactic(auto, unfolding(crate::specs::Columns::reorder_long))]
fn columns_long(
    vertex_num: u32,
    edge_num: u32,
    ends_a: &[u32],
    ends_b: &[u32],
    boundary: &[u8],
    defect: &[u8],
    pos_i: &[f64],
    pos_j: &[f64],
    pos_t: &[f64],
    list_lengths: &[u32],
    neighbor_numbers: &[u32],
    scratch: &[u32],
) -> bool
    ensures { result ≡ reorder_long vertex_num edge_num (reorder_in ends_a.now ends_b.now boundary.now defect.now pos_i.now pos_j.now pos_t.now list_lengths.now neighbor_numbers.now scratch.now) }
{
    let n = vertex_num as usize;
    let ends = two_long(edge_num as usize, ends_a.len(), ends_b.len());
    let vertices = three_long(n, boundary.len(), defect.len(), list_lengths.len());
    let positions = three_long(n, pos_i.len(), pos_j.len(), pos_t.len());
    let lists = lists_long(vertex_num, edge_num, list_lengths, neighbor_numbers);
    let copies = lists_long(vertex_num, edge_num, list_lengths, scratch);
    ends && vertices && positions && lists && copies
}

// Question 7, of counts, ends, boundary and defect bytes.
#[tactic(auto, unfolding(crate::specs::Columns::reorder_sound))]
fn columns_sound(
    vertex_num: u32,
    edge_num: u32,
    ends_a: &[u32],
    ends_b: &[u32],
    boundary: &[u8],
    defect: &[u8],
) -> bool
    ensures { result ≡ reorder_sound vertex_num edge_num ends_a.now ends_b.now boundary.now defect.now }
{
    code_sound(vertex_num, edge_num, ends_a, ends_b, boundary)
        && marks_sound(defect, vertex_num as usize)
}

// Questions 11, 13 and 14, of an order for at most 4,096 vertices.
#[tactic(auto, unfolding(crate::specs::Columns::order_refusal))]
fn vertex_order_questions(vertex_num: u32, order: &[u32]) -> Result<(), Refusal>
    requires { vertex_num ≤ 4096 }
    ensures { question_of result ≡ order_refusal vertex_num order.now }
{
    require(order.len() == vertex_num as usize, Refusal::OrderLength)?;
    order_questions(each_below(order, vertex_num), order)
}

// Questions 6, 7, 11, 13 and 14 of reorder_vertices.
#[tactic(auto, unfolding(crate::specs::Columns::reorder_refusal))]
fn reorder_questions(
    vertex_num: u32,
    edge_num: u32,
    order: &[u32],
    ends_a: &[u32],
    ends_b: &[u32],
    boundary: &[u8],
    defect: &[u8],
    pos_i: &[f64],
    pos_j: &[f64],
    pos_t: &[f64],
    list_lengths: &[u32],
    neighbor_numbers: &[u32],
    scratch: &[u32],
) -> Result<(), Refusal>
    ensures { question_of result ≡ reorder_refusal vertex_num edge_num order.now (reorder_in ends_a.now ends_b.now boundary.now defect.now pos_i.now pos_j.now pos_t.now list_lengths.now neighbor_numbers.now scratch.now) }
{
    let long = columns_long(
        vertex_num,
        edge_num,
        ends_a,
        ends_b,
        boundary,
        defect,
        pos_i,
        pos_j,
        pos_t,
        list_lengths,
        neighbor_numbers,
        scratch,
    );
    require(long, Refusal::ShortColumn)?;
    let sound = columns_sound(vertex_num, edge_num, ends_a, ends_b, boundary, defect);
    require(sound, Refusal::UnsoundColumns)?;
    vertex_order_questions(vertex_num, order)
}

// Renumbers the vertices: new vertex k is the old vertex that the order names at place k. What belongs to a vertex moves with it, edge ends are renamed.
pub fn reorder_vertices(
    vertex_num: u32,
    edge_num: u32,
    order: &[u32],
    ends_a: &mut [u32],
    ends_b: &mut [u32],
    boundary: &mut [u8],
    defect: &mut [u8],
    pos_i: &mut [f64],
    pos_j: &mut [f64],
    pos_t: &mut [f64],
    list_lengths: &mut [u32],
    neighbor_numbers: &mut [u32],
    scratch: &mut [u32],
) -> Result<(), Refusal>
    ensures { ReorderedVertices vertex_num edge_num order.now
        (reorder_in ends_a.old ends_b.old boundary.old defect.old pos_i.old pos_j.old pos_t.old list_lengths.old neighbor_numbers.old scratch.old)
        result
        (reorder_in ends_a.new ends_b.new boundary.new defect.new pos_i.new pos_j.new pos_t.new list_lengths.new neighbor_numbers.new scratch.new) }
{
    reorder_questions(
        vertex_num,
        edge_num,
        order,
        ends_a,
        ends_b,
        boundary,
        defect,
        pos_i,
        pos_j,
        pos_t,
        list_lengths,
        neighbor_numbers,
        scratch,
    )?;
    rename_ends(order, ends_a, ends_b, edge_num as usize);
    move_u8(order, boundary);
    move_u8(order, defect);
    move_positions(order, pos_i, pos_j, pos_t);
    move_lists(order, list_lengths, neighbor_numbers, scratch);
    move_u32(order, list_lengths);
    Ok(())
}
