ghost use Rattle.c_reports.specs.Reports.{Reported, ReportsNumber};
ghost use Rattle.c_reports.specs.Errors.{ReportsTranslated};
ghost use Rattle.reorder_calls.specs.Columns.{ReorderedVertices, reorder_in};
ghost use Rattle.reorder_calls.specs.Numbers.{BuiltOldToNew, TranslatedDefects};

use c_reports::errors::{LongCount, translated_report};
use c_reports::number_of;

// Stores the new number of each old vertex.
#[unsafe(no_mangle)]
pub extern "C" fn moldingcress_build_old_to_new(order: &[u32], column: &mut [u32]) -> u32
    ensures { Reported ReportsNumber (λ r. BuiltOldToNew order.now column.old r column.new) result }
{
    number_of(reorder_calls::build_old_to_new(order, column))
}

// Stores the new number of each listed old vertex, in the list's order.
#[unsafe(no_mangle)]
pub extern "C" fn moldingcress_translated_defect_to_reordered(
    order: &[u32],
    list: &[u32],
    column: &mut [u32],
) -> LongCount
    ensures { Reported ReportsTranslated (λ r. TranslatedDefects order.now list.now column.old r column.new) result }
{
    translated_report(reorder_calls::translated_defect_to_reordered(order, list, column))
}

// Renumbers the vertices: new vertex k is the old vertex that the order names at place k. What belongs to a vertex moves with it, edge ends are renamed.
#[unsafe(no_mangle)]
pub extern "C" fn moldingcress_reorder_vertices(
    vertex_num: u32,
    edge_num: u32,
    order: &[u32],
    ends_a: &mut [u32],
    ends_b: &mut [u32],
    boundary: &mut [u8],
    defect: &mut [u8],
    pos_i: &mut [f64],
    pos_j: &mut [f64],
    pos_t: &mut [f64],
    list_lengths: &mut [u32],
    neighbor_numbers: &mut [u32],
    scratch: &mut [u32],
) -> u32
    ensures { Reported ReportsNumber (λ r. ReorderedVertices vertex_num edge_num order.now
        (reorder_in ends_a.old ends_b.old boundary.old defect.old pos_i.old pos_j.old pos_t.old list_lengths.old neighbor_numbers.old scratch.old)
        r
        (reorder_in ends_a.new ends_b.new boundary.new defect.new pos_i.new pos_j.new pos_t.new list_lengths.new neighbor_numbers.new scratch.new)) result }
{
    number_of(reorder_calls::reorder_vertices(
        vertex_num,
        edge_num,
        order,
        ends_a,
        ends_b,
        boundary,
        defect,
        pos_i,
        pos_j,
        pos_t,
        list_lengths,
        neighbor_numbers,
        scratch,
    ))
}
