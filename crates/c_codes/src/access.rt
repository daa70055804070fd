ghost use Rattle.c_reports.specs.Reports.{Reported, ReportsNumber, ReportsCount, ReportsLengths};
ghost use Rattle.c_codes.specs.Reports.{ReportsTruth};
ghost use Rattle.access_vertices.specs.Positions.{positions, GotPositions};
ghost use Rattle.access_calls.specs.Calls.{code, initializer, GotInitializer, SetMarks, syndrome, SetSyndrome, GotMarks, GotSyndrome};
ghost use Rattle.access_vertices.specs.Marked.{IsMarked};
ghost use Rattle.columns.specs.Questions.{vertex_count_sound, edge_count_sound, boundaries_sound, marks_sound};

use super::reports::{TruthReport, truth_report};
use c_reports::{OneCount, TwoCounts, count_report, lengths_report, number_of};
use columns::{VertexIndex, Weight};

// Copies the position of every vertex.
#[unsafe(no_mangle)]
pub extern "C" fn moldingcress_get_positions(
    vertex_num: u32,
    pos_i: &[f64],
    pos_j: &[f64],
    pos_t: &[f64],
    to_i: &mut [f64],
    to_j: &mut [f64],
    to_t: &mut [f64],
) -> u32
    ensures { Reported ReportsNumber (λ r. GotPositions vertex_num
        (positions pos_i.now pos_j.now pos_t.now)
        (positions to_i.old to_j.old to_t.old)
        (positions to_i.new to_j.new to_t.new)
        r) result }
{
    number_of(access_calls::get_positions(vertex_num, pos_i, pos_j, pos_t, to_i, to_j, to_t))
}

// The ends and the weight of every edge, and the virtual vertices, ascending. How many virtual vertices there are.
#[unsafe(no_mangle)]
pub extern "C" fn moldingcress_get_initializer(
    vertex_num: u32,
    edge_num: u32,
    ends_a: &[u32],
    ends_b: &[u32],
    half_weight: &[Weight],
    boundary: &[u8],
    to_a: &mut [u32],
    to_b: &mut [u32],
    to_weight: &mut [Weight],
    to_virtual: &mut [u32],
) -> OneCount
    ensures { Reported ReportsCount (λ r. GotInitializer vertex_num edge_num
        (code ends_a.now ends_b.now half_weight.now boundary.now)
        (initializer to_a.old to_b.old to_weight.old to_virtual.old)
        (initializer to_a.new to_b.new to_weight.new to_virtual.new)
        r) result }
{
    count_report(access_calls::get_initializer(
        vertex_num,
        edge_num,
        ends_a,
        ends_b,
        half_weight,
        boundary,
        to_a,
        to_b,
        to_weight,
        to_virtual,
    ))
}

// Makes the vertices of the list the defects.
#[unsafe(no_mangle)]
pub extern "C" fn moldingcress_set_defect_vertices(
    vertex_num: u32,
    list: &[u32],
    defect: &mut [u8],
) -> u32
    ensures { Reported ReportsNumber (λ r. SetMarks (vertex_count_sound vertex_num) vertex_num list.now defect.old defect.new r) result }
{
    number_of(access_calls::set_defect_vertices(vertex_num, list, defect))
}

// Makes the edges of the list the erasures.
#[unsafe(no_mangle)]
pub extern "C" fn moldingcress_set_erasures(edge_num: u32, list: &[u32], erasure: &mut [u8]) -> u32
    ensures { Reported ReportsNumber (λ r. SetMarks (edge_count_sound edge_num) edge_num list.now erasure.old erasure.new r) result }
{
    number_of(access_calls::set_erasures(edge_num, list, erasure))
}

// Makes the vertices of one list the defects and the edges of the other the erasures.
#[unsafe(no_mangle)]
pub extern "C" fn moldingcress_set_syndrome(
    vertex_num: u32,
    edge_num: u32,
    defect_list: &[u32],
    erasure_list: &[u32],
    defect: &mut [u8],
    erasure: &mut [u8],
) -> u32
    ensures { Reported ReportsNumber (λ r. SetSyndrome vertex_num edge_num
        (syndrome defect_list.now erasure_list.now)
        (syndrome defect.old erasure.old)
        (syndrome defect.new erasure.new)
        r) result }
{
    number_of(access_calls::set_syndrome(
        vertex_num,
        edge_num,
        defect_list,
        erasure_list,
        defect,
        erasure,
    ))
}

// The defects, ascending.
#[unsafe(no_mangle)]
pub extern "C" fn moldingcress_get_defect_vertices(
    vertex_num: u32,
    defect: &[u8],
    list: &mut [u32],
) -> OneCount
    ensures { Reported ReportsCount (λ r. GotMarks (vertex_count_sound vertex_num) vertex_num defect.now list.old list.new r) result }
{
    count_report(access_calls::get_defect_vertices(vertex_num, defect, list))
}

// The erasures, ascending.
#[unsafe(no_mangle)]
pub extern "C" fn moldingcress_get_erasures(
    edge_num: u32,
    erasure: &[u8],
    list: &mut [u32],
) -> OneCount
    ensures { Reported ReportsCount (λ r. GotMarks (edge_count_sound edge_num) edge_num erasure.now list.old list.new r) result }
{
    count_report(access_calls::get_erasures(edge_num, erasure, list))
}

// The defects and the erasures, each ascending.
#[unsafe(no_mangle)]
pub extern "C" fn moldingcress_get_syndrome(
    vertex_num: u32,
    edge_num: u32,
    defect: &[u8],
    erasure: &[u8],
    defect_list: &mut [u32],
    erasure_list: &mut [u32],
) -> TwoCounts
    ensures { Reported ReportsLengths (λ r. GotSyndrome vertex_num edge_num
        (syndrome defect.now erasure.now)
        (syndrome defect_list.old erasure_list.old)
        (syndrome defect_list.new erasure_list.new)
        r) result }
{
    lengths_report(access_calls::get_syndrome(
        vertex_num,
        edge_num,
        defect,
        erasure,
        defect_list,
        erasure_list,
    ))
}

// Whether a vertex is virtual.
#[unsafe(no_mangle)]
pub extern "C" fn moldingcress_is_virtual(
    vertex_num: u32,
    boundary: &[u8],
    vertex: u32,
) -> TruthReport
    ensures { Reported ReportsTruth (IsMarked (boundaries_sound vertex_num boundary.now) vertex_num boundary.now vertex) result }
{
    truth_report(access_calls::is_virtual(vertex_num, boundary, VertexIndex(vertex)))
}

// Whether a vertex is a defect.
#[unsafe(no_mangle)]
pub extern "C" fn moldingcress_is_defect(vertex_num: u32, defect: &[u8], vertex: u32) -> TruthReport
    ensures { Reported ReportsTruth (IsMarked (marks_sound vertex_num defect.now) vertex_num defect.now vertex) result }
{
    truth_report(access_calls::is_defect(vertex_num, defect, VertexIndex(vertex)))
}
