ghost use Rattle.c_reports.specs.Reports.{Reported, ReportsNumber};
ghost use Rattle.access_calls.specs.Fill.{FilledVertices, vertices_in};

use c_reports::number_of;

// New vertices for the edges: at position 0, inner, without defect, with their neighbour lists.
#[unsafe(no_mangle)]
pub extern "C" fn moldingcress_fill_vertices(
    vertex_num: u32,
    edge_num: u32,
    ends_a: &[u32],
    ends_b: &[u32],
    pos_i: &mut [f64],
    pos_j: &mut [f64],
    pos_t: &mut [f64],
    boundary: &mut [u8],
    defect: &mut [u8],
    list_lengths: &mut [u32],
    neighbor_numbers: &mut [u32],
) -> u32
    ensures { Reported ReportsNumber (λ r. FilledVertices vertex_num edge_num ends_a.now ends_b.now
        (vertices_in pos_i.old pos_j.old pos_t.old boundary.old defect.old list_lengths.old neighbor_numbers.old)
        (vertices_in pos_i.new pos_j.new pos_t.new boundary.new defect.new list_lengths.new neighbor_numbers.new)
        r) result }
{
    number_of(access_calls::fill::fill_vertices(
        vertex_num,
        edge_num,
        ends_a,
        ends_b,
        pos_i,
        pos_j,
        pos_t,
        boundary,
        defect,
        list_lengths,
        neighbor_numbers,
    ))
}
