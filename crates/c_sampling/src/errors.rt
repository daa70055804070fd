ghost use Rattle.c_reports.specs.Reports.{Reported, ReportsNumber, ReportsCount, ReportsLengths};
ghost use Rattle.sampling_calls.specs.Errors.{GeneratedErrors};
ghost use Rattle.sampling_clear.specs.Clear.{ClearedErrors};
ghost use Rattle.columns_room.specs.Graph.{code_graph};
ghost use Rattle.sampling_calls.specs.Records.{syndrome_columns};
ghost use Rattle.sampling_calls.specs.Sampling.{GeneratedRandomErrors};
ghost use Rattle.sampling_calls.specs.Syndrome.{FoundSyndrome};

use c_reports::{OneCount, TwoCounts, count_report, lengths_report, number_of};

// Two draws of the seeded generator for every edge: its erasure, then its error; standing defects are cleared first. Lists the defects and the erasures.
#[unsafe(no_mangle)]
pub extern "C" fn moldingcress_generate_random_errors(
    seed: u64,
    vertex_num: u32,
    edge_num: u32,
    ends_a: &[u32],
    ends_b: &[u32],
    p: &[f64],
    pe: &[f64],
    boundary: &[u8],
    defect: &mut [u8],
    erasure: &mut [u8],
    defect_list: &mut [u32],
    erasure_list: &mut [u32],
) -> TwoCounts
    ensures { Reported ReportsLengths (λ r. GeneratedRandomErrors seed (code_graph vertex_num edge_num ends_a.now ends_b.now boundary.now) p.now pe.now
        (syndrome_columns defect.old erasure.old defect_list.old erasure_list.old)
        r
        (syndrome_columns defect.new erasure.new defect_list.new erasure_list.new)) result }
{
    lengths_report(sampling_calls::generate_random_errors(
        seed,
        vertex_num,
        edge_num,
        ends_a,
        ends_b,
        p,
        pe,
        boundary,
        defect,
        erasure,
        defect_list,
        erasure_list,
    ))
}

// An error on each listed edge, over the standing defects; lists the defects and the erasures.
#[unsafe(no_mangle)]
pub extern "C" fn moldingcress_generate_errors(
    vertex_num: u32,
    edge_num: u32,
    ends_a: &[u32],
    ends_b: &[u32],
    boundary: &[u8],
    list: &[u32],
    defect: &mut [u8],
    erasure: &[u8],
    defect_list: &mut [u32],
    erasure_list: &mut [u32],
) -> TwoCounts
    ensures { Reported ReportsLengths (λ r. GeneratedErrors (code_graph vertex_num edge_num ends_a.now ends_b.now boundary.now) list.now
        (syndrome_columns defect.old erasure.now defect_list.old erasure_list.old)
        r
        (syndrome_columns defect.new erasure.now defect_list.new erasure_list.new)) result }
{
    lengths_report(sampling_calls::generate_errors(
        vertex_num,
        edge_num,
        ends_a,
        ends_b,
        boundary,
        list,
        defect,
        erasure,
        defect_list,
        erasure_list,
    ))
}

// Clears every defect, and sets every erasure byte to 1.
#[unsafe(no_mangle)]
pub extern "C" fn moldingcress_clear_errors(
    vertex_num: u32,
    edge_num: u32,
    defect: &mut [u8],
    erasure: &mut [u8],
) -> u32
    ensures { Reported ReportsNumber (λ r. ClearedErrors vertex_num edge_num defect.old erasure.old r defect.new erasure.new) result }
{
    number_of(sampling_calls::clear_errors(vertex_num, edge_num, defect, erasure))
}

// Lists the inner vertices where an odd number of ends of the listed edges are.
#[unsafe(no_mangle)]
pub extern "C" fn moldingcress_syndrome_of(
    vertex_num: u32,
    edge_num: u32,
    ends_a: &[u32],
    ends_b: &[u32],
    boundary: &[u8],
    list: &[u32],
    defect_list: &mut [u32],
) -> OneCount
    ensures { Reported ReportsCount (λ r. FoundSyndrome (code_graph vertex_num edge_num ends_a.now ends_b.now boundary.now) list.now defect_list.old r defect_list.new) result }
{
    count_report(sampling_calls::syndrome_of(
        vertex_num,
        edge_num,
        ends_a,
        ends_b,
        boundary,
        list,
        defect_list,
    ))
}
