ghost use Rattle.c_reports.specs.Reports.{Reported};
ghost use Rattle.c_codes.specs.Reports.{ReportsVerdict};
ghost use Rattle.sanity_verdicts.specs.Sanity.{SanityChecked};

use super::reports::{VerdictReport, verdict_report};

// The first thing wrong with a graph: no vertices or no edges, two edges that join one pair, a vertex without edges, an edge twice at a vertex.
#[unsafe(no_mangle)]
pub extern "C" fn moldingcress_sanity_check(
    vertex_num: u32,
    edge_num: u32,
    ends_a: &[u32],
    ends_b: &[u32],
    list_lengths: &[u32],
    neighbor_numbers: &[u32],
) -> VerdictReport
    ensures { Reported ReportsVerdict (λ r. SanityChecked vertex_num edge_num ends_a.now ends_b.now list_lengths.now neighbor_numbers.now r) result }
{
    verdict_report(sanity_calls::sanity::sanity_check(
        vertex_num,
        edge_num,
        ends_a,
        ends_b,
        list_lengths,
        neighbor_numbers,
    ))
}
