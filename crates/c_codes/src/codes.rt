ghost use Rattle.c_reports.specs.Reports.{Reported};
ghost use Rattle.c_codes.specs.Reports.{ReportsCreated};
ghost use Rattle.codes_calls.specs.CreateCode.{CreateCode};
ghost use Rattle.codes_calls.specs.Columns.{code_in};

use super::reports::created_report;
use c_reports::TwoCounts;
use columns::Weight;

// Builds a code: questions 2 to 6, then every column's first places.
#[unsafe(no_mangle)]
pub extern "C" fn moldingcress_create_code(
    kind: u32,
    d: u32,
    rounds: u32,
    ends_a: &mut [u32],
    ends_b: &mut [u32],
    p: &mut [f64],
    pe: &mut [f64],
    half_weight: &mut [Weight],
    erasure: &mut [u8],
    pos_i: &mut [f64],
    pos_j: &mut [f64],
    pos_t: &mut [f64],
    boundary: &mut [u8],
    defect: &mut [u8],
    list_lengths: &mut [u32],
    neighbor_numbers: &mut [u32],
) -> TwoCounts
    ensures { Reported ReportsCreated (λ r. CreateCode kind d rounds
        (code_in ends_a.old ends_b.old p.old pe.old half_weight.old erasure.old pos_i.old pos_j.old pos_t.old boundary.old defect.old list_lengths.old neighbor_numbers.old)
        (code_in ends_a.new ends_b.new p.new pe.new half_weight.new erasure.new pos_i.new pos_j.new pos_t.new boundary.new defect.new list_lengths.new neighbor_numbers.new)
        r) result }
{
    created_report(codes_calls::create::create_code(
        kind,
        d,
        rounds,
        ends_a,
        ends_b,
        p,
        pe,
        half_weight,
        erasure,
        pos_i,
        pos_j,
        pos_t,
        boundary,
        defect,
        list_lengths,
        neighbor_numbers,
    ))
}
