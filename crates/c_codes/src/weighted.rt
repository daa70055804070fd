// `new` and `new_diagonal` for C and Rust: slices as pointer and length, answers as structs of numbers.
ghost use Rattle.std.specs.Prelude.{◌≡◌};
ghost use Rattle.codes_calls.specs.NewCode.{NewCode, NewDiagonal};
ghost use Rattle.c_reports.specs.Reports.{Reported};
ghost use Rattle.c_codes.specs.Reports.{ReportsCreated};
ghost use Rattle.c_codes.specs.Arguments.{diagonal_from};
ghost use Rattle.codes_calls.specs.Columns.{code_in};

use super::reports::created_report;
use c_reports::TwoCounts;
use columns::Weight;

// The diagonal probability, if there is one: any byte but 0 says so. C has no Option.
fn diagonal_from(has_diagonal: u8, diagonal: f64) -> Option<f64>
    ensures { result ≡ diagonal_from has_diagonal diagonal }
{
    if has_diagonal == 0 {
        return None;
    }
    Some(diagonal)
}

// Builds a code with probability p at every edge, and p/3 at the diagonal edges of kind 4.
#[unsafe(no_mangle)]
pub extern "C" fn moldingcress_new(
    kind: u32,
    d: u32,
    rounds: u32,
    probability: f64,
    max_half_weight: Weight,
    ends_a: &mut [u32],
    ends_b: &mut [u32],
    p: &mut [f64],
    pe: &mut [f64],
    half_weight: &mut [Weight],
    erasure: &mut [u8],
    pos_i: &mut [f64],
    pos_j: &mut [f64],
    pos_t: &mut [f64],
    boundary: &mut [u8],
    defect: &mut [u8],
    list_lengths: &mut [u32],
    neighbor_numbers: &mut [u32],
) -> TwoCounts
    ensures { Reported ReportsCreated (λ r. NewCode kind d rounds probability max_half_weight
        (code_in ends_a.old ends_b.old p.old pe.old half_weight.old erasure.old pos_i.old pos_j.old pos_t.old boundary.old defect.old list_lengths.old neighbor_numbers.old)
        (code_in ends_a.new ends_b.new p.new pe.new half_weight.new erasure.new pos_i.new pos_j.new pos_t.new boundary.new defect.new list_lengths.new neighbor_numbers.new)
        r) result }
{
    created_report(codes_calls::weighted::new(
        kind,
        d,
        rounds,
        probability,
        max_half_weight,
        ends_a,
        ends_b,
        p,
        pe,
        half_weight,
        erasure,
        pos_i,
        pos_j,
        pos_t,
        boundary,
        defect,
        list_lengths,
        neighbor_numbers,
    ))
}

// Builds a code of kind 4 with probability p at every edge, or the diagonal probability at the diagonal edges where it is given:
// where `has_diagonal` is not 0.
#[unsafe(no_mangle)]
pub extern "C" fn moldingcress_new_diagonal(
    d: u32,
    rounds: u32,
    probability: f64,
    max_half_weight: Weight,
    has_diagonal: u8,
    diagonal: f64,
    ends_a: &mut [u32],
    ends_b: &mut [u32],
    p: &mut [f64],
    pe: &mut [f64],
    half_weight: &mut [Weight],
    erasure: &mut [u8],
    pos_i: &mut [f64],
    pos_j: &mut [f64],
    pos_t: &mut [f64],
    boundary: &mut [u8],
    defect: &mut [u8],
    list_lengths: &mut [u32],
    neighbor_numbers: &mut [u32],
) -> TwoCounts
    ensures { Reported ReportsCreated (λ r. NewDiagonal d rounds probability (diagonal_from has_diagonal diagonal) max_half_weight
        (code_in ends_a.old ends_b.old p.old pe.old half_weight.old erasure.old pos_i.old pos_j.old pos_t.old boundary.old defect.old list_lengths.old neighbor_numbers.old)
        (code_in ends_a.new ends_b.new p.new pe.new half_weight.new erasure.new pos_i.new pos_j.new pos_t.new boundary.new defect.new list_lengths.new neighbor_numbers.new)
        r) result }
{
    created_report(codes_calls::weighted::new_diagonal(
        d,
        rounds,
        probability,
        max_half_weight,
        diagonal_from(has_diagonal, diagonal),
        ends_a,
        ends_b,
        p,
        pe,
        half_weight,
        erasure,
        pos_i,
        pos_j,
        pos_t,
        boundary,
        defect,
        list_lengths,
        neighbor_numbers,
    ))
}
