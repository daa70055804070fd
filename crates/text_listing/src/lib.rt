// What `codelist` prints for a code.
#![tactic(auto)]

mod built;

ghost use Rattle.std.specs.Prelude.{◌≤◌, length};
ghost use Rattle.text_numbers.specs.Steps.{Put};
ghost use Rattle.text_listing.specs.Listing.{code_text};
ghost use Rattle.text_listing.specs.Claims.{EveryCodeCrosses};
ghost use Rattle.text_listing.specs.Steps.{MadeHolds, made_text};

pub use built::CodeArguments;
use built::write_built;
use codes_calls::CodeCounts;
use codes_calls::weighted::new;
use columns::Weight;
use columns::refusal::Refusal;
use text_numbers::lines::write_refusal;

// The text for what `new` answers.
fn write_made(
    made: Result<CodeCounts, Refusal>,
    code: CodeArguments,
    ends_a: &[u32],
    ends_b: &[u32],
    half_weight: &[Weight],
    boundary: &[u8],
    text: &mut [u8],
) -> usize
    requires made_holds { MadeHolds code.kind code.d code.rounds code.probability code.max ends_a.now ends_b.now half_weight.now boundary.now made }
    requires made_in_bounds { length (made_text code.kind code.d code.rounds code.probability code.max made) ≤ length text.old }
    ensures { Put text.old 0 (made_text code.kind code.d code.rounds code.probability code.max made) text.new result }
{
    match made {
        Err(refusal) => write_refusal(text, u32::from(refusal)),
        Ok(counts) => write_built(
            code,
            counts.vertices,
            counts.edges,
            ends_a,
            ends_b,
            half_weight,
            boundary,
            text,
        ),
    }
}

// The text for a code, over columns for 1,024 vertices. The text column has to have room for all of it.
pub fn write_code(code: CodeArguments, text: &mut [u8]) -> usize
    requires { length (code_text code.kind code.d code.rounds code.probability code.max) ≤ length text.old }
    ensures { Put text.old 0 (code_text code.kind code.d code.rounds code.probability code.max) text.new result }
{
    let mut ends_a = [0u32; 6144];
    let mut ends_b = [0u32; 6144];
    let mut p = [0.0f64; 6144];
    let mut pe = [0.0f64; 6144];
    let mut half_weight: [Weight; 6144] = [0; 6144];
    let mut erasure = [0u8; 6144];
    let mut pos_i = [0.0f64; 1024];
    let mut pos_j = [0.0f64; 1024];
    let mut pos_t = [0.0f64; 1024];
    let mut boundary = [0u8; 1024];
    let mut defect = [0u8; 1024];
    let mut list_lengths = [0u32; 1024];
    let mut neighbor_numbers = [0u32; 12288];
    let made = new(
        code.kind,
        code.d,
        code.rounds,
        code.probability,
        code.max,
        &mut ends_a,
        &mut ends_b,
        &mut p,
        &mut pe,
        &mut half_weight,
        &mut erasure,
        &mut pos_i,
        &mut pos_j,
        &mut pos_t,
        &mut boundary,
        &mut defect,
        &mut list_lengths,
        &mut neighbor_numbers,
    );
    write_made(made, code, &ends_a, &ends_b, &half_weight, &boundary, text)
}

// Every code has a crossing weight, so 18 is never printed.
pub fn every_code_crosses()
    ensures { EveryCodeCrosses }
{}
