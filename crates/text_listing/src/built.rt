// The listing of a built code: its weights, its crossing, its text.
ghost use Rattle.std.specs.Prelude.{◌≡◌, ◌≤◌, length};
ghost use Rattle.text_numbers.specs.Steps.{Put};
ghost use Rattle.text_listing.specs.Listing.{listing_of};
ghost use Rattle.text_listing.specs.Steps.{HoldsCode, HoldsWeights, ScratchRoom, Replied, reply_text};
ghost use Rattle.query_questions.specs.Scratch.{scratch_in, scratch_lengths};

use access_vertices::weights::store_weights;
use columns::refusal::Refusal;
use columns::{TableWeight, Weight};
use engine_columns::EngineCounts;
use query_crossings::crossing;
use text_numbers::lines::{GraphLine, write_listing, write_refusal};

// What a code is built from.
#[derive(Clone, Copy)]
pub struct CodeArguments {
    pub kind: u32,
    pub d: u32,
    pub rounds: u32,
    pub probability: f64,
    pub max: Weight,
}

// The crossing of a built code under these weights; the columns from `out_weight` on are scratch here.
fn crossing_in(
    code: CodeArguments,
    v: u32,
    e: u32,
    ends_a: &[u32],
    ends_b: &[u32],
    weights: &[Weight],
    boundary: &[u8],
    out_weight: &mut [TableWeight],
    neighbor_numbers: &mut [u32],
    list_ends: &mut [u32],
    status: &mut [u8],
    weight: &mut [Weight],
    previous: &mut [u32],
    node: &mut [u64],
    leaf: &mut [u64],
) -> Result<Weight, Refusal>
    requires holds_weights { HoldsWeights code.kind code.d code.rounds code.probability code.max v e ends_a.now ends_b.now weights.now boundary.now }
    requires scratch_room { ScratchRoom (length out_weight.old) (scratch_lengths (scratch_in neighbor_numbers.old list_ends.old status.old weight.old previous.old node.old leaf.old)) }
    ensures { Replied code.kind code.d code.rounds code.probability code.max result }
{
    let log_edges = [0u32; 1];
    let log_weights: [Weight; 1] = [0; 1];
    let c = EngineCounts {
        vertices: v,
        edges: e,
        entries: 0,
    };
    crossing(
        c,
        ends_a,
        ends_b,
        weights,
        boundary,
        &log_edges,
        &log_weights,
        out_weight,
        neighbor_numbers,
        list_ends,
        status,
        weight,
        previous,
        node,
        leaf,
    )
}

// The same with scratch of its own.
fn crossing_of(
    code: CodeArguments,
    v: u32,
    e: u32,
    ends_a: &[u32],
    ends_b: &[u32],
    weights: &[Weight],
    boundary: &[u8],
) -> Result<Weight, Refusal>
    requires { HoldsWeights code.kind code.d code.rounds code.probability code.max v e ends_a.now ends_b.now weights.now boundary.now }
    ensures { Replied code.kind code.d code.rounds code.probability code.max result }
{
    let mut out_weight: [TableWeight; 1024] = [0; 1024];
    let mut neighbor_numbers = [0u32; 12288];
    let mut list_ends = [0u32; 1024];
    let mut status = [0u8; 1024];
    let mut weight: [Weight; 1024] = [0; 1024];
    let mut previous = [0u32; 1024];
    let mut node = [0u64; 1024];
    let mut leaf = [0u64; 1024];
    crossing_in(
        code,
        v,
        e,
        ends_a,
        ends_b,
        weights,
        boundary,
        &mut out_weight,
        &mut neighbor_numbers,
        &mut list_ends,
        &mut status,
        &mut weight,
        &mut previous,
        &mut node,
        &mut leaf,
    )
}

// The listing, or the number that the crossing is refused with.
fn write_reply(
    reply: Result<Weight, Refusal>,
    code: CodeArguments,
    v: u32,
    e: u32,
    ends_a: &[u32],
    ends_b: &[u32],
    weights: &[Weight],
    boundary: &[u8],
    text: &mut [u8],
) -> usize
    requires v_bound { (v ≤ 1024) × (v ≤ length boundary.now) × (e ≤ 6144) × (e ≤ length ends_a.now) × (e ≤ length ends_b.now) }
    requires e_in_bounds { e ≤ length weights.now }
    requires reply_in_bounds { length (reply_text code.kind code.d code.rounds v e boundary.now ends_a.now ends_b.now weights.now reply) ≤ length text.old }
    ensures { Put text.old 0 (reply_text code.kind code.d code.rounds v e boundary.now ends_a.now ends_b.now weights.now reply) text.new result }
{
    match reply {
        Err(refusal) => write_refusal(text, u32::from(refusal)),
        Ok(weight) => write_listing(
            text,
            GraphLine {
                kind: code.kind,
                d: code.d,
                rounds: code.rounds,
                vertices: v,
                edges: e,
            },
            boundary,
            ends_a,
            ends_b,
            weights,
            weight,
        ),
    }
}

// The text of a built code, over a column for its weights.
fn write_weighed(
    code: CodeArguments,
    v: u32,
    e: u32,
    ends_a: &[u32],
    ends_b: &[u32],
    half_weight: &[Weight],
    boundary: &[u8],
    weights: &mut [Weight],
    text: &mut [u8],
) -> usize
    requires holds_code { HoldsCode code.kind code.d code.rounds code.probability code.max v e ends_a.now ends_b.now half_weight.now boundary.now }
    requires weights_len { length weights.old ≡ 6144 }
    requires max_in_bounds { length (listing_of code.kind code.d code.rounds code.probability code.max) ≤ length text.old }
    ensures { Put text.old 0 (listing_of code.kind code.d code.rounds code.probability code.max) text.new result }
{
    store_weights(half_weight, e as usize, weights);
    let reply = crossing_of(code, v, e, ends_a, ends_b, weights, boundary);
    write_reply(reply, code, v, e, ends_a, ends_b, weights, boundary, text)
}

// The text of a built code.
pub fn write_built(
    code: CodeArguments,
    v: u32,
    e: u32,
    ends_a: &[u32],
    ends_b: &[u32],
    half_weight: &[Weight],
    boundary: &[u8],
    text: &mut [u8],
) -> usize
    requires holds_code { HoldsCode code.kind code.d code.rounds code.probability code.max v e ends_a.now ends_b.now half_weight.now boundary.now }
    requires max_in_bounds { length (listing_of code.kind code.d code.rounds code.probability code.max) ≤ length text.old }
    ensures { Put text.old 0 (listing_of code.kind code.d code.rounds code.probability code.max) text.new result }
{
    let mut weights: [Weight; 6144] = [0; 6144];
    write_weighed(
        code,
        v,
        e,
        ends_a,
        ends_b,
        half_weight,
        boundary,
        &mut weights,
        text,
    )
}
