// Errors on the edges of a code, the defects they leave, and their sampling from a seed.
#![tactic(auto)]

pub mod questions;

ghost use Rattle.std.specs.Prelude.{◌≡◌, ℕ, ◌<◌, ◌≤◌, length, get_or};
ghost use Rattle.columns_room.specs.Graph.{code_graph};
ghost use Rattle.sampling_calls.specs.Records.{syndrome_columns};
ghost use Rattle.columns.specs.Lists.{over};
ghost use Rattle.sampling_calls.specs.Errors.{GeneratedErrors};
ghost use Rattle.sampling_calls.specs.Sampling.{GeneratedRandomErrors};
ghost use Rattle.sampling_calls.specs.Syndrome.{syndrome_of, FoundSyndrome};
ghost use Rattle.sampling_flips.specs.Steps.{Fits};

use columns::refusal::Refusal;
pub use columns_answers::SyndromeLengths;
use columns_marks::list_set;
use columns_stores::fill;
use questions::{errors_refusal, sampling_refusal, syndrome_refusal};
pub use sampling_clear::clear_errors;
use sampling_edges::sample_edges;
use sampling_flips::flip_all;
use sampling_generator::DeterministicRng;

// Two draws of the seeded generator for every edge: its erasure, then its error; standing defects are cleared first. Lists the defects and the erasures.
pub fn generate_random_errors(
    seed: u64,
    vertex_num: u32,
    edge_num: u32,
    ends_a: &[u32],
    ends_b: &[u32],
    p: &[f64],
    pe: &[f64],
    boundary: &[u8],
    defect: &mut [u8],
    erasure: &mut [u8],
    defect_list: &mut [u32],
    erasure_list: &mut [u32],
) -> Result<SyndromeLengths, Refusal>
    ensures { GeneratedRandomErrors seed (code_graph vertex_num edge_num ends_a.now ends_b.now boundary.now) p.now pe.now
        (syndrome_columns defect.old erasure.old defect_list.old erasure_list.old)
        result
        (syndrome_columns defect.new erasure.new defect_list.new erasure_list.new) }
{
    sampling_refusal(
        vertex_num,
        edge_num,
        ends_a,
        ends_b,
        p,
        pe,
        boundary,
        defect,
        erasure,
        defect_list,
        erasure_list,
    )?;
    fill(defect, vertex_num as usize, 0);
    let rng = DeterministicRng::seed_from_u64(seed);
    sample_edges(
        vertex_num, edge_num, ends_a, ends_b, p, pe, boundary, rng, defect, erasure,
    );
    let defects = list_set(defect, vertex_num, defect_list);
    let erasures = list_set(erasure, edge_num, erasure_list);
    Ok(SyndromeLengths { defects, erasures })
}

// An error on each listed edge, over the standing defects; lists the defects and the erasures.
pub fn generate_errors(
    vertex_num: u32,
    edge_num: u32,
    ends_a: &[u32],
    ends_b: &[u32],
    boundary: &[u8],
    list: &[u32],
    defect: &mut [u8],
    erasure: &[u8],
    defect_list: &mut [u32],
    erasure_list: &mut [u32],
) -> Result<SyndromeLengths, Refusal>
    ensures { GeneratedErrors (code_graph vertex_num edge_num ends_a.now ends_b.now boundary.now) list.now
        (syndrome_columns defect.old erasure.now defect_list.old erasure_list.old)
        result
        (syndrome_columns defect.new erasure.now defect_list.new erasure_list.new) }
{
    errors_refusal(
        vertex_num,
        edge_num,
        ends_a,
        ends_b,
        boundary,
        list,
        defect,
        erasure,
        defect_list,
        erasure_list,
    )?;
    flip_all(vertex_num, edge_num, ends_a, ends_b, boundary, list, defect);
    let defects = list_set(defect, vertex_num, defect_list);
    let erasures = list_set(erasure, edge_num, erasure_list);
    Ok(SyndromeLengths { defects, erasures })
}

// The defects of errors on the listed edges; bytes holds 0 alone.
fn collect_defects(
    vertex_num: u32,
    edge_num: u32,
    ends_a: &[u32],
    ends_b: &[u32],
    boundary: &[u8],
    list: &[u32],
    bytes: &mut [u8],
    defect_list: &mut [u32],
) -> u32
    requires fits { Fits vertex_num edge_num ends_a.now ends_b.now boundary.now bytes.old }
    requires by_index { ((i : ℕ) → i < length list.now → get_or list.now i 0 < edge_num) × ((u : ℕ) → get_or bytes.old u 0 ≡ 0) }
    requires vertex_num_in_bounds { (vertex_num ≤ length defect_list.old) × (vertex_num ≤ 32768) }
    ensures value { result ≡ length (syndrome_of (code_graph vertex_num edge_num ends_a.now ends_b.now boundary.now) list.now) }
    ensures defect_list_after { defect_list.new ≡ over (syndrome_of (code_graph vertex_num edge_num ends_a.now ends_b.now boundary.now) list.now) defect_list.old }
{
    flip_all(vertex_num, edge_num, ends_a, ends_b, boundary, list, bytes);
    list_set(bytes, vertex_num, defect_list)
}

// The defects of errors on the listed edges.
fn find_defects(
    vertex_num: u32,
    edge_num: u32,
    ends_a: &[u32],
    ends_b: &[u32],
    boundary: &[u8],
    list: &[u32],
    defect_list: &mut [u32],
) -> u32
    requires vertex_num_bound { (vertex_num ≤ 4096) × (vertex_num ≤ length boundary.now) × (vertex_num ≤ length defect_list.old) }
    requires edge_num_in_bounds { (edge_num ≤ length ends_a.now) × (edge_num ≤ length ends_b.now) }
    requires by_index { ((k : ℕ) → k < edge_num → get_or ends_a.now k 0 < vertex_num) × ((k : ℕ) → k < edge_num → get_or ends_b.now k 0 < vertex_num) }
    requires by_index_2 { (i : ℕ) → i < length list.now → get_or list.now i 0 < edge_num }
    ensures value { result ≡ length (syndrome_of (code_graph vertex_num edge_num ends_a.now ends_b.now boundary.now) list.now) }
    ensures defect_list_after { defect_list.new ≡ over (syndrome_of (code_graph vertex_num edge_num ends_a.now ends_b.now boundary.now) list.now) defect_list.old }
{
    let mut bytes = [0u8; 4096];
    collect_defects(
        vertex_num,
        edge_num,
        ends_a,
        ends_b,
        boundary,
        list,
        &mut bytes,
        defect_list,
    )
}

// Lists the inner vertices where an odd number of ends of the listed edges are.
pub fn syndrome_of(
    vertex_num: u32,
    edge_num: u32,
    ends_a: &[u32],
    ends_b: &[u32],
    boundary: &[u8],
    list: &[u32],
    defect_list: &mut [u32],
) -> Result<u32, Refusal>
    ensures { FoundSyndrome (code_graph vertex_num edge_num ends_a.now ends_b.now boundary.now) list.now defect_list.old result defect_list.new }
{
    syndrome_refusal(
        vertex_num,
        edge_num,
        ends_a,
        ends_b,
        boundary,
        list,
        defect_list,
    )?;
    let defects = find_defects(
        vertex_num,
        edge_num,
        ends_a,
        ends_b,
        boundary,
        list,
        defect_list,
    );
    Ok(defects)
}
