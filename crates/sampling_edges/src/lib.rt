// Sampling: two draws for every edge.
#![tactic(auto)]

ghost use Rattle.std.specs.Prelude.{◌≡◌, cond, ◌≤◌, length};
ghost use Rattle.columns.specs.Places.{half};
ghost use Rattle.sampling_flips.specs.Steps.{Fits};
ghost use Rattle.sampling_edges.specs.Steps.{EdgeSampled, Sampled};

use columns::EdgeIndex;
use sampling_flips::flip_edge_if;
use sampling_generator::DeterministicRng;

// What two draws say of an edge, and the generator after them.
#[derive(Clone, Copy)]
pub struct SampledEdge {
    pub erased: bool,
    pub error: bool,
    pub rng: DeterministicRng,
}

// The probability of an error: 0.5 on an erased edge.
fn error_probability(erased: bool, p: f64) -> f64
    ensures { result ≡ cond erased half p }
{
    if erased { 0.5 } else { p }
}

// The erasure byte of an edge.
fn erasure_byte(erased: bool) -> u8
    ensures { result ≡ cond erased 1 0 }
{
    if erased { 1 } else { 0 }
}

// Two draws for an edge: the first decides its erasure, the second its error.
fn sample_edge(rng: DeterministicRng, p: f64, pe: f64) -> SampledEdge
    ensures { EdgeSampled rng p pe result }
{
    let first = rng.next_f64();
    let erased = first.value < pe;
    let between = first.rng;
    let second = between.next_f64();
    let error = second.value < error_probability(erased, p);
    let last = second.rng;
    SampledEdge {
        erased,
        error,
        rng: last,
    }
}

// Samples every edge in order over the defects given; the generator after the draws.
pub fn sample_edges(
    vertex_num: u32,
    edge_num: u32,
    ends_a: &[u32],
    ends_b: &[u32],
    p: &[f64],
    pe: &[f64],
    boundary: &[u8],
    rng: DeterministicRng,
    defect: &mut [u8],
    erasure: &mut [u8],
) -> DeterministicRng
    requires fits { Fits vertex_num edge_num ends_a.now ends_b.now boundary.now defect.old }
    requires edge_num_in_bounds { (edge_num ≤ length p.now) × (edge_num ≤ length pe.now) × (edge_num ≤ length erasure.old) }
    ensures { Sampled rng ends_a.now ends_b.now boundary.now p.now pe.now defect.old erasure.old edge_num result defect.new erasure.new }
{
    let mut next = rng;
    for i in 0..edge_num {
        let at = i as usize;
        let sampled = sample_edge(next, p[at], pe[at]);
        erasure[at] = erasure_byte(sampled.erased);
        flip_edge_if(
            sampled.error,
            vertex_num,
            edge_num,
            ends_a,
            ends_b,
            boundary,
            EdgeIndex(i),
            defect,
        );
        next = sampled.rng;
    }
    next
}
