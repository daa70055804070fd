// Replays the Rust's answers on small codes: sampling, errors over standing defects, syndromes, reordering. Standard input has the cases as
// decimal numbers, oracle/README.md says how they and the file stdout were made.
// First the number of cases. A case: kind, d, rounds, seed, the places of p and pe in the table below, four edge numbers, an order of 24
// vertices.
#![tactic(auto)]

use codes_calls::CodeCounts;
use columns::Weight;
use columns::refusal::Refusal;
use sampling_calls::SyndromeLengths;
use test_numbers::{
    after, at, copy_u32, end_line, narrow_at, read_input, show, show_answer, show_bytes, show_list,
    size_at,
};

const VERTICES: usize = 64;

const EDGES: usize = 192;

const NAMED: usize = 4;

const ORDERED: usize = 24;

// The probability whose place in the table is the number at i.
fn probability(numbers: &[u64], i: usize) -> f64 {
    match at(numbers, i) {
        0 => 0.0,
        1 => 0.5,
        2 => 0.1,
        3 => 0.25,
        _ => 0.01,
    }
}

// How many vertices and edges a code has, 0 and 0 where its call was refused.
fn counts_of(answer: Result<CodeCounts, Refusal>) -> CodeCounts {
    answer.unwrap_or(CodeCounts {
        vertices: 0,
        edges: 0,
    })
}

// The counts and both lists.
fn show_syndrome(
    rt: &impl Print,
    answer: Result<SyndromeLengths, Refusal>,
    defect_list: &[u32],
    erasure_list: &[u32],
) {
    match answer {
        Ok(lengths) => {
            show_list(rt, defect_list, lengths.defects as usize);
            show_list(rt, erasure_list, lengths.erasures as usize);
        }
        Err(refusal) => {
            show(rt, u32::from(refusal) as u64);
            end_line(rt);
        }
    }
}

// The errors of a code from a seed.
fn sampled(
    rt: &impl Print,
    v: u32,
    e: u32,
    ends_a: &[u32],
    ends_b: &[u32],
    boundary: &[u8],
    seed: u64,
    probability: f64,
    erasure_probability: f64,
) {
    let p = [probability; EDGES];
    let pe = [erasure_probability; EDGES];
    let mut defect = [0u8; VERTICES];
    let mut erasure = [0u8; EDGES];
    let mut defect_list = [0u32; VERTICES];
    let mut erasure_list = [0u32; EDGES];
    let syndrome = sampling_calls::generate_random_errors(
        seed,
        v,
        e,
        ends_a,
        ends_b,
        &p,
        &pe,
        boundary,
        &mut defect,
        &mut erasure,
        &mut defect_list,
        &mut erasure_list,
    );
    show_syndrome(rt, syndrome, &defect_list, &erasure_list);
}

// Errors on the listed edges where every vertex is a defect.
fn flipped(
    rt: &impl Print,
    v: u32,
    e: u32,
    ends_a: &[u32],
    ends_b: &[u32],
    boundary: &[u8],
    list: &[u32],
) {
    let mut standing = [1u8; VERTICES];
    let erasure = [0u8; EDGES];
    let mut defect_list = [0u32; VERTICES];
    let mut erasure_list = [0u32; EDGES];
    let syndrome = sampling_calls::generate_errors(
        v,
        e,
        ends_a,
        ends_b,
        boundary,
        list,
        &mut standing,
        &erasure,
        &mut defect_list,
        &mut erasure_list,
    );
    show_syndrome(rt, syndrome, &defect_list, &erasure_list);
}

// The syndrome of the listed edges.
fn found(
    rt: &impl Print,
    v: u32,
    e: u32,
    ends_a: &[u32],
    ends_b: &[u32],
    boundary: &[u8],
    list: &[u32],
) {
    let mut defect_list = [0u32; VERTICES];
    let syndrome = sampling_calls::syndrome_of(
        v,
        e,
        ends_a,
        ends_b,
        boundary,
        list,
        &mut defect_list,
    );
    match syndrome {
        Ok(count) => show_list(rt, &defect_list, count as usize),
        Err(refusal) => {
            show(rt, u32::from(refusal) as u64);
            end_line(rt);
        }
    }
}

// The counts, and what is found without a change of the code.
fn show_errors(
    rt: &impl Print,
    v: u32,
    e: u32,
    ends_a: &[u32],
    ends_b: &[u32],
    boundary: &[u8],
    seed: u64,
    probability: f64,
    erasure_probability: f64,
    list: &[u32],
) {
    show(rt, v as u64);
    show(rt, e as u64);
    end_line(rt);
    sampled(
        rt,
        v,
        e,
        ends_a,
        ends_b,
        boundary,
        seed,
        probability,
        erasure_probability,
    );
    flipped(rt, v, e, ends_a, ends_b, boundary, list);
    found(rt, v, e, ends_a, ends_b, boundary, list);
}

fn show_code(
    rt: &impl Print,
    v: u32,
    e: u32,
    ends_a: &[u32],
    ends_b: &[u32],
    boundary: &[u8],
    lengths: &[u32],
    numbers: &[u32],
) {
    let n = v as usize;
    let m = e as usize;
    show_list(rt, ends_a, m);
    show_list(rt, ends_b, m);
    show_bytes(rt, boundary, n);
    show_list(rt, lengths, n);
    show_list(rt, numbers, after(m, m));
}

// A code, its errors, and the code in another order of its vertices; an order of another length is refused.
fn replay_code(
    rt: &impl Print,
    kind: u32,
    d: u32,
    rounds: u32,
    seed: u64,
    probability: f64,
    erasure_probability: f64,
    list: &[u32],
    order: &[u32],
) {
    let mut ends_a = [0u32; EDGES];
    let mut ends_b = [0u32; EDGES];
    let mut p = [0.0; EDGES];
    let mut pe = [0.0; EDGES];
    let mut half_weight: [Weight; EDGES] = [0; EDGES];
    let mut erasure = [0u8; EDGES];
    let mut pos_i = [0.0; VERTICES];
    let mut pos_j = [0.0; VERTICES];
    let mut pos_t = [0.0; VERTICES];
    let mut boundary = [0u8; VERTICES];
    let mut defect = [0u8; VERTICES];
    let mut lengths = [0u32; VERTICES];
    let mut numbers = [0u32; 2 * EDGES];
    let mut scratch = [0u32; 2 * EDGES];
    let answer = codes_calls::create::create_code(
        kind,
        d,
        rounds,
        &mut ends_a,
        &mut ends_b,
        &mut p,
        &mut pe,
        &mut half_weight,
        &mut erasure,
        &mut pos_i,
        &mut pos_j,
        &mut pos_t,
        &mut boundary,
        &mut defect,
        &mut lengths,
        &mut numbers,
    );
    let counts = counts_of(answer);
    let v = counts.vertices;
    let e = counts.edges;
    show_errors(
        rt,
        v,
        e,
        &ends_a,
        &ends_b,
        &boundary,
        seed,
        probability,
        erasure_probability,
        list,
    );
    show_answer(
        rt,
        reorder_calls::reorder_vertices(
            v,
            e,
            order,
            &mut ends_a,
            &mut ends_b,
            &mut boundary,
            &mut defect,
            &mut pos_i,
            &mut pos_j,
            &mut pos_t,
            &mut lengths,
            &mut numbers,
            &mut scratch,
        ),
    );
    show_code(rt, v, e, &ends_a, &ends_b, &boundary, &lengths, &numbers);
}

fn case(rt: &impl Print, numbers: &[u64], from: usize) -> usize {
    let mut list = [0u32; NAMED];
    let mut order = [0u32; ORDERED];
    copy_u32(numbers, after(from, 6), &mut list, NAMED);
    copy_u32(numbers, after(from, 10), &mut order, ORDERED);
    replay_code(
        rt,
        narrow_at(numbers, from),
        narrow_at(numbers, after(from, 1)),
        narrow_at(numbers, after(from, 2)),
        at(numbers, after(from, 3)),
        probability(numbers, after(from, 4)),
        probability(numbers, after(from, 5)),
        &list,
        &order,
    );
    after(from, 34)
}

fn replay(rt: &impl Print, numbers: &[u64]) {
    let mut place: usize = 1;
    for _ in 0..size_at(numbers, 0) {
        place = case(rt, numbers, place);
    }
}

fn main(rt: HostRuntime) {
    let mut numbers = [0u64; 32768];
    read_input(&rt, &mut numbers);
    replay(&rt, &numbers);
}
