// Builds codes of every kind and prints their counts and a checksum of each column. What it prints is compared with the file stdout.
#![tactic(auto)]

ghost use Rattle.std.specs.Prelude.{◌≤◌};

use codes_calls::CodeCounts;
use codes_calls::create::create_code;
use columns::Weight;
use columns::refusal::Refusal;
use test_numbers::{bits, checksum, mix, show_line};

// Prints the checksum of the first n numbers of a column.
fn numbers(rt: &impl Print, column: &[u32], n: usize) {
    let m = n.min(column.len());
    let mut h: u64 = 1;
    for i in 0..m {
        h = mix(h, u64::from(column[i]));
    }
    show_line(rt, h);
}

fn floats(rt: &impl Print, column: &[f64], n: usize) {
    let m = n.min(column.len());
    let mut h: u64 = 1;
    for i in 0..m {
        h = mix(h, bits(column[i]));
    }
    show_line(rt, h);
}

// How many vertices and edges a code has, then a digest of each column.
fn show_code(
    rt: &impl Print,
    answer: Result<CodeCounts, Refusal>,
    ends_a: &[u32],
    ends_b: &[u32],
    boundary: &[u8],
    list_lengths: &[u32],
    neighbor_numbers: &[u32],
    pos_i: &[f64],
    pos_j: &[f64],
    pos_t: &[f64],
) {
    match answer {
        Ok(counts) => {
            let vertices = counts.vertices as usize;
            let edges = counts.edges as usize;
            show_line(rt, u64::from(counts.vertices));
            show_line(rt, u64::from(counts.edges));
            numbers(rt, ends_a, edges);
            numbers(rt, ends_b, edges);
            show_line(rt, checksum(boundary, vertices));
            numbers(rt, list_lengths, vertices);
            numbers(rt, neighbor_numbers, edges.min(19685) * 2);
            floats(rt, pos_i, vertices);
            floats(rt, pos_j, vertices);
            floats(rt, pos_t, vertices);
        }
        Err(refusal) => show_line(rt, u32::from(refusal) as u64),
    }
}

// A code in the first places of the columns: how many for the edges, for their second ends, for the vertices and for the lists.
fn code_in(
    rt: &impl Print,
    kind: u32,
    d: u32,
    rounds: u32,
    edges: usize,
    second_ends: usize,
    vertices: usize,
    entries: usize,
)
    requires { (edges ≤ 19685) × (second_ends ≤ 19685) × (vertices ≤ 4096) × (entries ≤ 39370) }
{
    let mut ends_a = [0u32; 19685];
    let mut ends_b = [0u32; 19685];
    let mut p = [0.5; 19685];
    let mut pe = [0.5; 19685];
    let mut half_weight: [Weight; 19685] = [7; 19685];
    let mut erasure = [1u8; 19685];
    let mut pos_i = [0.5; 4096];
    let mut pos_j = [0.5; 4096];
    let mut pos_t = [0.5; 4096];
    let mut boundary = [9u8; 4096];
    let mut defect = [1u8; 4096];
    let mut list_lengths = [0u32; 4096];
    let mut neighbor_numbers = [0u32; 39370];
    let answer = create_code(
        kind,
        d,
        rounds,
        &mut ends_a[..edges],
        &mut ends_b[..second_ends],
        &mut p[..edges],
        &mut pe[..edges],
        &mut half_weight[..edges],
        &mut erasure[..edges],
        &mut pos_i[..vertices],
        &mut pos_j[..vertices],
        &mut pos_t[..vertices],
        &mut boundary[..vertices],
        &mut defect[..vertices],
        &mut list_lengths[..vertices],
        &mut neighbor_numbers[..entries],
    );
    show_code(
        rt,
        answer,
        &ends_a,
        &ends_b,
        &boundary,
        &list_lengths,
        &neighbor_numbers,
        &pos_i,
        &pos_j,
        &pos_t,
    );
}

// A code in columns for every code that fits.
fn code(rt: &impl Print, kind: u32, d: u32, rounds: u32) {
    code_in(rt, kind, d, rounds, 19685, 19685, 4096, 39370);
}

fn main(rt: HostRuntime) {
    code(&rt, 1, 3, 0);
    code(&rt, 1, 4095, 0);
    code(&rt, 2, 3, 0);
    code(&rt, 2, 63, 0);
    code(&rt, 3, 3, 2);
    code(&rt, 3, 5, 40);
    code(&rt, 4, 3, 1);
    code(&rt, 4, 15, 16);
    code(&rt, 5, 3, 0);
    code(&rt, 5, 89, 0);
    code(&rt, 6, 3, 2);
    code(&rt, 6, 7, 100);
    code(&rt, 7, 4, 0);
    code(&rt, 1, 4, 1);
    code(&rt, 5, 3, 1);
    code(&rt, 2, 65, 0);
    // Columns with one place too few for the edges.
    code_in(&rt, 1, 3, 0, 3, 2, 4, 6);
}
