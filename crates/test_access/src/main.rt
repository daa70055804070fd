// Damaged graphs for `sanity_check`, and getters after setters.
#![tactic(auto)]

ghost use Rattle.std.specs.Prelude.{◌≤◌};

use columns::VertexIndex;
use columns::refusal::Refusal;
use sanity_calls::Finding;
use test_numbers::{end_line, write, write_number};

fn write_comma(rt: &impl Print) {
    write(rt, b",");
}

fn write_refusal(rt: &impl Print, refusal: Refusal) {
    write(rt, b"r,");
    write_number(rt, u32::from(refusal));
}

fn write_two(rt: &impl Print, number: u32, x: u32) {
    write_number(rt, number);
    write_comma(rt);
    write_number(rt, x);
}

fn write_three(rt: &impl Print, number: u32, x: u32, y: u32) {
    write_two(rt, number, x);
    write_comma(rt);
    write_number(rt, y);
}

// The verdict's number and values, or r and the number of the question.
fn show_verdict(rt: &impl Print, answer: Result<Option<Finding>, Refusal>) {
    match answer {
        Ok(None) => write_number(rt, 0),
        Ok(Some(Finding::Empty)) => write_number(rt, 1),
        Ok(Some(Finding::DuplicateEdge(earlier, later))) => write_three(rt, 2, earlier.0, later.0),
        Ok(Some(Finding::NoEdges(vertex))) => write_two(rt, 3, vertex.0),
        Ok(Some(Finding::EdgeTwice(edge, vertex))) => write_three(rt, 4, edge.0, vertex.0),
        Err(refusal) => write_refusal(rt, refusal),
    }
    end_line(rt);
}

// The edges (0,1) (1,2) (0,2) with the first n lengths and the first m numbers.
fn show_triangle(rt: &impl Print, lengths: [u32; 3], n: usize, numbers: [u32; 6], m: usize)
    requires { (n ≤ 3) × (m ≤ 6) }
{
    let a = [0u32, 1, 0];
    let b = [1u32, 2, 2];
    show_verdict(
        rt,
        sanity_calls::sanity::sanity_check(3, 3, &a, &b, &lengths[..n], &numbers[..m]),
    );
}

// The first n and the first m ends, with sound lists for two vertices and edge 0.
fn show_edges(rt: &impl Print, edge_num: u32, a: [u32; 4], n: usize, b: [u32; 4], m: usize)
    requires { (n ≤ 4) × (m ≤ 4) }
{
    let lengths = [1u32, 1];
    let numbers = [0u32, 0, 0, 0, 0, 0, 0, 0];
    show_verdict(
        rt,
        sanity_calls::sanity::sanity_check(2, edge_num, &a[..n], &b[..m], &lengths, &numbers),
    );
}

fn verdicts_on_edges(rt: &impl Print) {
    // no edges
    show_edges(rt, 0, [0u32; 4], 1, [1u32; 4], 1);
    // one edge
    show_edges(rt, 1, [0u32; 4], 1, [1u32; 4], 1);
    // the pair of edges 0, 2 and 3
    show_edges(rt, 4, [0u32, 1, 1, 0], 4, [1u32, 2, 0, 1], 4);
    // equal ends are a pair too
    show_edges(rt, 3, [0u32, 7, 7, 0], 3, [1u32, 7, 7, 0], 3);
    // ends beyond every limit
    show_edges(
        rt,
        3,
        [4000000000u32, 5, 5, 0],
        3,
        [5u32, 4000000001, 4000000000, 0],
        3,
    );
    // too few ends
    show_edges(rt, 3, [0u32, 1, 0, 0], 2, [1u32, 2, 2, 0], 3);
}

fn verdicts_on_vertices(rt: &impl Print) {
    // sound
    show_triangle(rt, [2u32, 2, 2], 3, [0u32, 2, 0, 1, 1, 2], 6);
    // vertex 1 has no edges; that vertex 2 has edge 1 twice comes later
    show_triangle(rt, [2u32, 0, 2], 3, [0u32, 2, 1, 1, 0, 0], 6);
    // vertex 0 has edge 2 twice
    show_triangle(rt, [3u32, 2, 0], 3, [2u32, 0, 2, 0, 1, 0], 6);
    // a number beyond every limit
    show_triangle(
        rt,
        [1u32, 3, 1],
        3,
        [0u32, 4000000000, 1, 4000000000, 1, 0],
        6,
    );
    // numbers for 7 places asked for, 6 lent
    show_triangle(rt, [3u32, 2, 2], 3, [0u32, 2, 0, 1, 1, 2], 6);
    // fewer than twice the edges
    show_triangle(rt, [1u32, 1, 1], 3, [0u32, 0, 1, 1, 2, 0], 5);
    // too few lengths
    show_triangle(rt, [2u32, 2, 0], 2, [0u32, 2, 0, 1, 1, 2], 6);
}

fn show_answer(rt: &impl Print, answer: Result<(), Refusal>) {
    match answer {
        Ok(()) => write_number(rt, 0),
        Err(refusal) => write_refusal(rt, refusal),
    }
    end_line(rt);
}

fn show_count(rt: &impl Print, answer: Result<u32, Refusal>) {
    match answer {
        Ok(n) => write_number(rt, n),
        Err(refusal) => write_refusal(rt, refusal),
    }
    end_line(rt);
}

fn show_truth(rt: &impl Print, answer: Result<bool, Refusal>) {
    match answer {
        Ok(value) => write_number(rt, u32::from(value)),
        Err(refusal) => write_refusal(rt, refusal),
    }
    end_line(rt);
}

fn show_four(rt: &impl Print, s: [u32; 4]) {
    write_three(rt, s[0], s[1], s[2]);
    write_comma(rt);
    write_number(rt, s[3]);
    end_line(rt);
}

// Sets the defects, and reads them back.
fn set_and_get(rt: &impl Print, list: &[u32], bytes: &mut [u8; 4], read: &mut [u32; 4]) {
    show_answer(rt, access_calls::set_defect_vertices(4, list, bytes));
    show_count(rt, access_calls::get_defect_vertices(4, bytes, read));
    show_four(rt, *read);
}

fn show_defect(rt: &impl Print, bytes: [u8; 4], vertex: u32) {
    show_truth(rt, access_calls::is_defect(4, &bytes, VertexIndex(vertex)));
}

// Defects 3, 1 and 3 again; then a list that names vertex 4.
fn defects(rt: &impl Print) {
    let mut bytes = [1u8, 1, 1, 1];
    let mut read = [9u32, 9, 9, 9];
    set_and_get(rt, &[3u32, 1, 3], &mut bytes, &mut read);
    set_and_get(rt, &[0u32, 4], &mut bytes, &mut read);
    show_defect(rt, bytes, 1);
    show_defect(rt, bytes, 2);
    show_defect(rt, bytes, 4);
}

// Both lists at once.
fn syndrome(rt: &impl Print) {
    let mut defect = [0u8, 0, 0, 0];
    let mut erasure = [1u8, 1, 1, 1];
    let mut defects = [9u32, 9, 9, 9];
    let mut erasures = [9u32, 9, 9, 9];
    show_answer(
        rt,
        access_calls::set_syndrome(4, 3, &[2u32], &[2u32, 0], &mut defect, &mut erasure),
    );
    match access_calls::get_syndrome(4, 3, &defect, &erasure, &mut defects, &mut erasures) {
        Ok(lengths) => write_two(rt, lengths.defects, lengths.erasures),
        Err(refusal) => write_refusal(rt, refusal),
    }
    end_line(rt);
    show_four(rt, defects);
    show_four(rt, erasures);
}

fn show_virtual(rt: &impl Print, boundary: [u8; 4], vertex: u32) {
    show_truth(
        rt,
        access_calls::is_virtual(4, &boundary, VertexIndex(vertex)),
    );
}

// The listing's graph: half weights 500, vertex 3 left, vertex 2 right.
fn initializer(rt: &impl Print) {
    let mut a = [9u32, 9, 9, 9];
    let mut b = [9u32, 9, 9, 9];
    let mut weight = [9u32, 9, 9, 9];
    let mut list = [9u32, 9, 9, 9];
    let boundary = [0u8, 0, 2, 1];
    show_count(
        rt,
        access_calls::get_initializer(
            4,
            3,
            &[0u32, 1, 0],
            &[1u32, 2, 3],
            &[500u32, 500, 500],
            &boundary,
            &mut a,
            &mut b,
            &mut weight,
            &mut list,
        ),
    );
    show_four(rt, a);
    show_four(rt, b);
    show_four(rt, weight);
    show_four(rt, list);
    show_virtual(rt, boundary, 1);
    show_virtual(rt, boundary, 2);
    show_virtual(rt, boundary, 3);
}

fn main(rt: HostRuntime) {
    verdicts_on_edges(&rt);
    verdicts_on_vertices(&rt);
    defects(&rt);
    syndrome(&rt);
    initializer(&rt);
}
