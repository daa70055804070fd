// Samples the rotated code of distance 3 from fixed seeds, then generates errors, finds a syndrome, clears and reorders.
// What it prints is compared with the file stdout.
#![tactic(auto)]

use columns::refusal::Refusal;
use sampling_calls::SyndromeLengths;
use test_numbers::{end_line, show, show_answer, show_bytes, show_length, show_lengths, show_list};

const VERTEX_NUM: u32 = 8;

const EDGE_NUM: u32 = 9;

// The counts, the bytes and the lists that a call leaves.
fn show_syndrome(
    rt: &impl Print,
    answer: Result<SyndromeLengths, Refusal>,
    defect: [u8; 9],
    erasure: [u8; 10],
    defect_list: [u32; 9],
    erasure_list: [u32; 10],
) {
    show_lengths(rt, answer);
    show_bytes(rt, &defect, 9);
    show_bytes(rt, &erasure, 10);
    show_list(rt, &defect_list, 9);
    show_list(rt, &erasure_list, 10);
}

// One sampling; the columns hold 7 before it, and one place more than they need.
fn sample(rt: &impl Print, seed: u64) {
    let ends_a = [0u32, 0, 1, 2, 3, 3, 4, 4, 5];
    let ends_b = [2u32, 3, 3, 4, 4, 5, 6, 7, 7];
    let boundary = [0u8, 2, 1, 0, 0, 2, 1, 0];
    let p = [0.5, 0.25, 0.1, 0.5, 0.25, 0.1, 0.01, 0.5, 0.125];
    let pe = [0.5, 0.0, 1.0, 0.25, 0.1, 0.0, 0.5, 0.125, 0.03125];
    let mut defect = [7u8; 9];
    let mut erasure = [7u8; 10];
    let mut defect_list = [7u32; 9];
    let mut erasure_list = [7u32; 10];
    let answer = sampling_calls::generate_random_errors(
        seed,
        VERTEX_NUM,
        EDGE_NUM,
        &ends_a,
        &ends_b,
        &p,
        &pe,
        &boundary,
        &mut defect,
        &mut erasure,
        &mut defect_list,
        &mut erasure_list,
    );
    show_syndrome(rt, answer, defect, erasure, defect_list, erasure_list);
}

// Errors over standing defects, an edge named twice; then a number out of range.
fn errors(rt: &impl Print, list: &[u32]) {
    let ends_a = [0u32, 0, 1, 2, 3, 3, 4, 4, 5];
    let ends_b = [2u32, 3, 3, 4, 4, 5, 6, 7, 7];
    let boundary = [0u8, 2, 1, 0, 0, 2, 1, 0];
    let mut defect = [1u8, 0, 1, 0, 1, 0, 0, 0, 7];
    let erasure = [0u8, 1, 0, 1, 0, 0, 0, 0, 1, 7];
    let mut defect_list = [7u32; 9];
    let mut erasure_list = [7u32; 10];
    let answer = sampling_calls::generate_errors(
        VERTEX_NUM,
        EDGE_NUM,
        &ends_a,
        &ends_b,
        &boundary,
        list,
        &mut defect,
        &erasure,
        &mut defect_list,
        &mut erasure_list,
    );
    show_syndrome(rt, answer, defect, erasure, defect_list, erasure_list);
}

fn syndrome(rt: &impl Print, list: &[u32]) {
    let ends_a = [0u32, 0, 1, 2, 3, 3, 4, 4, 5];
    let ends_b = [2u32, 3, 3, 4, 4, 5, 6, 7, 7];
    let boundary = [0u8, 2, 1, 0, 0, 2, 1, 0];
    let mut defect_list = [7u32; 9];
    show_length(
        rt,
        sampling_calls::syndrome_of(
            VERTEX_NUM,
            EDGE_NUM,
            &ends_a,
            &ends_b,
            &boundary,
            list,
            &mut defect_list,
        ),
    );
    show_list(rt, &defect_list, 9);
}

fn clear(rt: &impl Print) {
    let mut defect = [1u8; 9];
    let mut erasure = [0u8; 10];
    show_answer(
        rt,
        sampling_calls::clear_errors(VERTEX_NUM, EDGE_NUM, &mut defect, &mut erasure),
    );
    show_bytes(rt, &defect, 9);
    show_bytes(rt, &erasure, 10);
}

// The new numbers, and a list translated.
fn numbers(rt: &impl Print, order: &[u32], list: &[u32]) {
    let mut column = [99u32; 9];
    show_answer(rt, reorder_calls::build_old_to_new(order, &mut column));
    show_list(rt, &column, 9);
    let mut translated = [99u32; 4];
    match reorder_calls::translated_defect_to_reordered(order, list, &mut translated) {
        Ok(n) => show(rt, n as u64),
        Err(refusal) => show(rt, u32::from(refusal) as u64 + 100),
    }
    end_line(rt);
    show_list(rt, &translated, 4);
}

fn positions_and_lists(rt: &impl Print, order: &[u32]) {
    let mut ends_a = [0u32, 0, 1, 2, 3, 3, 4, 4, 5];
    let mut ends_b = [2u32, 3, 3, 4, 4, 5, 6, 7, 7];
    let mut boundary = [0u8, 2, 1, 0, 0, 2, 1, 0];
    let mut defect = [1u8, 0, 1, 0, 1, 0, 0, 0];
    let mut pos_i = [0.0, 1.0, 2.0, 3.0, 4.0, 5.0, 6.0, 7.0];
    let mut pos_j = [0.5; 8];
    let mut pos_t = [0.25; 8];
    let mut lengths = [2u32, 1, 2, 4, 4, 2, 1, 2];
    let mut lists = [
        0u32, 1, 2, 0, 3, 1, 2, 4, 5, 3, 4, 6, 7, 5, 8, 6, 7, 8, 7, 7,
    ];
    let mut scratch = [9u32; 20];
    show_answer(
        rt,
        reorder_calls::reorder_vertices(
            VERTEX_NUM,
            EDGE_NUM,
            order,
            &mut ends_a,
            &mut ends_b,
            &mut boundary,
            &mut defect,
            &mut pos_i,
            &mut pos_j,
            &mut pos_t,
            &mut lengths,
            &mut lists,
            &mut scratch,
        ),
    );
    show_list(rt, &ends_a, 9);
    show_list(rt, &ends_b, 9);
    show_bytes(rt, &boundary, 8);
    show_bytes(rt, &defect, 8);
    show_list(rt, &lengths, 8);
    show_list(rt, &lists, 20);
    show_list(rt, &scratch, 20);
}

fn main(rt: HostRuntime) {
    sample(&rt, 0);
    sample(&rt, 1);
    sample(&rt, 2);
    sample(&rt, 42);
    sample(&rt, 123456789);
    sample(&rt, 0xffff_ffff_ffff_ffff);
    sample(&rt, 1477776061723855037);
    sample(&rt, 0x8000_0000_0000_0000);
    let twice = [0u32, 8, 0, 3];
    errors(&rt, &twice);
    let far = [0u32, 9];
    errors(&rt, &far);
    let some = [1u32, 1, 4, 5, 7];
    syndrome(&rt, &some);
    syndrome(&rt, &far);
    clear(&rt);
    let order = [3u32, 1, 7, 0, 2, 6, 5, 4];
    let list = [7u32, 0, 4];
    numbers(&rt, &order, &list);
    let repeated = [0u32, 1, 1];
    let both = [0u32, 5];
    numbers(&rt, &repeated, &both);
    let range = [0u32, 3, 3];
    numbers(&rt, &range, &both);
    positions_and_lists(&rt, &order);
    positions_and_lists(&rt, &repeated);
}
