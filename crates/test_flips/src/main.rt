// Prints the flip of every byte at an inner, a left and a right vertex, then errors and syndromes on the smallest graph: an inner vertex joined to a virtual one.
// What it prints is compared with the file stdout.
#![tactic(auto)]

use sampling_flips::flip;
use test_numbers::{end_line, show, show_bytes, show_length, show_lengths, show_list};

// The flip of each byte from 0 to 255.
fn flips(rt: &impl Print, boundary: u8) {
    for byte in 0..=u8::MAX {
        show(rt, flip(boundary, byte) as u64);
    }
    end_line(rt);
}

// Errors over two standing defect bytes, the second at the virtual vertex: the answer, the bytes, the list.
fn errors(rt: &impl Print, boundary: u8, list: &[u32], at_inner: u8, at_virtual: u8) {
    let mut defect = [at_inner, at_virtual];
    let mut defect_list = [7u32; 2];
    let mut erasure_list = [7u32; 1];
    show_lengths(
        rt,
        sampling_calls::generate_errors(
            2,
            1,
            &[0],
            &[1],
            &[0, boundary],
            list,
            &mut defect,
            &[0],
            &mut defect_list,
            &mut erasure_list,
        ),
    );
    show_bytes(rt, &defect, 2);
    show_list(rt, &defect_list, 2);
}

// The syndrome of listed edges: the answer, the list.
fn syndrome(rt: &impl Print, boundary: u8, list: &[u32]) {
    let mut defect_list = [7u32; 2];
    show_length(
        rt,
        sampling_calls::syndrome_of(2, 1, &[0], &[1], &[0, boundary], list, &mut defect_list),
    );
    show_list(rt, &defect_list, 2);
}

// An edge named once and twice over standing bytes; a byte of 2 is refused.
fn smallest(rt: &impl Print, boundary: u8) {
    let once = [0u32];
    let twice = [0u32, 0];
    errors(rt, boundary, &once, 0, 0);
    errors(rt, boundary, &twice, 0, 0);
    errors(rt, boundary, &once, 1, 0);
    errors(rt, boundary, &once, 0, 1);
    errors(rt, boundary, &once, 1, 1);
    errors(rt, boundary, &twice, 1, 1);
    errors(rt, boundary, &once, 2, 0);
    syndrome(rt, boundary, &once);
    syndrome(rt, boundary, &twice);
}

fn main(rt: HostRuntime) {
    flips(&rt, 0);
    flips(&rt, 1);
    flips(&rt, 2);
    smallest(&rt, 1);
    smallest(&rt, 2);
}
