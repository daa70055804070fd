// Reads lines of fixed width, each with the bits of two probabilities and a largest half weight, all in hexadecimal.
// Writes for each the answer of `weight_of_p` to the first probability, that of `compute_weights` to both, and those of
// `set_probability` and `set_erasure_probability` to the first.
#![tactic(auto)]

ghost use Rattle.std.specs.Prelude.{◌+◌, ◌≤◌, length};

use columns::of_bits;
use test_numbers::{bits, end_line, read_bytes, refusal_number, write, write_number};

// 16 digits, a blank, 16 digits, a blank, 8 digits and the line's end.
const LINE: usize = 43;

// The value of a hexadecimal digit, 0 for any other byte.
fn digit(b: u8) -> u64 {
    if b < b'0' {
        return 0;
    }
    if b <= b'9' {
        return (b - b'0') as u64;
    }
    if b < b'a' {
        return 0;
    }
    if b <= b'f' {
        return (b - b'a') as u64 + 10;
    }
    0
}

// A number with one more digit, modulo 2 to the power 64.
fn appended(n: u64, d: u64) -> u64 {
    (n % 0x1000_0000_0000_0000) * 16 + d % 16
}

// The number that count digits from a place on write, modulo 2 to the power 64.
fn number(text: &[u8], at: usize, count: usize) -> u64
    requires { at + count ≤ length text.now }
{
    let mut n: u64 = 0;
    for i in 0..count {
        n = appended(n, digit(text[at + i]));
    }
    n
}

fn write_blank(rt: &impl Print) {
    write(rt, b" ");
}

fn write_refusal(rt: &impl Print, number: u32) {
    write(rt, b"r");
    write_number(rt, number);
}

// A weight by its bits, 16 digits.
fn write_weight(rt: &impl Print, w: f64) {
    if w != w {
        write(rt, b"nan");
    } else {
        let digits = bits(w);
        let _ = print!(rt; "{digits:016x}");
    }
}

fn show_weight(rt: &impl Print, p: f64) {
    match weights_calls::weight_of_p(p) {
        Ok(w) => write_weight(rt, w),
        Err(refusal) => write_refusal(rt, u32::from(refusal)),
    }
}

fn write_half_weights(rt: &impl Print, column: [u32; 3]) {
    write_number(rt, column[0]);
    write_blank(rt);
    write_number(rt, column[1]);
    write_blank(rt);
    write_number(rt, column[2]);
}

// The half weights of two edges; the third place of the column is past the count.
fn show_half_weights(rt: &impl Print, p: f64, q: f64, max_half_weight: u32) {
    let ps = [p, q];
    let mut column = [7u32; 3];
    match weights_calls::compute_weights(2, &ps, &mut column, max_half_weight) {
        Ok(()) => write_half_weights(rt, column),
        Err(refusal) => write_refusal(rt, u32::from(refusal)),
    }
}

// The numbers of the two calls that set each edge's probability.
fn show_set(rt: &impl Print, p: f64) {
    let mut column = [0.0; 3];
    write_number(
        rt,
        refusal_number(weights_calls::set_probability(2, p, &mut column)),
    );
    write_blank(rt);
    write_number(
        rt,
        refusal_number(weights_calls::set_erasure_probability(2, p, &mut column)),
    );
}

fn show(rt: &impl Print, line: &[u8])
    requires { 43 ≤ length line.now }
{
    let p = of_bits(number(line, 0, 16));
    let q = of_bits(number(line, 17, 16));
    let max_half_weight = (number(line, 34, 8) % 0x1_0000_0000) as u32;
    show_weight(rt, p);
    write_blank(rt);
    show_half_weights(rt, p, q, max_half_weight);
    write_blank(rt);
    show_set(rt, p);
    end_line(rt);
}

fn show_all(rt: &impl Print, text: &[u8]) {
    for line in text.chunks_exact(LINE) {
        show(rt, line);
    }
}

fn main(rt: HostRuntime) {
    let mut buf = [0u8; 65536];
    let n = read_bytes(&rt, &mut buf);
    show_all(&rt, &buf[..n]);
}
