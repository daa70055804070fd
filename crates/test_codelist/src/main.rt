// Reads inputs of `codelist`, each ended by the byte 7c, and prints for each the first line of its text, how many bytes the text has and a checksum of them.
#![tactic(auto)]

use test_numbers::{checksum, read_bytes, show, show_line, write};
use text_answer::codelist;

fn show_text(rt: &impl Print, text: &[u8], n: u32) {
    let first = text.split(|b| *b == b'\n').next().unwrap_or(text);
    write(rt, first);
    write(rt, b" ");
    show(rt, u64::from(n));
    show_line(rt, checksum(text, n as usize));
}

fn answer(rt: &impl Print, input: &[u8], text: &mut [u8]) {
    let listed = codelist(input, text);
    match listed {
        Ok(n) => show_text(rt, text, n),
        Err(refusal) => show_line(rt, u32::from(refusal) as u64),
    }
}

// Each input of the list.
fn answer_all(rt: &impl Print, list: &[u8], text: &mut [u8]) {
    for input in list.split_inclusive(|b| *b == b'|') {
        answer(rt, input.strip_suffix(b"|").unwrap_or(input), text);
    }
}

fn read_and_answer(
    rt: &(impl Print + Input),
    buffer: &mut [u8],
    text: &mut [u8],
    short: &mut [u8],
) {
    let n = read_bytes(rt, buffer);
    answer_all(rt, &buffer[..n], text);
    // a text column that is too short: 6
    answer(rt, &buffer[..n], short);
}

fn main(rt: HostRuntime) {
    let mut buffer = [0u8; 65536];
    let mut text = [0u8; 320000];
    let mut short = [0u8; 100];
    read_and_answer(&rt, &mut buffer, &mut text, &mut short);
}
