// What the test programs share: reading numbers, printing, checksums. A place past the end reads as 0 and is not written.
// A failed read counts as the end of the input, and a failed write is passed over: what a program wrote is compared with its file stdout.
#![tactic(auto)]

ghost use Rattle.std.specs.Prelude.{◌≤◌, length};

use columns::TableWeight;
use columns::refusal::Refusal;
use columns_answers::SyndromeLengths;
use std::io::Read;

pub fn at(list: &[u64], i: usize) -> u64 {
    if i < list.len() { list[i] } else { 0 }
}

fn put(list: &mut [u64], i: usize, x: u64) {
    if i < list.len() {
        list[i] = x;
    }
}

pub fn after(i: usize, n: usize) -> usize {
    std::num::wrapping_add_usize(i, n)
}

// The number at a place, as a count or a number of a vertex or an edge.
pub fn narrow(x: u64) -> u32 {
    (x % 0x1_0000_0000) as u32
}

pub fn narrow_at(list: &[u64], i: usize) -> u32 {
    narrow(at(list, i))
}

pub fn size_at(list: &[u64], i: usize) -> usize {
    narrow_at(list, i) as usize
}

fn is_digit(b: u8) -> bool {
    if b < b'0' {
        return false;
    }
    b <= b'9'
}

// A number with one more digit, modulo 2 to the power 64.
fn appended(n: u64, b: u8) -> u64 {
    std::num::wrapping_add_u64((n % 1844674407370955162) * 10, (b as u64) % 16)
}

// How many numbers have ended, the number that is read, and whether one is.
#[derive(Clone, Copy)]
struct Reading {
    count: usize,
    value: u64,
    open: bool,
}

fn read_byte(r: Reading, b: u8, list: &mut [u64]) -> Reading {
    if is_digit(b) {
        let value = appended(r.value, b);
        return Reading {
            count: r.count,
            value,
            open: true,
        };
    }
    if r.open {
        put(list, r.count, r.value);
        return Reading {
            count: after(r.count, 1),
            value: 0,
            open: false,
        };
    }
    r
}

// The decimal numbers of a text, each ended by another byte.
fn read_numbers(text: &[u8], list: &mut [u64]) {
    let mut r = Reading {
        count: 0,
        value: 0,
        open: false,
    };
    for i in 0..text.len() {
        r = read_byte(r, text[i], list);
    }
}

// How many bytes one read put: 0 at the end of the input, and where it failed.
fn read_some(input: &mut impl Read, places: &mut [u8]) -> usize
    ensures { result ≤ length places.new }
{
    input.read(places).unwrap_or(0)
}

// Reads standard input until it ends, a read fails or the buffer is full, and returns how many bytes it put.
pub fn read_bytes(rt: &impl Input, buffer: &mut [u8]) -> usize
    ensures { result ≤ length buffer.new }
{
    let mut input = rt.reader();
    let mut done: usize = 0;
    // while: each turn goes on by as many bytes as the read put, and a read that puts none ends it
    while done < buffer.len() {
        let n = read_some(&mut input, &mut buffer[done..]);
        if n == 0 {
            return done;
        }
        done += n;
    }
    done
}

// The decimal numbers of standard input.
pub fn read_input(rt: &impl Input, list: &mut [u64]) {
    let mut buf = [0u8; 65536];
    let n = read_bytes(rt, &mut buf);
    read_numbers(&buf[..n], list);
}

// Copies a part of each of n numbers from a place of the list on.
fn copy_part<T: Copy, F: Fn(u64) -> T>(
    list: &[u64],
    from: usize,
    column: &mut [T],
    n: usize,
    part: F,
)
    requires { F.IsAlwaysCallable part }
{
    let m = n.min(column.len());
    for (i, place) in column[..m].iter_mut().enumerate() {
        *place = part(at(list, after(from, i)));
    }
}

// Copies n numbers from a place of the list on. copy_u32 and copy_u8 stay two lines over copy_part: each takes another part of a number.
pub fn copy_u32(list: &[u64], from: usize, column: &mut [u32], n: usize) {
    copy_part(list, from, column, n, narrow);
}

pub fn copy_u8(list: &[u64], from: usize, column: &mut [u8], n: usize) {
    copy_part(list, from, column, n, |x| (x % 256) as u8);
}

// The bits of a float, 0 for a NaN.
pub fn bits(x: f64) -> u64 {
    if x != x {
        return 0;
    }
    f64::to_bits(x)
}

// A checksum with one more number.
pub fn mix(h: u64, x: u64) -> u64 {
    std::num::wrapping_add_u64(std::num::wrapping_add_u64(h << 5, h >> 3), x)
}

// The checksum of the first n bytes, or of all where there are fewer.
pub fn checksum(bytes: &[u8], n: usize) -> u64 {
    let m = n.min(bytes.len());
    let mut h: u64 = 1;
    for i in 0..m {
        h = mix(h, u64::from(bytes[i]));
    }
    h
}

pub fn write(rt: &impl Print, text: &[u8]) {
    let _ = rt.write_all(text);
}

pub fn write_number(rt: &impl Print, n: u32) {
    let _ = print!(rt; "{n}");
}

pub fn end_line(rt: &impl Print) {
    write(rt, b"\n");
}

// A number and a blank.
pub fn show(rt: &impl Print, n: u64) {
    let _ = print!(rt; "{n} ");
}

// A number on a line of its own.
pub fn show_line(rt: &impl Print, n: u64) {
    let _ = println!(rt; "{n}");
}

// The number of the question that refused a call, 0 where none did.
pub fn refusal_number(answer: Result<(), Refusal>) -> u32 {
    match answer {
        Ok(()) => 0,
        Err(refusal) => u32::from(refusal),
    }
}

pub fn show_answer(rt: &impl Print, answer: Result<(), Refusal>) {
    show(rt, u64::from(refusal_number(answer)));
    end_line(rt);
}

// How many numbers a call listed, or the number of a refusal plus 100.
pub fn show_length(rt: &impl Print, answer: Result<u32, Refusal>) {
    match answer {
        Ok(n) => show(rt, u64::from(n)),
        Err(refusal) => show(rt, u32::from(refusal) as u64 + 100),
    }
    end_line(rt);
}

// 0 and how many defects and erasures a call listed, or the number of a refusal.
pub fn show_lengths(rt: &impl Print, answer: Result<SyndromeLengths, Refusal>) {
    match answer {
        Ok(lengths) => {
            show(rt, 0);
            show(rt, u64::from(lengths.defects));
            show(rt, u64::from(lengths.erasures));
        }
        Err(refusal) => show(rt, u32::from(refusal) as u64),
    }
    end_line(rt);
}

// The first n numbers of a column, or all where there are fewer.
pub fn show_list(rt: &impl Print, list: &[u32], n: usize) {
    let m = n.min(list.len());
    for i in 0..m {
        show(rt, u64::from(list[i]));
    }
    end_line(rt);
}

pub fn show_bytes(rt: &impl Print, bytes: &[u8], n: usize) {
    let m = n.min(bytes.len());
    for i in 0..m {
        show(rt, u64::from(bytes[i]));
    }
    end_line(rt);
}

// A least weight, or none.
pub fn show_weight(rt: &impl Print, w: TableWeight) {
    if w < 0 {
        write(rt, b"- ");
    } else {
        show(rt, w as u64);
    }
}

pub fn show_weights(rt: &impl Print, list: &[TableWeight], n: usize) {
    let m = n.min(list.len());
    for i in 0..m {
        show_weight(rt, list[i]);
    }
    end_line(rt);
}
