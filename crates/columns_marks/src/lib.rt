// Bytes that are set, and lists of their numbers.
#![tactic(auto)]

ghost use Rattle.std.specs.Prelude.{◌≡◌, true, ℕ, ◌+◌, ◌<◌, ◌≤◌, length, get_or, set};
ghost use Rattle.std.proofs.lemmas.List.Edits.{sets};
ghost use Rattle.columns.specs.Lists.{when, over};
ghost use Rattle.columns_marks.specs.Marks.{is_set, listed, marks, Continued};

use columns_stores::fill;

// Whether a byte is set.
pub fn is_set(byte: u8) -> bool
    ensures { result ≡ is_set byte }
{
    byte != 0
}

// Stores a number at a place of a list where the test holds. The next place.
fn push_if(ok: bool, list: &mut [u32], at: u32, number: u32) -> u32
    requires { (at < length list.old) × (at < 4294967295) }
    ensures { (result ≡ at + length (when ok number)) × (list.new ≡ sets list.old at (when ok number)) }
{
    if ok {
        let i = at as usize;
        list[i] = number;
        return at + 1;
    }
    at
}

// Lists the numbers from one to before another whose byte is set, after those already listed. How many are listed then.
fn list_between(column: &[u8], from: u32, to: u32, list: &mut [u32], before: u32) -> u32
    requires { (from ≤ to) × (to ≤ length column.now) × (to ≤ length list.old) × (before ≡ length (listed from column.now)) }
    ensures { (result ≡ length (listed to column.now)) × Continued column.now from to list.old list.new }
{
    let mut count = before;
    for k in from..to {
        let ok = is_set(column[k as usize]);
        count = push_if(ok, list, count, k);
    }
    count
}

// Whether the 8 bytes from a place are all 0: then none of them is set.
fn all_zero(column: &[u8], at: usize) -> bool
    requires { at + 8 ≤ length column.now }
    ensures { result ≡ true → listed (at + 8) column.now ≡ listed at column.now }
{
    let mut zero = true;
    for i in 0..8 {
        zero &= column[at + i] == 0;
    }
    zero
}

// Lists those of the 8 numbers from a place on whose byte is set, after those already listed. How many are listed then.
fn list_block(column: &[u8], at: u32, list: &mut [u32], before: u32) -> u32
    requires { (at + 8 ≤ length column.now) × (at + 8 ≤ length list.old) × (at + 8 < 4294967296) × (before ≡ length (listed at column.now)) }
    ensures { (result ≡ length (listed (at + 8) column.now)) × Continued column.now at (at + 8) list.old list.new }
{
    if all_zero(column, at as usize) {
        return before;
    }
    list_between(column, at, at + 8, list, before)
}

// Lists the numbers below n whose byte is set, ascending. How many they are.
pub fn list_set(column: &[u8], n: u32, list: &mut [u32]) -> u32
    requires { (n ≤ length column.now) × (n ≤ length list.old) }
    ensures { (result ≡ length (listed n column.now)) × (list.new ≡ over (listed n column.now) list.old) }
{
    let mut count: u32 = 0;
    let mut k: u32 = 0;
    // while: eight numbers a turn keep a sparse list fast, and k, where the blocks end, is where the rest begins.
    while n - k >= 8 {
        count = list_block(column, k, list, count);
        k += 8;
    }
    list_between(column, k, n, list, count)
}

// Sets the byte of a number.
fn mark(column: &mut [u8], number: u32)
    requires { number < length column.old }
    ensures { column.new ≡ set column.old number 1 }
{
    let i = number as usize;
    column[i] = 1;
}

// Sets the byte of each number that the list names, and clears the others of the first n.
pub fn set_marks(column: &mut [u8], n: usize, list: &[u32])
    requires n_in_bounds { n ≤ length column.old }
    requires by_index { (i : ℕ) → i < length list.now → get_or list.now i 0 < n }
    ensures { column.new ≡ over (marks n list.now) column.old }
{
    fill(column, n, 0);
    for i in 0..list.len() {
        mark(column, list[i]);
    }
}
