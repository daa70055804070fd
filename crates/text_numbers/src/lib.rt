// Bytes and decimal numbers of a text, and the lines of a listing.
#![tactic(auto)]

pub mod lines;

ghost use Rattle.std.specs.Prelude.{◌≡◌, [], ◌∷◌, set, ◌+◌, ◌/◌, ◌%◌, ◌^◌, ◌≤◌};
ghost use Rattle.text_numbers.specs.Text.{size_in, decimal};
ghost use Rattle.text_numbers.specs.Steps.{Put};

// Stores a byte at a place; past the end nothing changes.
fn store(text: &mut [u8], at: usize, b: u8)
    ensures { text.new ≡ set text.old at b }
{
    if at < text.len() {
        text[at] = b;
    }
}

// Stores a byte where the text has a place for it.
fn put_byte(text: &mut [u8], at: usize, b: u8) -> usize
    requires { at ≤ 20000000 }
    ensures { Put text.old at (b ∷ []) text.new result }
{
    store(text, at, b);
    at + 1
}

// 10 to the power k.
fn power_of_ten(k: u32) -> u32
    requires { k ≤ 9 }
    ensures { result ≡ 10 ^ k }
{
    let mut power: u32 = 1;
    for i in 0..k {
        power = power * 10;
    }
    power
}

// Digit k of a number, counted from the last.
fn digit(n: u32, k: u32) -> u8
    requires { k ≤ 9 }
    ensures { result ≡ 48 + n / 10 ^ k % 10 }
{
    let power = power_of_ten(k);
    (48 + n / power % 10) as u8
}

// How many digits a number has.
fn size(n: u32) -> u32
    ensures { (result ≡ size_in 9 n) × (result ≤ 10) }
{
    for k in (1..10).rev() {
        if power_of_ten(k) <= n {
            return k + 1;
        }
    }
    1
}

// Stores a number.
fn put_decimal(text: &mut [u8], at: usize, n: u32) -> usize
    requires { at ≤ 19000000 }
    ensures { Put text.old at (decimal n) text.new result }
{
    let mut next = at;
    for k in (0..size(n)).rev() {
        next = put_byte(text, next, digit(n, k));
    }
    next
}

// Stores a comma and a number.
fn put_field(text: &mut [u8], at: usize, n: u32) -> usize
    requires { at ≤ 18000000 }
    ensures { Put text.old at (0x2c ∷ decimal n) text.new result × (result ≤ at + 11) }
{
    let a = put_byte(text, at, b',');
    put_decimal(text, a, n)
}
