// The fields of a line.
ghost use Rattle.std.specs.Prelude.{◌≡◌, Bool, ◌||◌, not, ◌+◌, ◌≤◌, eqb, length, get_or, take, drop};
ghost use Rattle.columns.specs.Questions.{all};
ghost use Rattle.text_input.specs.Line.{is_digit, is_hex_digit, digits, digit_of, hex_digit_of, number_written, decimal_sound, hex_sound};

// Whether a byte is a decimal digit.
fn is_digit(b: u8) -> bool
    ensures { result ≡ is_digit b }
{
    b'0' <= b && b <= b'9'
}

// Whether a byte is a hexadecimal digit.
fn is_hex_digit(b: u8) -> bool
    ensures { result ≡ is_hex_digit b }
{
    is_digit(b) || b'a' <= b && b <= b'f'
}

// The byte at a place, 0 past the end.
fn byte_at(text: &[u8], at: usize) -> u8
    ensures { result ≡ get_or text.now at 0 }
{
    if at < text.len() { text[at] } else { 0 }
}

// How many digits stand from a place on.
pub fn digits_at(text: &[u8], at: usize) -> usize
    requires { at ≤ 1000 }
    ensures { (result ≡ digits (drop at text.now)) × (result ≤ length text.now) }
{
    let rest = text.len().saturating_sub(at);
    for n in 0..rest {
        if !is_digit(text[at + n]) {
            return n;
        }
    }
    rest
}

// Whether the n digits from a place on have no leading zero.
fn no_leading_zero(n: usize, first: u8) -> bool
    ensures { result ≡ (eqb n 1 || not (eqb first 48)) }
{
    n == 1 || first != b'0'
}

// Whether a sound decimal field of n digits stands from a place on, and then the byte `stop`.
pub fn decimal_sound(text: &[u8], at: usize, n: usize, stop: u8) -> bool
    requires { (at ≤ 1000) × (n ≤ 1000) × (n ≡ digits (drop at text.now)) }
    ensures { result ≡ decimal_sound stop (drop at text.now) }
{
    let few = (1 <= n) & (n <= 9);
    let plain = no_leading_zero(n, byte_at(text, at));
    let ended = byte_at(text, at + n) == stop;
    few & (plain & ended)
}

// Whether the 16 bytes from a place on are hexadecimal digits.
fn are_hex(text: &[u8], at: usize) -> bool
    requires { at + 16 ≤ length text.now }
    ensures { result ≡ all is_hex_digit (take 16 (drop at text.now)) }
{
    for i in 0..16 {
        if !is_hex_digit(text[at + i]) {
            return false;
        }
    }
    true
}

// Whether 16 hexadecimal digits and a comma stand from a place on.
pub fn hex_sound(text: &[u8], at: usize) -> bool
    requires { at ≤ 1000 }
    ensures { result ≡ hex_sound (drop at text.now) }
{
    if text.len() < at + 16 {
        return false;
    }
    let are = are_hex(text, at);
    let ended = byte_at(text, at + 16) == b',';
    are & ended
}

// What a digit counts.
fn digit_of(b: u8) -> u32
    ensures { result ≡ digit_of b }
{
    b.saturating_sub(48) as u32
}

fn hex_digit_of(b: u8) -> u64
    ensures { result ≡ hex_digit_of b }
{
    if b <= 57 {
        return digit_of(b) as u64;
    }
    b.saturating_sub(87) as u64
}

// The number that n digits from a place on write.
pub fn decimal_value(text: &[u8], at: usize, n: usize) -> u32
    requires { (n ≤ 9) × (at + n ≤ length text.now) × (n ≡ digits (drop at text.now)) }
    ensures { result ≡ number_written 10 digit_of 0 (take n (drop at text.now)) }
{
    let mut v: u32 = 0;
    for i in 0..n {
        v = v * 10 + digit_of(text[at + i]);
    }
    v
}

// The number that 16 hexadecimal digits from a place on write.
pub fn hex_value(text: &[u8], at: usize) -> u64
    requires at_in_bounds { at + 16 ≤ length text.now }
    requires text_value { all is_hex_digit (take 16 (drop at text.now)) ≡ Bool.true }
    ensures { result ≡ number_written 16 hex_digit_of 0 (take 16 (drop at text.now)) }
{
    let mut v: u64 = 0;
    for i in 0..16 {
        v = v * 16 + hex_digit_of(text[at + i]);
    }
    v
}
