// The tests of question 9.
#![tactic(auto)]

ghost use Rattle.std.specs.Prelude.{◌≡◌, not, ◌&&◌, ◌≤◌, T, length, take};
ghost use Rattle.std.specs.Float.Ieee.{is_nan};
ghost use Rattle.columns.specs.Questions.{all};
ghost use Rattle.weights_recipe.specs.Probabilities.{is_plus_zero, is_in_range, is_probability, is_erasure_probability};

use columns::questions::all_pass;

// 2 to the power -40.
const LEAST_P: f64 = f64::from_bits(0x3d70_0000_0000_0000);

// p where it is 0 or negative zero, else 1: never a NaN.
fn zero_or_one(p: f64) -> f64
    ensures { T (not (is_nan result)) × (is_plus_zero result ≡ is_plus_zero p) }
{
    if p == 0.0 { p } else { 1.0 }
}

// Whether p is 0, not negative zero.
fn is_plus_zero(p: f64) -> bool
    ensures { result ≡ is_plus_zero p }
{
    f64::to_bits(zero_or_one(p)) == 0
}

// Whether p is from 2 to the power -40 to 0.5.
fn is_in_range(p: f64) -> bool
    ensures { result ≡ is_in_range p }
{
    (LEAST_P <= p) & (p <= 0.5)
}

// Whether p is 0 (not negative zero) or from 2 to the power -40 to 0.5.
pub fn is_probability(p: f64) -> bool
    ensures { result ≡ is_probability p }
{
    is_plus_zero(p) | is_in_range(p)
}

// Whether pe is 0 to 1.
pub fn is_erasure_probability(pe: f64) -> bool
    ensures { result ≡ is_erasure_probability pe }
{
    (0.0 <= pe) & (pe <= 1.0)
}

// Whether the first n numbers, or all where there are fewer, are from 2 to the power -40 to 0.5.
fn are_in_range(p: &[f64], n: usize) -> bool
    ensures { result ≡ all is_in_range (take n p.now) }
{
    all_pass(p, n, is_in_range)
}

// Whether the first n numbers, or all where there are fewer, pass the test for p, by testing each.
fn each_probability(p: &[f64], n: usize) -> bool
    ensures { result ≡ all is_probability (take n p.now) }
{
    all_pass(p, n, is_probability)
}

// Whether the first n numbers, or all where there are fewer, pass the test for p. Mostly all are above 0, and the quicker test answers.
pub fn are_probabilities(p: &[f64], n: usize) -> bool
    ensures { result ≡ all is_probability (take n p.now) }
{
    if are_in_range(p, n) {
        return true;
    }
    each_probability(p, n)
}

// Whether the first n numbers, or all where there are fewer, pass the test for pe.
fn are_erasure_probabilities(pe: &[f64], n: usize) -> bool
    ensures { result ≡ all is_erasure_probability (take n pe.now) }
{
    all_pass(pe, n, is_erasure_probability)
}

// Whether the first n numbers of two columns are from 2 to the power -40 to 0.5, and from 0 to 1, in one pass.
fn both_in_range(p: &[f64], pe: &[f64], n: usize) -> bool
    requires { (n ≤ length p.now) × (n ≤ length pe.now) }
    ensures { result ≡ (all is_in_range (take n p.now) && all is_erasure_probability (take n pe.now)) }
{
    let mut pass = true;
    for i in 0..n {
        pass &= is_in_range(p[i]) & is_erasure_probability(pe[i]);
    }
    pass
}

// Whether the first n numbers of two columns, or all where there are fewer, pass the tests for p and for pe. Mostly the columns are long enough and
// every p is above 0, and one pass answers.
pub fn are_probable(p: &[f64], pe: &[f64], n: usize) -> bool
    ensures { result ≡ (all is_probability (take n p.now) && all is_erasure_probability (take n pe.now)) }
{
    if n <= p.len().min(pe.len()) && both_in_range(p, pe, n) {
        return true;
    }
    each_probability(p, n) & are_erasure_probabilities(pe, n)
}
