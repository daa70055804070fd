// The tests that the questions at the door are made of. Each is total and equal to one definition.
ghost use Rattle.std.specs.Prelude.{◌≡◌, Bool, ◌&&◌, ◌||◌, ◌+◌, min, leb, eqb, take};
ghost use Rattle.columns.specs.Limits.{weight_limit};
ghost use Rattle.columns.specs.Questions.{ask, all, Decides, all_below, all_within, vertex_count_sound, edge_count_sound, boundaries_sound, marks_sound, half_weights_sound, weights_sound};

use super::{
    BOUNDARY_LIMIT, EDGE_LIMIT, HALF_WEIGHT_LIMIT, MARK_LIMIT, VERTEX_LIMIT, WEIGHT_LIMIT, Weight,
};

// Whether a column of so many places has room for more entries beside those used.
pub fn has_room(used: usize, more: usize, places: usize) -> bool
    ensures { result ≡ leb (used + more) places }
{
    used <= places && more <= places - used
}

// Whether each of the first n elements, or of all where there are fewer, passes a test. Every element is tested.
pub fn all_pass<T: Copy, F: Fn(T) -> bool>(s: &[T], n: usize, test: F) -> bool
    requires { F.IsAlwaysCallable test }
    ensures { (passes : T → Bool) → Decides (F.post test) passes → result ≡ all passes (take n s.now) }
{
    let mut pass = true;
    for x in &s[..n.min(s.len())] {
        pass &= test(*x);
    }
    pass
}

// Whether the first n numbers, or all where there are fewer, are below the limit.
pub fn all_below(s: &[u32], n: usize, limit: u32) -> bool
    ensures { result ≡ all_below limit (take n s.now) }
{
    all_pass(s, n, |x| x < limit)
}

// Question 13, of a list that a caller hands over: whether every number is below the limit.
pub fn each_below(list: &[u32], limit: u32) -> bool
    ensures { result ≡ all_below limit list.now }
{
    all_below(list, list.len(), limit)
}

// Whether the first n weights, or all where there are fewer, are at most the limit. weights_within and bytes_within stay two lines over all_pass: a bound that
// ties both types to numbers is no shorter.
fn weights_within(s: &[Weight], n: usize, limit: Weight) -> bool
    ensures { result ≡ all_within limit (take n s.now) }
{
    all_pass(s, n, |x| x <= limit)
}

// Whether the first n bytes, or all where there are fewer, are at most the limit.
fn bytes_within(s: &[u8], n: usize, limit: u8) -> bool
    ensures { result ≡ all_within limit (take n s.now) }
{
    all_pass(s, n, |x| x <= limit)
}

// Question 7: 1 to 4,096 vertices.
pub fn vertex_count_sound(vertex_num: u32) -> bool
    ensures { result ≡ vertex_count_sound vertex_num }
{
    1 <= vertex_num && vertex_num <= VERTEX_LIMIT
}

// Question 7: 0 to 32,768 edges.
pub fn edge_count_sound(edge_num: u32) -> bool
    ensures { result ≡ edge_count_sound edge_num }
{
    edge_num <= EDGE_LIMIT
}

// Question 7, of the first n boundary bytes.
pub fn boundaries_sound(column: &[u8], n: usize) -> bool
    ensures { result ≡ boundaries_sound n column.now }
{
    bytes_within(column, n, BOUNDARY_LIMIT)
}

// Question 7, of the first n defect bytes or erasure bytes.
pub fn marks_sound(column: &[u8], n: usize) -> bool
    ensures { result ≡ marks_sound n column.now }
{
    bytes_within(column, n, MARK_LIMIT)
}

// Question 7, of the first n half weights.
pub fn half_weights_sound(column: &[Weight], n: usize) -> bool
    ensures { result ≡ half_weights_sound n column.now }
{
    weights_within(column, n, HALF_WEIGHT_LIMIT)
}

// Question 7, of the first n weights.
pub fn weights_sound(column: &[Weight], n: usize) -> bool
    ensures { result ≡ weights_sound n column.now }
{
    weights_within(column, n, WEIGHT_LIMIT)
}

// Question 15: whether every weight of a list that a caller hands over is at most 500,000.
pub fn each_weight_sound(list: &[Weight]) -> bool
    ensures { result ≡ all_within weight_limit list.now }
{
    weights_within(list, list.len(), WEIGHT_LIMIT)
}
