// The first edge that joins the pair of an earlier one.
#![tactic(auto)]

ghost use Rattle.std.specs.Prelude.{◌≡◌, ℕ, ◌<◌, ◌≤◌, length};
ghost use Rattle.columns_pairs.specs.Pairs.{high_at, FirstRepeat};
ghost use Rattle.sanity_verdicts.specs.Sanity.{first_of, duplicate};
ghost use Rattle.sanity_pairs.specs.Steps.{FirstSame};

use columns::questions::all_below;
use columns::{EdgeIndex, VERTEX_LIMIT};
use columns_pairs::{first_repeat_in, high_at, low_at};
use sanity_verdicts::Finding;

// The first edge that joins the pair of edge i, or i.
fn first_same(a: &[u32], b: &[u32], i: usize) -> usize
    requires { (i < length a.now) × (i < length b.now) }
    ensures { FirstSame a.now b.now i result }
{
    let x = low_at(a, b, i);
    let y = high_at(a, b, i);
    for j in 0..i {
        if (low_at(a, b, j) == x) & (high_at(a, b, j) == y) {
            return j;
        }
    }
    i
}

// The first finding among the first n edges, one by one.
#[tactic(auto, using(sanity_verdicts::proofs::Scans::first_none, crate::proofs::SamePairs::scan_more, crate::proofs::SamePairs::scan_stop))]
fn duplicates_one_by_one(a: &[u32], b: &[u32], n: usize) -> Option<Finding>
    requires { (n ≤ length a.now) × (n ≤ length b.now) × (n ≤ 4294967295) }
    ensures { result ≡ first_of n (duplicate a.now b.now) }
{
    for i in 0..n {
        let earlier = first_same(a, b, i);
        if earlier < i {
            return Some(Finding::DuplicateEdge(EdgeIndex(earlier as u32), EdgeIndex(i as u32)));
        }
    }
    None
}

// The first of the first n edges that joins the pair of an earlier one, or n, where every end is below 4,096. The local arrays stand in a function of
// this crate, so that they and those for neighbour lists can take one place on the stack.
#[tactic(auto, using(columns_pairs::proofs::PairTests::zeros_table))]
fn first_by_lists(a: &[u32], b: &[u32], n: usize) -> usize
    requires n_bound { (n ≤ 32768) × (n ≤ length a.now) × (n ≤ length b.now) }
    requires by_index { (j : ℕ) → j < n → high_at a.now b.now j < 4096 }
    ensures { FirstRepeat a.now b.now n result }
{
    let mut table = [0u32; 4096];
    let mut keys = [0u32; 32768];
    let mut marks = [0u32; 4096];
    first_repeat_in(a, b, n, 4096, &mut table, &mut keys, &mut marks)
}

// The same for ends of any size: by lists where there are at most 32,768 edges with ends below 4,096, and else by sorting.
#[tactic(auto, using(columns::proofs::Tests::below_first))]
fn first_later(a: &[u32], b: &[u32], n: usize) -> usize
    requires { (n ≤ 65536) × (n ≤ length a.now) × (n ≤ length b.now) }
    ensures { FirstRepeat a.now b.now n result }
{
    if n <= 32768 && all_below(a, n, VERTEX_LIMIT) && all_below(b, n, VERTEX_LIMIT) {
        return first_by_lists(a, b, n);
    }
    columns_sorted_pairs::first_repeat(a, b, n)
}

// The first finding among the edges, up to 65,536 of them by the first that joins the pair of an earlier one.
#[tactic(auto, using(crate::proofs::SamePairs::repeat_none))]
pub fn duplicates(a: &[u32], b: &[u32], edge_num: u32) -> Option<Finding>
    requires { (edge_num ≤ length a.now) × (edge_num ≤ length b.now) }
    ensures { result ≡ first_of edge_num (duplicate a.now b.now) }
{
    let n = edge_num as usize;
    if 65536 < edge_num {
        return duplicates_one_by_one(a, b, n);
    }
    let later = first_later(a, b, n);
    if n <= later {
        return None;
    }
    let earlier = first_same(a, b, later);
    Some(Finding::DuplicateEdge(EdgeIndex(earlier as u32), EdgeIndex(later as u32)))
}
