// Neighbour lists moved: a copy of them is read list by list, in the new order.
ghost use Rattle.std.specs.Prelude.{◌≡◌, ℕ, ◌+◌, ◌<◌, ◌≤◌, ◌^◌, length, get_or, take, drop};
ghost use Rattle.std.proofs.lemmas.List.Edits.{sets};
ghost use Rattle.columns.specs.Lists.{over};
ghost use Rattle.columns_neighbors.specs.Lists.{sum_to};
ghost use Rattle.reorder_calls.specs.Columns.{moved_lists};
ghost use Rattle.reorder_orders.specs.Steps.{IsOrder};

use columns_stores::copy;

// Where each of the first n lists starts, and the end of the last.
fn list_starts(lengths: &[u32], n: usize, starts: &mut [usize]) -> usize
    requires { (n ≤ length lengths.now) × (n ≤ length starts.old) × (sum_to n lengths.now < 2 ^ 63) }
    ensures { (result ≡ sum_to n lengths.now) × ((u : ℕ) → u < n → get_or starts.new u 0 ≡ sum_to u lengths.now) }
{
    let mut sum: usize = 0;
    for (i, length) in lengths[..n].iter().enumerate() {
        starts[i] = sum;
        sum += *length as usize;
    }
    sum
}

// Copies a run of numbers to a place.
fn copy_run(from: &[u32], start: usize, count: usize, to: &mut [u32], at: usize)
    requires { (start + count ≤ length from.now) × (at + count ≤ length to.old) }
    ensures { to.new ≡ sets to.old at (take count (drop start from.now)) }
{
    // No copy_from_slice: the archives for C would need memmove.
    for i in 0..count {
        to[at + i] = from[start + i];
    }
}

// Stores the lists in the new order, one after another.
fn gather_lists(order: &[u32], lengths: &[u32], starts: &[usize], from: &[u32], to: &mut [u32])
    requires order { IsOrder order.now × (length order.now ≤ length lengths.now) × (length order.now ≤ length starts.now) }
    requires by_index { (u : ℕ) → u < length order.now → get_or starts.now u 0 ≡ sum_to u lengths.now }
    requires lengths_in_bounds { (sum_to (length order.now) lengths.now ≤ length from.now) × (sum_to (length order.now) lengths.now ≤ length to.old) }
    ensures { to.new ≡ over (moved_lists order.now lengths.now from.now) to.old }
{
    let mut at: usize = 0;
    for vertex in order {
        let u = *vertex as usize;
        let count = lengths[u] as usize;
        copy_run(from, starts[u], count, to, at);
        at += count;
    }
}

fn move_lists_in(
    order: &[u32],
    lengths: &[u32],
    numbers: &mut [u32],
    scratch: &mut [u32],
    starts: &mut [usize],
)
    requires order { IsOrder order.now × (length order.now ≤ length lengths.now) × (length order.now ≤ length starts.old) }
    requires lengths_in_bounds { (sum_to (length order.now) lengths.now ≤ length numbers.old) × (sum_to (length order.now) lengths.now ≤ length scratch.old) }
    ensures numbers_after { numbers.new ≡ over (moved_lists order.now lengths.now numbers.old) numbers.old }
    ensures scratch_after { scratch.new ≡ over (take (sum_to (length order.now) lengths.now) numbers.old) scratch.old }
{
    let sum = list_starts(lengths, order.len(), starts);
    copy(scratch, numbers, sum);
    gather_lists(order, lengths, starts, scratch, numbers);
}

// Moves the neighbour lists; the scratch holds the old ones.
pub fn move_lists(order: &[u32], lengths: &[u32], numbers: &mut [u32], scratch: &mut [u32])
    requires order { IsOrder order.now × (length order.now ≤ length lengths.now) }
    requires lengths_in_bounds { (sum_to (length order.now) lengths.now ≤ length numbers.old) × (sum_to (length order.now) lengths.now ≤ length scratch.old) }
    ensures numbers_after { numbers.new ≡ over (moved_lists order.now lengths.now numbers.old) numbers.old }
    ensures scratch_after { scratch.new ≡ over (take (sum_to (length order.now) lengths.now) numbers.old) scratch.old }
{
    let mut starts = [0usize; 4096];
    move_lists_in(order, lengths, numbers, scratch, &mut starts);
}
