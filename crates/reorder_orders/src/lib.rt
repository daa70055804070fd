// Orders: question 14, and the new number of each old vertex.
#![tactic(auto)]

ghost use Rattle.std.specs.Prelude.{◌≡◌, true, ℕ, ◌<◌, ◌≤◌, length, get_or, take};
ghost use Rattle.columns.specs.Lists.{over};
ghost use Rattle.columns.specs.Questions.{ask, all_below};
ghost use Rattle.columns.specs.Refusals.{question_of};
ghost use Rattle.reorder_orders.specs.Order.{none_twice, old_to_new, renamed, moved};
ghost use Rattle.reorder_orders.specs.Steps.{IsOrder};

use columns::refusal::{Refusal, require};

// Whether no number is twice in the order; seen holds 0 alone.
fn fresh_in(order: &[u32], seen: &mut [u8]) -> bool
    requires { ((i : ℕ) → i < length order.now → get_or order.now i 0 < length seen.old) × ((u : ℕ) → get_or seen.old u 0 ≡ 0) }
    ensures { result ≡ none_twice order.now }
{
    for vertex in order {
        let at = *vertex as usize;
        if seen[at] == 1 {
            return false;
        }
        seen[at] = 1;
    }
    true
}

// Whether no number is twice in the order.
fn none_twice(order: &[u32]) -> bool
    requires { (i : ℕ) → i < length order.now → get_or order.now i 0 < 4096 }
    ensures { result ≡ none_twice order.now }
{
    let mut seen = [0u8; 4096];
    fresh_in(order, &mut seen)
}

// Questions 13 and 14 of an order of at most 4,096 vertices.
pub fn order_questions(in_range: bool, order: &[u32]) -> Result<(), Refusal>
    requires order_len_bound { length order.now ≤ 4096 }
    requires order_value { in_range ≡ true → all_below (length order.now) order.now ≡ true }
    ensures { question_of result ≡ ask in_range 13 (ask (none_twice order.now) 14 0) }
{
    require(in_range, Refusal::NumberOutOfRange)?;
    require(none_twice(order), Refusal::RepeatedVertex)
}

// Stores the new number of each old vertex.
pub fn place_numbers(order: &[u32], new_numbers: &mut [u32])
    requires { IsOrder order.now × (length order.now ≤ length new_numbers.old) }
    ensures { new_numbers.new ≡ over (old_to_new order.now) new_numbers.old }
{
    for (i, vertex) in order.iter().enumerate() {
        let at = *vertex as usize;
        new_numbers[at] = i as u32;
    }
}

// Stores what stands at each listed place.
pub fn gather<T: Copy>(list: &[u32], from: &[T], to: &mut [T])
    requires { ((i : ℕ) → i < length list.now → get_or list.now i 0 < length from.now) × (length list.now ≤ length to.old) }
    ensures { (d : T) → to.new ≡ over (moved list.now d from.now) to.old }
{
    for (i, place) in list.iter().enumerate() {
        to[i] = from[*place as usize];
    }
}

fn translate_in(order: &[u32], list: &[u32], column: &mut [u32], new_numbers: &mut [u32])
    requires order { IsOrder order.now × (length order.now ≤ length new_numbers.old) × (length list.now ≤ length column.old) }
    requires by_index { (i : ℕ) → i < length list.now → get_or list.now i 0 < length order.now }
    ensures { column.new ≡ over (renamed order.now list.now) column.old }
{
    place_numbers(order, new_numbers);
    gather(list, new_numbers, column);
}

// Stores the new number of each listed old vertex.
pub fn translate(order: &[u32], list: &[u32], column: &mut [u32])
    requires order { IsOrder order.now × (length list.now ≤ length column.old) }
    requires by_index { (i : ℕ) → i < length list.now → get_or list.now i 0 < length order.now }
    ensures { column.new ≡ over (renamed order.now list.now) column.old }
{
    let mut new_numbers = [0u32; 4096];
    translate_in(order, list, column, &mut new_numbers);
}

// Renames the first n ends, where they stand.
fn rename_by(new_numbers: &[u32], ends: &mut [u32], n: usize)
    requires { ((i : ℕ) → i < n → get_or ends.old i 0 < length new_numbers.now) × (n ≤ length ends.old) }
    ensures { ends.new ≡ over (moved (take n ends.old) 0 new_numbers.now) ends.old }
{
    for end in &mut ends[..n] {
        *end = new_numbers[*end as usize];
    }
}

fn rename_in(
    order: &[u32],
    ends_a: &mut [u32],
    ends_b: &mut [u32],
    n: usize,
    new_numbers: &mut [u32],
)
    requires order { IsOrder order.now × (length order.now ≤ length new_numbers.old) × (n ≤ length ends_a.old) × (n ≤ length ends_b.old) }
    requires by_index { ((i : ℕ) → i < n → get_or ends_a.old i 0 < length order.now) × ((i : ℕ) → i < n → get_or ends_b.old i 0 < length order.now) }
    ensures ends_a_after { ends_a.new ≡ over (renamed order.now (take n ends_a.old)) ends_a.old }
    ensures ends_b_after { ends_b.new ≡ over (renamed order.now (take n ends_b.old)) ends_b.old }
{
    place_numbers(order, new_numbers);
    rename_by(new_numbers, ends_a, n);
    rename_by(new_numbers, ends_b, n);
}

// Renames the ends of the first n edges.
pub fn rename_ends(order: &[u32], ends_a: &mut [u32], ends_b: &mut [u32], n: usize)
    requires order { IsOrder order.now × (n ≤ length ends_a.old) × (n ≤ length ends_b.old) }
    requires by_index { ((i : ℕ) → i < n → get_or ends_a.old i 0 < length order.now) × ((i : ℕ) → i < n → get_or ends_b.old i 0 < length order.now) }
    ensures ends_a_after { ends_a.new ≡ over (renamed order.now (take n ends_a.old)) ends_a.old }
    ensures ends_b_after { ends_b.new ≡ over (renamed order.now (take n ends_b.old)) ends_b.old }
{
    let mut new_numbers = [0u32; 4096];
    rename_in(order, ends_a, ends_b, n, &mut new_numbers);
}
