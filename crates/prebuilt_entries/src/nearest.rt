// The nearest virtual vertex in a table.
ghost use Rattle.std.specs.Prelude.{◌≡◌, ◌&&◌, cond, length};
ghost use Rattle.engine_walks.specs.Answers.{weight_in};
ghost use Rattle.prebuilt_entries.specs.Entries.{is_virtual};
ghost use Rattle.prebuilt_entries.specs.Nearest.{is_reached, amount, nearer_of, place_found, nearest_in};

use columns::{TableWeight, Weight};

// How much a weight of a table is, 0 for none.
fn amount_of(x: TableWeight) -> Weight
    ensures { result ≡ amount x }
{
    if x < 0 { 0 } else { x as Weight }
}

// The same of the weight of u, none past the column's end.
pub fn amount_at(least: &[TableWeight], u: usize) -> Weight
    ensures { result ≡ amount (weight_in least.now u) }
{
    if u < least.len() {
        amount_of(least[u])
    } else {
        0
    }
}

// Whether a table reaches u.
fn is_reached(least: &[TableWeight], u: usize) -> bool
    ensures { result ≡ is_reached (weight_in least.now u) }
{
    u < least.len() && 0 <= least[u]
}

// The nearer of u and the nearest vertex before it, where u is virtual and the table reaches it.
fn nearer(byte: u8, least: &[TableWeight], u: usize, best: Option<usize>) -> Option<usize>
    ensures { result ≡ cond (is_virtual byte && is_reached (weight_in least.now u)) (nearer_of least.now u best) best }
{
    if byte == 0 || !is_reached(least, u) {
        return best;
    }
    let Some(b) = best else {
        return Some(u);
    };
    if amount_at(least, u) < amount_at(least, b) {
        Some(u)
    } else {
        best
    }
}

// The nearest virtual vertex in a table.
pub fn nearest_place(boundary: &[u8], least: &[TableWeight]) -> Option<usize>
    requires { length boundary.now ≡ length least.now }
    ensures { result ≡ place_found (nearest_in boundary.now least.now (length least.now)) }
{
    let mut best = None;
    for u in 0..least.len() {
        best = nearer(boundary[u], least, u, best);
    }
    best
}
