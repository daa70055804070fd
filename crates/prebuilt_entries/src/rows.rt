// The entries of a row.
ghost use Rattle.std.specs.Prelude.{◌≡◌, ◌||◌, ◌<◌, ◌≤◌, length};
ghost use Rattle.std.proofs.lemmas.List.Edits.{sets};
ghost use Rattle.columns.specs.Limits.{table_bound};
ghost use Rattle.columns.specs.Lists.{each};
ghost use Rattle.prebuilt_entries.specs.Entries.{rank, in_the_middle, is_virtual, entry_by, row_entry};

use columns::{TableWeight, VertexIndex, Weight};

// One more than a weight, 0 for a negative number.
pub fn rank_of(x: TableWeight) -> Weight
    ensures value { result ≡ rank x }
    ensures upper_bound { result ≤ table_bound }
{
    if x < 0 {
        return 0;
    }
    (x as Weight) + 1
}

// Whether an edge of weight x lies in the middle, from the boundary weights of its ends. Weights are added, not ranks: two ranks may be too much for a Weight.
fn in_the_middle(own: TableWeight, peer: TableWeight, x: TableWeight) -> bool
    ensures { result ≡ in_the_middle own peer x }
{
    0 <= own && 0 <= peer && 0 <= x && (own as Weight) + (peer as Weight) < x as Weight
}

// Whether a row has no entry: one end is virtual, or both are the same.
fn is_hidden(own: u8, byte: u8, same: bool) -> bool
    ensures { result ≡ (is_virtual own || (is_virtual byte || same)) }
{
    own != 0 || byte != 0 || same
}

// An entry of a row.
fn row_entry(hidden: bool, own: TableWeight, peer: TableWeight, x: TableWeight) -> TableWeight
    ensures { result ≡ entry_by hidden own peer x }
{
    if hidden || in_the_middle(own, peer, x) {
        -1
    } else {
        x
    }
}

// The row of v, from the least weights that stand in its column.
pub fn write_row(boundary: &[u8], nearest: &[TableWeight], v: VertexIndex, out: &mut [TableWeight])
    requires { (length boundary.now ≤ length nearest.now) × (length boundary.now ≤ length out.old) × (v.0 < length boundary.now) }
    ensures { out.new ≡ sets out.old 0 (each (length boundary.now) (row_entry boundary.now nearest.now v.0 out.old)) }
{
    let at = v.0 as usize;
    for u in 0..boundary.len() {
        let hidden = is_hidden(boundary[at], boundary[u], u == at);
        out[u] = row_entry(hidden, nearest[at], nearest[u], out[u]);
    }
}
