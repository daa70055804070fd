// Runs of stores from a column's start: fills and copies. Every function takes any input.
#![tactic(auto)]

ghost use Rattle.std.specs.Prelude.{◌≡◌, take, replicate};
ghost use Rattle.std.proofs.lemmas.List.Edits.{sets};

// Stores the value at the first n places, or at all where there are fewer.
pub fn fill<T: Copy>(column: &mut [T], n: usize, value: T)
    ensures { column.new ≡ sets column.old 0 (replicate n value) }
{
    let m = n.min(column.len());
    for place in &mut column[..m] {
        *place = value;
    }
}

// Copies the first n elements, or as many as there are and have places.
pub fn copy<T: Copy>(to: &mut [T], from: &[T], n: usize)
    ensures { to.new ≡ sets to.old 0 (take n from.now) }
{
    let m = n.min(from.len()).min(to.len());
    // No copy_from_slice: the archives for C would need memmove.
    for i in 0..m {
        to[i] = from[i];
    }
}
