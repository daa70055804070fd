// Loads and stores that take any place.
ghost use Rattle.std.specs.Prelude.{◌≡◌, set, get_or};
ghost use Rattle.columns.specs.Places.{zero_float};

// What stands at a place, 0 past the end.
pub fn load_f64(column: &[f64], at: usize) -> f64
    ensures { result ≡ get_or column.now at zero_float }
{
    if at < column.len() { column[at] } else { 0.0 }
}

// Stores at a place; past the end nothing changes.
pub fn store_f64(column: &mut [f64], at: usize, value: f64)
    ensures { column.new ≡ set column.old at value }
{
    if at < column.len() {
        column[at] = value;
    }
}
