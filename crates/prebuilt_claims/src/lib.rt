// What is claimed of the prebuilt complete graph's calls together. The claim is the contract of a function with nothing to do.
#![tactic(auto)]

ghost use Rattle.prebuilt_claims.specs.PrebuiltRows.{PrebuiltRows};

// After an accepted `fill_boundaries` its columns hold the Rust's boundary weights and vertices, `get_boundary_weight` reports the same, and `fill_row` over these
// columns gives the Rust's row; boundary weights and rows are least weights of walks.
pub fn prebuilt_rows()
    ensures { PrebuiltRows }
{}
