// What is claimed of loads and resets one by one. The claim is the contract of a function with nothing to do.
#![tactic(auto)]

ghost use Rattle.engine_claims.specs.Log.{LoadsAndResets};

// A load gives each edge what it names last and logs the earlier weight; a reset gives each edge what the log holds first, and after a load every weight back.
pub fn loads_and_resets()
    ensures { LoadsAndResets }
{}
