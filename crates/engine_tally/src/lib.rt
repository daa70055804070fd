// The law of the tally that a list of calls says by itself.
#![tactic(auto)]

ghost use Rattle.engine_tally.specs.Readers.{WeighsLastNamed};

// After every list of calls the tally's weight of an edge is what an accepted load last named for it since the last accepted reset, else its opening weight.
pub fn weighs_last_named()
    ensures { WeighsLastNamed }
{}
