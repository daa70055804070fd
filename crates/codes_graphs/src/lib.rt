// The graphs of built codes: what is claimed of them. Each claim is the contract of a function with nothing to do.
#![tactic(auto)]

ghost use Rattle.codes_graphs.specs.Claims.{CodesAreSound, CodesHaveDistance};

// Every accepted code meets question 7, has edges at every vertex, and no edge twice in a neighbour list.
pub fn codes_are_sound()
    ensures { CodesAreSound }
{}

// With every weight 1 the crossing weight of every accepted code is d, and no crossing set has fewer than d edges.
pub fn codes_have_distance()
    ensures { CodesHaveDistance }
{}
