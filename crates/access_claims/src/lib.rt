// What is claimed of getters and setters. Each claim is the contract of a function with nothing to do.
#![tactic(auto)]

ghost use Rattle.access_claims.specs.Lists.{GetterLists};
ghost use Rattle.access_claims.specs.SetThenGet.{SetThenGet};

// A list of defects, erasures or virtual vertices that a getter hands back ascends and has all of them; places past the count are unchanged.
pub fn getter_lists()
    ensures { GetterLists }
{}

// A getter lists what a setter was handed, each number once, ascending.
pub fn set_then_get()
    ensures { SetThenGet }
{}
