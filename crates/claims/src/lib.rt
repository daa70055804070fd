// What is claimed of several sections together. Each claim is the contract of a function with nothing to do.
#![tactic(auto)]

ghost use Rattle.claims.specs.Demand3.{Demand3};
ghost use Rattle.claims.specs.Met.{ColumnsInRange};
ghost use Rattle.claims.specs.Queries.{AllEdgesIsLeast, GetPathIsLeast, CrossingCallIsLeast};
ghost use Rattle.claims.specs.Refusals.{NumbersNameQuestions};

// The customer's demand 3, for every list of load-erasures, load-weights, reset and crossing calls on a freshly opened graph.
pub fn demand_3()
    ensures { Demand3 }
{}

// Questions 6 and 7 met: ends are vertices, boundary bytes are 0, 1 or 2, weights are within their limit.
pub fn columns_in_range()
    ensures { ColumnsInRange }
{}

// `all_edges_with_terminate` and `all_edges`: accepted exactly where 6, 7 and 13 are met, with a table of least weights.
pub fn all_edges_is_least()
    ensures { AllEdgesIsLeast }
{}

// `get_path`: 17 exactly where no walk joins the two vertices, else a walk of least weight.
pub fn get_path_is_least()
    ensures { GetPathIsLeast }
{}

// `crossing`: 18 exactly where no walk joins left and right, else the least weight of a crossing set, and the least weights from the left.
pub fn crossing_call_is_least()
    ensures { CrossingCallIsLeast }
{}

// A refusal's number: no two questions have one, and none has that of an accepted call.
pub fn numbers_name_questions()
    ensures { NumbersNameQuestions }
{}
