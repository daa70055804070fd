// What is claimed of reorderings. Each claim is the contract of a function with nothing to do.
#![tactic(auto)]

ghost use Rattle.reorder_claims.specs.Moves.{ReorderingMoves};
ghost use Rattle.reorder_claims.specs.Keeps.{ReorderingKeeps};

// A reordering moves boundary byte, defect byte, position and neighbour list with the vertex and renames edge ends.
pub fn reordering_moves()
    ensures { ReorderingMoves }
{}

// A reordering keeps question 7, walks with their weights, the crossing weight and syndromes, up to the new numbers.
pub fn reordering_keeps()
    ensures { ReorderingKeeps }
{}
