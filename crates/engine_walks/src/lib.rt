// Walks, edge sets and settling: what is claimed of their definitions. Each claim is the contract of a function with nothing to do.
#![tactic(auto)]

ghost use Rattle.engine_walks.specs.Claims.{FirstIsLeast, SettlingIsLeast, TableIsLeast, PathIsLeast, SumsFit, CrossingIsLeast, CrossingIsBounded, CertificateDecides, WeightsCompare};
ghost use Rattle.engine_walks.specs.Examples.{SettlingExamples};

// The vertex to take next is the waiting one of least weight, the smaller number among equals.
pub fn first_is_least()
    ensures { FirstIsLeast }
{}

// A taken vertex has the least weight of a walk from a source, also after an early stop; where nothing waits, all that is joined was taken.
pub fn settling_is_least()
    ensures { SettlingIsLeast }
{}

// The table: the source has 0 and itself, a row has the least weight and leads back to the source, or it has -1 and 0;
// a named end is reached if it is joined, and its weight parts the vertices that were taken from those that were not.
pub fn table_is_least()
    ensures { TableIsLeast }
{}

// The path: a walk that meets no vertex twice, whose steps sum to the total; no walk weighs less; none where no walk leads.
pub fn path_is_least()
    ensures { PathIsLeast }
{}

// The sums along walks and of settling fit 32 signed bits.
pub fn sums_fit()
    ensures { SumsFit }
{}

// The crossing weight: the least weight of a left-right walk and of a crossing set; none where no walk joins left and right.
pub fn crossing_is_least()
    ensures { CrossingIsLeast }
{}

// The grounds: potentials bound crossing sets from below, walks from above, and the bounds meet.
pub fn crossing_is_bounded()
    ensures { CrossingIsBounded }
{}

// A potential and a walk of the same weight determine the crossing weight.
pub fn certificate_decides()
    ensures { CertificateDecides }
{}

// Two graphs alike in ends and boundary bytes: equal weights give equal crossings, left columns and table weights, nowhere greater weights nowhere greater ones.
pub fn weights_compare()
    ensures { WeightsCompare }
{}

// Settling, tables, paths and crossings on document 01's listing and on graphs that tell wrong tie rules apart.
pub fn settling_examples()
    ensures { SettlingExamples }
{}
