// What document 01 says of samplings, errors and syndromes, and document 02, job 4, of flips, over what callers learn. Each claim is the contract of a function with nothing to do.
#![tactic(auto)]

ghost use Rattle.sampling_claims.specs.Lists.{ListsAscend};
ghost use Rattle.sampling_claims.specs.Samplings.{SameMarks, TakesTwoDraws, SampledSyndrome};
ghost use Rattle.sampling_claims.specs.Flips.{FlipGives, ErrorsFlip, TwiceCancels};

// Two samplings with one seed set the same erasure marks before an edge as long as the edges before it carry the same p and pe.
pub fn same_marks()
    ensures { SameMarks }
{}

// A sampling takes two draws for every edge.
pub fn takes_two_draws()
    ensures { TakesTwoDraws }
{}

// The defects of a sampling are the syndrome of the edges whose error was drawn.
pub fn sampled_syndrome()
    ensures { SampledSyndrome }
{}

// The lists that the calls hand back ascend.
pub fn lists_ascend()
    ensures { ListsAscend }
{}

// For bytes 0 and 1 a flip gives 1 minus the byte at an inner vertex, the byte itself at a virtual one.
pub fn flip_gives()
    ensures { FlipGives }
{}

// `generate_errors` flips over standing defects.
pub fn errors_flip()
    ensures { ErrorsFlip }
{}

// In `syndrome_of` an edge named twice cancels.
pub fn twice_cancels()
    ensures { TwiceCancels }
{}
