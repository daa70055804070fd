// What document 01 says of weights, over what callers learn. Each claim is the contract of a function with nothing to do.
#![tactic(auto)]

ghost use Rattle.weights_claims.specs.Claims.{HalvedUntilBelow2, HalfWeightsAreGreatest, OneZero, AllHalf, ConstantsAre};

// The logarithm's halvings go on until the number is below 2.
pub fn halved_until_below_2()
    ensures { HalvedUntilBelow2 }
{}

// A half weight is the greatest number that its edge's share of M reaches, and at least 1.
pub fn half_weights_are_greatest()
    ensures { HalfWeightsAreGreatest }
{}

// One p of 0 makes every half weight 1, and 10 does not refuse it.
pub fn one_zero()
    ensures { OneZero }
{}

// Every p 0.5 is refused by 10.
pub fn all_half()
    ensures { AllHalf }
{}

// The numbers that stand in the definitions as bits.
pub fn constants_are()
    ensures { ConstantsAre }
{}
