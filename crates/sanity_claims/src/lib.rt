// What is claimed of `sanity_check` and the builders together. The claim is the contract of a function with nothing to do.
#![tactic(auto)]

ghost use Rattle.sanity_claims.specs.SoundCodes.{BuiltCodesAreSound};

// `sanity_check` gives verdict 0 to every code that `create_code`, `new` or `new_diagonal` builds.
pub fn built_codes_are_sound()
    ensures { BuiltCodesAreSound }
{}
