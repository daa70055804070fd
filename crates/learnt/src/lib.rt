// What a caller learns of a call, for claims over calls: definitions, in specs/, and what they say.
#![tactic(auto)]

ghost use Rattle.learnt.specs.Learnt.{LearntIsTheFact};

// What a caller learns from a clause is the fact that the clause states.
pub fn learnt_is_the_fact()
    ensures { LearntIsTheFact }
{}
