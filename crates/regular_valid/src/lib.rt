// What is proved of the regular registry: its bytes and their meaning, that calls keep it whole, and demand 3 call by call. specs/ has the definitions.
#![tactic(auto)]

ghost use Rattle.regular_valid.specs.Means.{RegularMeans};

// Does nothing: its contract is the theorem of specs/Means.antt.
pub fn meaning()
    ensures { RegularMeans }
{}
