// What is proved of a transmit queue: its bytes and their meaning, and that calls keep it whole. specs/ has the definitions.
#![tactic(auto)]

ghost use Rattle.tx_valid.specs.Means.{ResponsesMeans};

// Does nothing: its contract is the theorem of specs/Means.antt.
pub fn meaning()
    ensures { ResponsesMeans }
{}
