// Demand 1 over every exported call: the theorem is in specs/Refusals.antt.
#![tactic(auto)]

ghost use Rattle.refusals.specs.Refusals.{Demand1};

// Does nothing: its contract is demand 1.
pub fn demand_1()
    ensures { Demand1 }
{}
