// Demand 3 over whole lists of exported calls: the theorem is in specs/Runs.antt, an example that reaches its bound in specs/Example.antt.
#![tactic(auto)]

ghost use Rattle.regular_runs.specs.Runs.{Demand3};
ghost use Rattle.regular_runs.specs.Example.{Reached};

// Does nothing: its contract is demand 3.
pub fn demand_3()
    ensures { Demand3 }
{}

// Does nothing: its contract is that n + 1 updates and n + 2 polls are reached.
pub fn bound_reached()
    ensures { Reached }
{}
