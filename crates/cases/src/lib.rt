// Document 01's starred cases: the table and the theorem are in specs/Table.antt.
#![tactic(auto)]

ghost use Rattle.cases.specs.Table.{Cases};

// Does nothing: its contract is the theorem that every row of the table comes out as expected.
pub fn cases()
    ensures { Cases }
{}
