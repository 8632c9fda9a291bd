// The twelve worked examples P1 to P12 of the scope document stand in specs/Examples.antt as one list, with what it means that each of
// them holds; the checker computes them from the definitions that the contracts of the calls cite.
#![tactic(auto)]

ghost use Rattle.worked_examples.specs.Examples.{Laws};

// P1 to P12 hold, in one claim.
pub fn laws()
    ensures { Laws }
{}
