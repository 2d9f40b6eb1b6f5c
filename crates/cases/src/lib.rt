#![tactic(auto)]

ghost use Rattle.cases.specs.Worked.{WorkedCases};

// Worked cases of the rules, over the definitions that the contracts cite.
pub fn worked_cases()
    ensures { WorkedCases }
{}
