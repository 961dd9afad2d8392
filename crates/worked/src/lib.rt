// Small programs, each with what every stage makes of it, as one list with one proved result.
#![tactic(auto)]

ghost use Rattle.worked.specs.Cases.{WorkedCases};

// The check tells of each program's table, and its run reports, what is written beside it.
pub fn worked_cases() -> u8
    ensures { WorkedCases }
{
    0
}
