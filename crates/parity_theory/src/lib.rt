// What clauses and parity rules imply: recovered parity rules, the reduced system, and the number of settings.
// The functions compute nothing; their contracts bear the theorems.
#![tactic(auto)]

ghost use Rattle.parity_theory.specs.Claims.{OddOnCounts, RecoveryRight, ReductionRight, FreedomRight};
ghost use Rattle.parity_theory.specs.Cases.{CasesHold};

// The parity of a list of switches is that of the number of them that are on.
pub fn odd_on_counts()
    ensures { OddOnCounts }
{}

// Exactly the parity rules that clauses amount to are recovered, and a rule that is written out is regained.
pub fn recovery_right()
    ensures { RecoveryRight }
{}

// The rows are the one reduced system that the same settings keep as the parity rules.
pub fn reduction_right()
    ensures { ReductionRight }
{}

// With f free switches, exactly 2^f settings keep the parity rules.
pub fn freedom_right()
    ensures { FreedomRight }
{}

// Small systems, computed.
pub fn cases_hold()
    ensures { CasesHold }
{}
