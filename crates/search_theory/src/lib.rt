// The search by forcing and tries: what it ends with, and after how many tries.
// The functions compute nothing; their contracts bear the theorems.
#![tactic(auto)]

ghost use Rattle.search_theory.specs.Theorems.{ForcingSettled, EndsRight, TriesBounded, CoursesRight};
ghost use Rattle.search_theory.specs.Table.{TableComputed};

// The order of forcing changes neither whether it ends dead nor, if not, what is set.
pub fn forcing_settled()
    ensures { ForcingSettled }
{}

// What is found is the earliest setting that keeps the rules; where nothing is found, none keeps them.
pub fn ends_right()
    ensures { EndsRight }
{}

// With f free switches there are at most 2^(f + 1) - 2 tries, and fewer while a further one is due.
pub fn tries_bounded()
    ensures { TriesBounded }
{}

// What is known after so many tries, and that a budget may be split.
pub fn courses_right()
    ensures { CoursesRight }
{}

// The table of worked searches is what the definitions compute.
pub fn worked()
    ensures { TableComputed }
{}
