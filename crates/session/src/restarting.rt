// A search begun anew in the memory of the one before.
ghost use Rattle.std.specs.Prelude.{◌≡◌, ◌≤◌, map, length, IfOk, Some, vec_capacity};
ghost use Rattle.rules.specs.Constraints.{clause};
ghost use Rattle.rules.specs.Views.{constraint, clause_constraint, row_constraint};
ghost use Rattle.parity_theory.specs.Recovering.{clauses as clauses_of};
ghost use Rattle.parity_theory.specs.Reducing.{rows as rows_of};
ghost use Rattle.parity.specs.Reductions.{standing_rules};
ghost use Rattle.search_theory.specs.Courses.{begin};
ghost use Rattle.search.specs.Searches.{course_of};
ghost use Rattle.session_theory.specs.System.{system as system_of};
ghost use Rattle.session.specs.Phases.{Over};

use parity::standing::Standing;
use rules::clauses::Clause;
use rules::rows::Row;
use rules::rule::Rule;
use search::search::Search;
use search::system::System;
use std::alloc::{AllocError, Global};

// A search over nothing, with room for the system of the most rules that can stand.
pub(crate) fn new_search(heap: Global) -> Result<Search, AllocError>
    ensures clauses { IfOk result (λ s. 2112 ≤ vec_capacity s.system.clauses) }
    ensures rows { IfOk result (λ s. 256 ≤ vec_capacity s.system.rows) }
{
    let clauses = Vec::with_capacity(heap, 2112)?;
    let rows = Vec::with_capacity(heap, 256)?;
    Ok(Search::new(System {
        switches: 0,
        clauses,
        rows,
    }))
}

// A search over nothing that takes no memory, and so cannot fail.
fn empty_search(heap: Global) -> Search {
    Search::new(System {
        switches: 0,
        clauses: Vec::new(heap),
        rows: Vec::new(heap),
    })
}

// Leaves the clauses among the rules, in their order, in the memory that was taken at opening.
fn fill_clauses(clauses: &mut Vec<Clause>, rules: &[Rule])
    requires { length rules.now ≤ vec_capacity clauses.old }
    ensures clauses { map clause_constraint clauses.new.items ≡ map clause (clauses_of (map constraint rules.now)) }
    ensures room { vec_capacity clauses.new ≡ vec_capacity clauses.old }
{
    clauses.clear();
    for rule in rules {
        if let Rule::Clause(clause) = rule {
            clauses.push_reserved(*clause);
        }
    }
}

// Leaves the given rows, in the memory that was taken at opening.
fn fill_rows(rows: &mut Vec<Row>, given: &[Row])
    requires { length given.now ≤ vec_capacity rows.old }
    ensures rows { rows.new.items ≡ given.now }
    ensures room { vec_capacity rows.new ≡ vec_capacity rows.old }
{
    rows.clear();
    for row in given {
        rows.push_reserved(*row);
    }
}

// Begins over the clauses among the rules and the rows of their parity rules.
pub(crate) fn restart(search: &mut Search, heap: Global, rules: &Standing, rows: &[Row])
    requires clauses { 2112 ≤ vec_capacity search.old.system.clauses }
    requires rows { 256 ≤ vec_capacity search.old.system.rows }
    requires reduced { rows_of rules.now.switches (standing_rules rules.now) ≡ Some (map row_constraint rows.now) }
    ensures over { Over rules.now.switches (standing_rules rules.now) search.new.system }
    ensures course { course_of search.new ≡ begin rules.now.switches (system_of rules.now.switches (standing_rules rules.now)) }
    ensures clauses { 2112 ≤ vec_capacity search.new.system.clauses }
    ensures rows { 256 ≤ vec_capacity search.new.system.rows }
{
    let old = std::mem::replace(search, empty_search(heap));
    let mut system = old.into_system();
    fill_clauses(&mut system.clauses, rules.rules.as_slice());
    fill_rows(&mut system.rows, rows);
    system.switches = rules.switches;
    *search = Search::new(system);
}
