// Reduction of the parity rules that stand, and what it tells.
ghost use Rattle.std.specs.Prelude.{◌≡◌, ◌≤◌, [], map, length, IfOk, Some, None, vec_len, vec_capacity, MatchOption};
ghost use Rattle.rules.specs.Views.{row_constraint};
ghost use Rattle.parity_theory.specs.Reducing.{as_rule, rows as rows_of, left_free};
ghost use Rattle.parity.specs.Views.{solved_row};

use crate::elimination::{Contradiction, Elimination};
use crate::equations::Solved;
use crate::standing::Standing;
use rules::rows::Row;
use std::alloc::{AllocError, Global};

// What the last reduction told, for its number of switches, with room for the most rows that a reduction has.
#[derive(Drop)]
pub struct Reduction {
    pub(crate) switches: u16,
    pub(crate) elimination: Elimination,
    // Beside the rows, whose memory is kept where the rules contradict each other.
    pub(crate) outcome: Result<(), Contradiction>,
    pub(crate) rows: Vec<Row>,
    ghost room: { 256 ≤ vec_capacity rows },
    ghost fewer: { vec_len rows ≤ switches },
}

// Writes the rows out, from the dependent down.
fn write_rows(rows: &mut Vec<Row>, solved: &[Solved])
    requires room { 256 ≤ vec_capacity rows.old }
    requires none { vec_len rows.old ≡ 0 }
    requires few { length solved.now ≤ 256 }
    ensures rows { map row_constraint rows.new.items ≡ map as_rule (map solved_row solved.now) }
    ensures len { vec_len rows.new ≡ length solved.now }
    ensures room { vec_capacity rows.new ≡ vec_capacity rows.old }
{
    for row in solved {
        rows.push_reserved(Row::from(row));
    }
}

// What the rules come to now, in the place of what was told before. It is a step of its own, so that an edit can turn it and no other.
fn put_outcome(told: &mut Result<(), Contradiction>, now: Result<(), Contradiction>)
    ensures { told.new ≡ now }
{
    *told = now;
}

impl Reduction {
    ghost use Rattle.parity.specs.Reductions.{rows_told, switches_told, standing_rules, Right};

    // Takes the memory for all reductions. What it tells at first is the reduction of no rules over no switches.
    pub fn new(heap: Global) -> Result<Reduction, AllocError>
        ensures { IfOk result (λ d. (rows_told d ≡ rows_of 0 []) × (switches_told d ≡ 0)) }
    {
        let solved = Vec::with_capacity(heap, 256)?;
        let rows = Vec::with_capacity(heap, 256)?;
        Ok(Reduction {
            switches: 0,
            elimination: Elimination { rows: solved },
            outcome: Ok(()),
            rows,
        })
    }

    // Reduces the parity rules that stand, named and recovered, whatever was reduced before.
    pub fn reduce(&mut self, standing: &Standing)
        ensures switches { switches_told self.new ≡ standing.now.switches }
        ensures rows { rows_told self.new ≡ rows_of standing.now.switches (standing_rules standing.now) }
        ensures right { Right standing.now.switches (standing_rules standing.now) (rows_told self.new) }
    {
        self.switches = standing.switches;
        self.rows.clear();
        let outcome = self.elimination.eliminate(standing.rules.as_slice());
        put_outcome(&mut self.outcome, outcome);
        if outcome.is_ok() {
            write_rows(&mut self.rows, self.elimination.rows.as_slice());
        }
    }

    // The rows, absent where the parity rules contradict each other.
    pub fn rows(&self) -> Option<&[Row]>
        ensures { MatchOption result (rows_told self.now ≡ None) (λ rows. rows_told self.now ≡ Some (map row_constraint rows.now)) }
    {
        self.outcome.ok()?;
        Some(self.rows.as_slice())
    }

    // The number of free switches, absent where no setting keeps the parity rules.
    pub fn freedom(&self) -> Option<usize>
        ensures { result ≡ left_free (switches_told self.now) (rows_told self.now) }
    {
        self.outcome.ok()?;
        Some(usize::from(self.switches) - self.rows.len())
    }
}
