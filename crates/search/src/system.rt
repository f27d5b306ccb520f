// Systems of clauses and rows that a search works on.
ghost use Rattle.std.specs.Prelude.{◌≤◌};
ghost use Rattle.rules.specs.Rows.{Reduced};
ghost use Rattle.search.specs.Systems.{constraints};

use rules::clauses::Clause;
use rules::rows::Row;

// The switches are numbered from 1; the clauses and the rows together are reduced: each row lists its switches from the highest,
// its dependent, down, and the dependent of a row is in no other row.
#[derive(Drop)]
pub struct System {
    pub switches: u16,
    pub clauses: Vec<Clause>,
    pub rows: Vec<Row>,
    ghost few: { switches ≤ 256 },
    ghost reduced: { ∥ Reduced switches (constraints clauses.items rows.items) ∥₁ },
}
