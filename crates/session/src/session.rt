// What a session holds.
ghost use Rattle.std.specs.Prelude.{◌≡◌, ◌+◌, ◌≤◌, vec_len, vec_capacity};
ghost use Rattle.parity.specs.Reductions.{standing_rules, switches_told};
ghost use Rattle.session.specs.Phases.{Reduces, Tells};
ghost use Rattle.session.specs.Props.{Reduces-prop, Tells-prop};

use crate::phases::Phase;
use parity::reduction::Reduction;
use parity::standing::Standing;
use search::search::Search;
use std::alloc::Global;

// The first `count` of the rules are the sheet's, those behind them were taken. The reduction is that of all of them.
// Where the standing is underway or found, the search is over their system. All memory is taken at opening.
// The heap is kept for the empty search that stands in while the search begins anew.
#[derive(Drop)]
pub struct Session {
    pub(crate) heap: Global,
    pub(crate) rules: Standing,
    pub(crate) count: usize,
    pub(crate) reduction: Reduction,
    pub(crate) search: Search,
    pub(crate) standing: Phase,
    ghost few: { count ≤ 2048 },
    ghost margin: { vec_len rules.rules ≤ count + 64 },
    ghost sheet: { count ≤ vec_len rules.rules },
    ghost room: { count + 64 ≤ vec_capacity rules.rules },
    ghost clauses: { 2112 ≤ vec_capacity search.system.clauses },
    ghost rows: { 256 ≤ vec_capacity search.system.rows },
    ghost switches: { switches_told reduction ≡ rules.switches },
    ghost reduced: { Reduces rules.switches (standing_rules rules) reduction } by { Reduces-prop rules.switches (standing_rules rules) reduction },
    ghost searched: { Tells standing rules.switches (standing_rules rules) search } by { Tells-prop standing rules.switches (standing_rules rules) search },
}
