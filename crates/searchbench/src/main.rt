// Searches a sheet of clauses for the earliest setting that keeps them, with a budget of 300,000 tries, and prints the end and the tries. For measuring the search alone: parity rules of the sheet are left out.
#![tactic(auto)]

ghost use Rattle.std.specs.Prelude.{◌≡◌, true, map, IfOk};
ghost use Rattle.rules.specs.First.{every};
ghost use Rattle.rules.specs.Lawful.{lawful};
ghost use Rattle.rules.specs.Views.{clause_constraint};

use files::any::read_any;
use rules::clauses::Clause;
use rules::rule::Rule;
use search::progress::End;
use search::search::Search;
use search::system::System;
use sheets::table::Table;
use std::alloc::{AllocError, Global};
use std::io::Read;

const BUDGET: u32 = 300_000;

// The clauses of the sheet, in their order.
fn clauses_of(heap: Global, table: &Table) -> Result<Vec<Clause>, AllocError>
    ensures { IfOk result (λ v. every (lawful table.now.switches) (map clause_constraint v.items) ≡ true) }
{
    let mut clauses = Vec::new(heap);
    for rule in table.rules.as_slice() {
        if let Rule::Clause(clause) = rule {
            clauses.push(*clause)?;
        }
    }
    Ok(clauses)
}

fn system_of(heap: Global, table: &Table) -> Result<System, AllocError> {
    let clauses = clauses_of(heap, table)?;
    Ok(System {
        switches: table.switches,
        clauses,
        rows: Vec::new(heap),
    })
}

fn main(rt: HostRuntime) -> anyhow::Result<()> {
    let heap = rt.alloc();
    let mut input = Vec::new(heap);
    rt.stdin().take(36_873).read_to_end(&mut input)?;
    let table = read_any(heap, input.as_slice())?;
    let system = system_of(heap, &table)?;
    let mut search = Search::new(system);
    let progress = search.go_on(BUDGET);
    let tries = progress.tries;
    match progress.end {
        End::Spent => println!(rt; "spent {tries}")?,
        End::Found(()) => println!(rt; "found {tries}")?,
        End::None => println!(rt; "none {tries}")?,
    }
    Ok(())
}
