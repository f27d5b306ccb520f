// The reading of a whole file, of any generation.
ghost use Rattle.std.specs.Prelude.{◌≡◌, IfOk, Ok, MatchResult};
ghost use Rattle.sheets.specs.Meaning.{Meaning, check_of, or_blank};
ghost use Rattle.files.specs.Files.{file, LawfulFile};
ghost use Rattle.sheets.specs.Views.{tabled};

use crate::records::Generation;
use crate::sequence::Records;
use rules::faults::Fault;
use sheets::table::Table;
use sheets::tabling::blank_table;
use std::alloc::{AllocError, Global};

// The fault of the file, if it has one. Nothing is allocated.
pub fn check_file<G: Generation>(bytes: &[u8]) -> Result<(), Fault>
    ensures value { result ≡ check_of (file G.Generation.format bytes.now) }
    ensures lawful { (m : Meaning) → file G.Generation.format bytes.now ≡ Ok m → LawfulFile m }
{
    let mut records = Records::open::<G>(bytes)?;
    'records: while let Some(_rule) = records.next_rule::<G>()? {}
    Ok(())
}

// The table of a file that has no fault.
fn read_faultless<G: Generation>(heap: Global, bytes: &[u8]) -> Result<Table, AllocError>
    requires { check_of (file G.Generation.format bytes.now) ≡ Ok tt }
    ensures { IfOk result (λ t. file G.Generation.format bytes.now ≡ Ok (tabled t)) }
{
    let mut records = Records::open::<G>(bytes).unwrap();
    let mut rules = Vec::new(heap);
    'records: while let Some(rule) = records.next_rule::<G>().unwrap() {
        rules.push(rule)?;
    }
    Ok(Table {
        switches: records.n,
        rules,
    })
}

// The table of the file: blank exactly where the check refuses it. Only a file without fault asks for memory.
pub fn read_file<G: Generation>(heap: Global, bytes: &[u8]) -> Result<Table, AllocError>
    ensures { MatchResult result
        (λ t. tabled t ≡ or_blank (file G.Generation.format bytes.now))
        (λ _. check_of (file G.Generation.format bytes.now) ≡ Ok tt) }
{
    match check_file::<G>(bytes) {
        Ok(_passed) => read_faultless::<G>(heap, bytes),
        Err(_fault) => Ok(blank_table(heap)),
    }
}
