// A file of either generation, told by its second byte.
ghost use Rattle.std.specs.Prelude.{◌≡◌, Ok, MatchResult};
ghost use Rattle.sheets.specs.Meaning.{check_of, or_blank};
ghost use Rattle.files.specs.Any.{is_third, any_file};
ghost use Rattle.sheets.specs.Views.{tabled};

use crate::first_year::FirstYear;
use crate::reading::{check_file, read_file};
use crate::third_year::ThirdYear;
use rules::faults::Fault;
use sheets::table::Table;
use std::alloc::{AllocError, Global};

fn is_third_year(bytes: &[u8]) -> bool
    ensures { result ≡ is_third bytes.now }
{
    bytes.get(1) == Some(&b'3')
}

// The fault of the file, if it has one: third-year where its second byte is 33, and first-year otherwise.
// The choice stands here and in `read_any`: what follows it is generic over the generation, and no closure is.
pub fn check_any(bytes: &[u8]) -> Result<(), Fault>
    ensures { result ≡ check_of (any_file bytes.now) }
{
    if is_third_year(bytes) {
        check_file::<ThirdYear>(bytes)
    } else {
        check_file::<FirstYear>(bytes)
    }
}

// The table of the file: blank exactly where the check refuses it. Only a file without fault asks for memory.
pub fn read_any(heap: Global, bytes: &[u8]) -> Result<Table, AllocError>
    ensures { MatchResult result
        (λ t. tabled t ≡ or_blank (any_file bytes.now))
        (λ _. check_of (any_file bytes.now) ≡ Ok tt) }
{
    if is_third_year(bytes) {
        read_file::<ThirdYear>(heap, bytes)
    } else {
        read_file::<FirstYear>(heap, bytes)
    }
}
