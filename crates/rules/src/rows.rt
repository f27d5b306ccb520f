// Rows: the parity rules of a reduced system.
use crate::kinds::RuleKind;
use crate::parities::ParityRule;

// The switches are listed from the highest, the row's dependent, down.
pub type Row = ParityRule<256>;

impl RuleKind for Row {
    const WIDTH: usize = 256;

    ghost WIDTH = { 256 };
}
