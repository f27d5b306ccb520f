// A rule as it comes from outside, before any check.
use rules::kinds::RawKind;

#[derive(Drop)]
pub struct RawRule {
    pub kind: RawKind,
    pub entries: Vec<i16>,
}
