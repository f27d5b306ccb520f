// Rules sorted into buckets, so that the clauses on the same switches are found without looking at all rules.
ghost use Rattle.std.specs.Prelude.{◌≡◌, ◌≤◌, true, map, length, Some};
ghost use Rattle.std.specs.Option.{option_map};
ghost use Rattle.rules.specs.First.{every};
ghost use Rattle.rules.specs.Constraints.{parity};
ghost use Rattle.rules.specs.Lawful.{inside, different, lawful};
ghost use Rattle.rules.specs.Views.{constraint};
ghost use Rattle.parity_theory.specs.Recovering.{clauses, all_there};
ghost use Rattle.parity.specs.Places.{marked_by};
ghost use Rattle.parity.specs.Buckets.{shared_bucket, bucket, Linked};

use crate::conversion::parity_of;
use crate::equations::Equation;
use crate::marking::{are_all_marked, mark};
use rules::kinds::Side;
use rules::literals::Literal;
use rules::rule::Rule;

// Lawful rules. `first` has the index of the first rule of each bucket, and `next` for each rule in a bucket the index of the next one there.
// The lists are in fixed arrays, since no memory is taken while rules are reduced.
#[derive(Drop)]
pub(crate) struct Sorted<'a> {
    rules: &'a [Rule],
    first: [Option<u16>; 256],
    next: [Option<u16>; 2112],
    ghost sound: { every (lawful 256) (map constraint rules.now) ≡ true },
    ghost linked: { Linked (map constraint rules.now) first next },
}

// The bucket of the clauses on the switches of the literals: what is left of the sum of the switches, divided by 256.
// Clauses of more than five literals recover nothing, and are in no bucket.
fn bucket_of(literals: &[Literal]) -> Option<usize>
    ensures { result ≡ bucket literals.now }
{
    if literals.len() > 5 {
        return None;
    }
    let sum: usize = literals
        .iter()
        .map(|literal| usize::from(literal.switch))
        .sum();
    Some(sum % 256)
}

impl<'a> Sorted<'a> {
    ghost use Rattle.parity.specs.Views.{equation_in};
    ghost use Rattle.parity.specs.Gathering.{recovered_by};

    // Sorts the rules, from the last to the first.
    pub(crate) fn new(rules: &'a [Rule]) -> Sorted<'a>
        requires few { length rules.now ≤ 2112 }
        requires sound { every (lawful 256) (map constraint rules.now) ≡ true }
        ensures { result.rules.now ≡ rules.now }
    {
        let mut first = [None; 256];
        let mut next = [None; 2112];
        for (i, rule) in rules.iter().enumerate().rev() {
            let Rule::Clause(clause) = rule else { continue };
            let Some(bucket) = bucket_of(clause.literals()) else {
                continue
            };
            next[i] = first[bucket];
            first[bucket] = Some(i as u16);
        }
        Sorted { rules, first, next }
    }

    // Marks the settings of the switches that break a clause on exactly these switches. Such clauses are all in the given bucket.
    fn mark_bucket(&self, marks: &mut [bool; 32], bucket: usize, switches: &[u16])
        requires ranged { every (inside 256) switches.now ≡ true }
        requires apart { different switches.now ≡ true }
        requires narrow { length switches.now ≤ 5 }
        requires bucket { bucket ≡ shared_bucket switches.now }
        ensures { marks.new ≡ marked_by switches.now (map constraint self.now.rules.now) marks.old }
    {
        let mut index = self.first[bucket];
        // Along the links of the bucket.
        while let Some(i) = index {
            let i = usize::from(i);
            mark(marks, &self.rules[i], switches);
            index = self.next[i];
        }
    }

    // Each setting of the switches that breaks the parity rule breaks a clause on exactly these switches.
    fn is_recovered(&self, bucket: usize, switches: &[u16], side: Side) -> bool
        requires rule { lawful 256 (parity switches.now side) ≡ true }
        requires narrow { length switches.now ≤ 5 }
        requires bucket { bucket ≡ shared_bucket switches.now }
        ensures { result ≡ all_there (clauses (map constraint self.now.rules.now)) switches.now side }
    {
        let mut marks = [false; 32];
        self.mark_bucket(&mut marks, bucket, switches);
        are_all_marked(&marks, switches.len(), side)
    }

    // The equation of the parity rule that is recovered with the given rule as one of its clauses.
    pub(crate) fn recovered_equation(&self, rule: &Rule) -> Option<Equation>
        requires { lawful 256 (constraint rule.now) ≡ true }
        ensures { option_map equation_in result ≡ recovered_by (clauses (map constraint self.now.rules.now)) (constraint rule.now) }
    {
        let Rule::Clause(clause) = rule else {
            return None
        };
        let literals = clause.literals();
        let bucket = bucket_of(literals)?;
        let parity = parity_of(literals);
        if !self.is_recovered(bucket, parity.switches(), parity.side) {
            return None;
        }
        Some(Equation::of(&parity))
    }
}
