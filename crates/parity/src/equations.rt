// Parity rules as equations over 256 switches: the switch v is a member where index v - 1 has `true`.
ghost use Rattle.std.specs.Prelude.{◌≡◌, ◌<◌, true, map, length, IfSome};
ghost use Rattle.std.specs.Option.{option_map};
ghost use Rattle.rules.specs.First.{every};
ghost use Rattle.rules.specs.Lawful.{inside, lawful};
ghost use Rattle.rules.specs.Views.{constraint, switches_of};
ghost use Rattle.parity_theory.specs.Equations.{equation, difference};
ghost use Rattle.parity_theory.specs.Reducing.{highest, cleared_by, cleared};

use rules::parities::Parity;
use rules::rule::Rule;

// An odd number of the members is to be on, or an even number.
#[derive(Clone, Copy)]
pub(crate) struct Equation {
    pub members: [bool; 256],
    pub odd: bool,
}

// An equation with the index of its dependent, which is its highest member.
#[derive(Clone, Copy)]
pub(crate) struct Solved {
    pub equation: Equation,
    pub index: usize,
    ghost inside: { index < 256 },
}

// Leaves in `a` what is in one of the two sets and not in both.
fn add_set(a: &mut [bool], b: &[bool])
    requires { length a.old ≡ length b.now }
    ensures { a.new ≡ difference a.old b.now }
{
    // By index: behind a zip with `iter_mut` nothing is known of what was written.
    for (i, member) in a.iter_mut().enumerate() {
        *member = *member != b[i];
    }
}

impl Equation {
    ghost use Rattle.parity.specs.Views.{equation_in, solved_row, switch_at};
    ghost use Rattle.parity.specs.Gathering.{named_by};

    // The equation of a parity rule.
    pub(crate) fn of(rule: &Parity) -> Equation
        requires { every (inside 256) (switches_of rule.now) ≡ true }
        ensures { equation_in result ≡ equation 256 (switches_of rule.now) rule.now.side }
    {
        let mut members = [false; 256];
        for switch in rule.switches() {
            members[usize::from(*switch) - 1] = true;
        }
        Equation {
            members,
            odd: rule.side.is_odd(),
        }
    }

    // The equation of a rule that is a parity rule.
    pub(crate) fn named_by(rule: &Rule) -> Option<Equation>
        requires { lawful 256 (constraint rule.now) ≡ true }
        ensures { option_map equation_in result ≡ named_by (constraint rule.now) }
    {
        match rule {
            Rule::Clause(_clause) => None,
            Rule::Parity(parity) => Some(Equation::of(parity)),
        }
    }

    // Clears the row's dependent out of the equation.
    pub(crate) fn clear(&mut self, row: &Solved)
        ensures { equation_in self.new ≡ cleared_by (solved_row row.now) (equation_in self.old) }
    {
        if self.members[row.index] {
            add_set(&mut self.members, &row.equation.members);
            self.odd = self.odd != row.equation.odd;
        }
    }

    // Clears the dependents of the rows out of the equation, in the order of the rows.
    pub(crate) fn clear_all(&mut self, rows: &[Solved])
        ensures { equation_in self.new ≡ cleared (map solved_row rows.now) (equation_in self.old) }
    {
        for row in rows {
            self.clear(row);
        }
    }

    // The index of the highest member.
    #[tactic(auto, using(crate::proofs::Sets::highest_found))]
    pub(crate) fn highest(&self) -> Option<usize>
        ensures index { switch_at result ≡ highest self.now.members }
        ensures inside { IfSome result (λ i. i < 256) }
    {
        self.members.iter().rposition(|member| *member)
    }
}
