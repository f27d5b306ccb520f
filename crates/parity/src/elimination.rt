// Elimination, equation by equation.
ghost use Rattle.std.specs.Prelude.{◌≡◌, ◌<◌, ◌≤◌, true, map, length, Some, vec_len, vec_capacity};
ghost use Rattle.rules.specs.First.{every};
ghost use Rattle.rules.specs.Lawful.{lawful};
ghost use Rattle.rules.specs.Views.{constraint};
ghost use Rattle.parity_theory.specs.Recovering.{parities};
ghost use Rattle.parity_theory.specs.Reducing.{without, joined, extended, reduce};

use crate::equations::{Equation, Solved};
use crate::sorted::Sorted;
use rules::rule::Rule;

// The equations contradict each other.
#[derive(Clone, Copy, PartialEq, Eq, Debug)]
pub(crate) struct Contradiction;

// The rows of the equations so far, with room for the most that there can be.
#[derive(Drop)]
pub(crate) struct Elimination {
    pub rows: Vec<Solved>,
    ghost room: { 256 ≤ vec_capacity rows },
}

impl Elimination {
    ghost use Rattle.parity.specs.Views.{equation_in, solved_row, unless_contradiction};
    ghost use Rattle.parity.specs.Gathering.{OfEquations};
    ghost use Rattle.parity.specs.States.{rows_so_far};

    // Adds the row, and clears its dependent out of the earlier rows.
    fn join(&mut self, new: Solved)
        requires { vec_len self.old.rows < vec_capacity self.old.rows }
        ensures { rows_so_far self.new ≡ joined (rows_so_far self.old) (solved_row new) }
    {
        for row in self.rows.as_mut_slice() {
            row.equation.clear(&new);
        }
        self.rows.push_reserved(new);
    }

    // Takes an equation in: what is left of it without the dependents is nothing new, a contradiction, or a new row.
    fn take_in(&mut self, equation: Equation) -> Result<(), Contradiction>
        requires { OfEquations (rows_so_far self.old) }
        ensures { unless_contradiction result (rows_so_far self.new) ≡ extended (Some (rows_so_far self.old)) (equation_in equation) }
    {
        let mut left = equation;
        left.clear_all(self.rows.as_slice());
        match left.highest() {
            Some(index) => self.join(Solved {
                equation: left,
                index,
            }),
            None if left.odd => return Err(Contradiction),
            None => {}
        }
        Ok(())
    }

    // Reduces the equations of all parity rules that stand, from the first.
    pub(crate) fn eliminate(&mut self, rules: &[Rule]) -> Result<(), Contradiction>
        requires few { length rules.now ≤ 2112 }
        requires rules { every (lawful 256) (map constraint rules.now) ≡ true }
        ensures { unless_contradiction result (rows_so_far self.new) ≡ reduce (parities 256 (map constraint rules.now)) }
    {
        self.rows.clear();
        let sorted = Sorted::new(rules);
        let named = rules.iter().filter_map(Equation::named_by);
        let recovered = rules
            .iter()
            .filter_map(|rule| sorted.recovered_equation(rule));
        for equation in named.chain(recovered) {
            self.take_in(equation)?;
        }
        Ok(())
    }
}
