// Settings of a parity rule's switches as patterns of bits, the first switch's bit the highest.
ghost use Rattle.std.specs.Prelude.{◌≡◌, ℕ, ◌<◌, ◌≤◌, ◌^◌, length};
ghost use Rattle.rules.specs.Views.{literals_of};
ghost use Rattle.parity_theory.specs.Writing.{off_side, against};
ghost use Rattle.writer.specs.Patterns.{value, values};

use rules::clauses::Clause;
use rules::kinds::Side;
use rules::literals::Literal;

// Whether switch j of `width` is on in the pattern: one bit of it.
fn is_on(width: usize, pattern: usize, j: usize) -> bool
    requires { (width ≤ 5) × (j < width) }
    ensures { result ≡ value width pattern j }
{
    (pattern >> (width - 1 - j)) % 2 == 1
}

// Whether the pattern breaks a parity rule of the side, whatever the width of which it is a pattern.
pub(crate) fn breaks(side: Side, pattern: usize) -> bool
    ensures { (width : ℕ) → pattern < 2 ^ width → result ≡ off_side side (values width pattern) }
{
    let odd = pattern.count_ones() % 2 == 1;
    odd != side.is_odd()
}

// The clause that exactly the pattern breaks.
pub(crate) fn clause_against(switches: &[u16], pattern: usize) -> Clause
    requires { length switches.now ≤ 5 }
    ensures { literals_of result ≡ against switches.now (values (length switches.now) pattern) }
{
    let mut clause = Clause::new();
    for (j, switch) in switches.iter().enumerate() {
        clause.push(Literal {
            switch: *switch,
            on: !is_on(switches.len(), pattern, j),
        });
    }
    clause
}
