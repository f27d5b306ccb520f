// Which settings of a rule's switches break a clause on exactly these switches.
// The switches are a plain slice of at most five: a type for so short a fact would have no other use.
ghost use Rattle.std.specs.Prelude.{◌≡◌, ℕ, ◌^◌, ◌<◌, ◌≤◌, true, false, length, Decides, slice_index_or};
ghost use Rattle.rules.specs.Constraints.{clause};
ghost use Rattle.rules.specs.Views.{constraint};
ghost use Rattle.parity.specs.Places.{breaking_value, breaking_place, marked, off_side_at};

use rules::kinds::Side;
use rules::literals::Literal;
use rules::rule::Rule;

// The value of the switch that breaks the literal on it.
fn breaking_value(literals: &[Literal], switch: u16) -> Option<bool>
    ensures { result ≡ breaking_value literals.now switch }
{
    literals
        .iter()
        .find(|literal| literal.switch == switch)
        .map(|literal| !literal.on)
}

// The place, among all settings of the switches, of the one that breaks a clause, if that is on exactly these.
fn breaking_place(literals: &[Literal], switches: &[u16]) -> Option<usize>
    requires { length switches.now ≤ 5 }
    ensures { result ≡ breaking_place switches.now (clause literals.now) }
{
    if literals.len() != switches.len() {
        return None;
    }
    let mut place = 0;
    for switch in switches.iter().rev() {
        place = 2 * place + usize::from(breaking_value(literals, *switch)?);
    }
    Some(place)
}

// Marks the place of the setting that breaks the rule, if that is a clause on exactly the switches.
pub(crate) fn mark(marks: &mut [bool; 32], rule: &Rule, switches: &[u16])
    requires { length switches.now ≤ 5 }
    ensures { marks.new ≡ marked marks.old (breaking_place switches.now (constraint rule.now)) }
{
    let Rule::Clause(clause) = rule else {
        return;
    };
    if let Some(place) = breaking_place(clause.literals(), switches) {
        marks[place] = true;
    }
}

// The setting at the place breaks a parity rule of the side.
fn is_off_side(side: Side, place: usize) -> bool
    ensures { result ≡ off_side_at side place }
{
    let odd = place.count_ones() % 2 == 1;
    odd != side.is_odd()
}

// Every setting of `width` switches that breaks a parity rule of the side is marked.
pub(crate) fn are_all_marked(marks: &[bool; 32], width: usize, side: Side) -> bool
    requires { width ≤ 5 }
    ensures { Decides result ((k : ℕ) → k < 2 ^ width → off_side_at side k ≡ true → slice_index_or marks.now k false ≡ true) }
{
    (0..1usize << width).all(|place| marks[place] || !is_off_side(side, place))
}
