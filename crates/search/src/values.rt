// Part-settings as the search holds them.
ghost use Rattle.std.specs.Prelude.{◌≡◌, ◌≤◌, not, is_some, replicate, position};
ghost use Rattle.rules.specs.Settings.{Within};
ghost use Rattle.search_theory.specs.Tries.{lowest};
ghost use Rattle.search.specs.declared.values.Value.TheVariants.{Unset};
ghost use Rattle.search.specs.Values.{view, value_of, kept_to, kept_values, part_of, back, Puts};

use rules::literals::Literal;

// How a switch is set. One byte, and the levels stand beside the values: a try that is turned goes over all values, and many at
// once only where they lie so. As one array of options, each a value with its level, sheets of few rules took 1.5 to 3.7 times as long.
#[derive(Clone, Copy, PartialEq, Eq, Debug)]
pub enum Value {
    Unset,
    Off,
    On,
}

const UNSET: Value = Value::Unset;

impl Value {
    fn of(on: bool) -> Value
        ensures { result ≡ value_of on }
    {
        if on { Value::On } else { Value::Off }
    }

    // Whether it is on is told by a test that is no branch: values of a row's switches are on or off by chance.
    fn on(self) -> Option<bool>
        ensures { result ≡ view self }
    {
        match self {
            Value::Unset => None,
            Value::Off | Value::On => Some(self == Value::On),
        }
    }

    // A value that was set at a level above the limit is unset again.
    fn kept_to(self, limit: u16, level: u16) -> Value
        ensures { result ≡ kept_to limit level self }
    {
        if level > limit { UNSET } else { self }
    }
}

// The value of switch v stands at index v - 1, and in `levels` how many tries stood when it was set. Where v is unset, its level has no meaning.
// What is set next is set at the level.
#[derive(Drop)]
pub struct PartSetting {
    pub values: [Value; 256],
    pub levels: [u16; 256],
    pub level: u16,
}

// The index of the first value that is unset.
fn first_unset(values: &[Value]) -> Option<usize>
    ensures { result ≡ position (λ v. not (is_some (view v))) values.now }
{
    values.iter().position(|value| value.on().is_none())
}

// Unsets what was set at a level above the limit. By index, since a `zip` with `iter_mut` says nothing of what was written.
fn unset_above(values: &mut [Value; 256], levels: &[u16; 256], limit: u16)
    ensures { values.new ≡ kept_values limit levels.now values.old }
{
    for index in 0..256usize {
        values[index] = values[index].kept_to(limit, levels[index]);
    }
}

impl PartSetting {
    // Nothing set.
    pub(crate) fn new() -> PartSetting
        ensures values { result.values ≡ replicate 256 Unset }
        ensures level { result.level ≡ 0 }
    {
        PartSetting {
            values: [UNSET; 256],
            levels: [0; 256],
            level: 0,
        }
    }

    // The value of a switch, where it is set.
    pub(crate) fn get(&self, switch: u16) -> Option<bool>
        requires { Within 256 switch }
        ensures { result ≡ part_of self.now switch }
    {
        self.values[switch as usize - 1].on()
    }

    // The lowest of the switches that is unset. Where nothing is forced, it is free: were it the dependent of a row, the row's
    // other switches, which are lower, would be set, and the row would force it.
    pub(crate) fn lowest_unset(&self, switches: u16) -> Option<u16>
        requires { switches ≤ 256 }
        ensures { result ≡ lowest (λ v. not (is_some (part_of self.now v))) switches }
    {
        first_unset(&self.values[..switches as usize]).map(|index| index as u16 + 1)
    }

    // Sets the literal's switch as the literal has it.
    pub(crate) fn put(&mut self, literal: Literal)
        requires { Within 256 literal.switch }
        ensures { Puts literal self.old self.new }
    {
        let index = literal.switch as usize - 1;
        self.values[index] = Value::of(literal.on);
        self.levels[index] = self.level;
    }

    // Goes back to a level: what was set at a higher one is unset again.
    pub(crate) fn back_to(&mut self, level: u16)
        ensures { self.new ≡ back level self.old }
    {
        unset_above(&mut self.values, &self.levels, level);
        self.level = level;
    }
}
