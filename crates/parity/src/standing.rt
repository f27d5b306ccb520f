// The rules that stand.
ghost use Rattle.std.specs.Prelude.{◌≡◌, ◌≤◌, true, map, vec_len};
ghost use Rattle.rules.specs.First.{every};
ghost use Rattle.rules.specs.Lawful.{lawful};
ghost use Rattle.rules.specs.Views.{constraint};

use rules::rule::Rule;

// Lawful rules over the switches from 1 to `switches`.
#[derive(Drop)]
pub struct Standing {
    pub switches: u16,
    pub rules: Vec<Rule>,
    ghost narrow: { switches ≤ 256 },
    ghost few: { vec_len rules ≤ 2112 },
    ghost sound: { every (lawful switches) (map constraint rules.items) ≡ true },
}
