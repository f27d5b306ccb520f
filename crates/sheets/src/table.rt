// A sheet in memory that owns its rules.
ghost use Rattle.std.specs.Prelude.{◌≡◌, ◌≤◌, true, map, vec_len};
ghost use Rattle.rules.specs.First.{every};
ghost use Rattle.rules.specs.Lawful.{lawful};
ghost use Rattle.rules.specs.Views.{constraint};
ghost use Rattle.sheets.specs.Telling.{table_lawful};

use crate::sheet::Sheet;
use rules::kinds::Kind;
use rules::literals::Literal;
use rules::rule::Rule;

#[derive(Drop)]
pub struct Table {
    pub switches: u16,
    pub rules: Vec<Rule>,
    ghost narrow: { switches ≤ 256 },
    ghost short: { vec_len rules ≤ 1024 },
    ghost sound: { every (lawful switches) (map constraint rules.items) ≡ true },
}

impl Sheet for Table {
    ghost meaning = { λ t. record { switches = t.switches; rules = map constraint t.rules.items } };

    ghost lawful = { λ s. table_lawful s.switches (vec_len s.rules) s.rules.items s.narrow s.short s.rules.ok.0 s.sound };

    fn switches(&self) -> u16 {
        self.switches
    }

    fn count(&self) -> usize {
        self.rules.len()
    }

    fn kind(&self, i: usize) -> Option<Kind> {
        self.rules.get(i).map(|rule| rule.kind())
    }

    fn entry(&self, i: usize, j: usize) -> Option<Literal> {
        self.rules.get(i).and_then(|rule| rule.entry(j))
    }
}
