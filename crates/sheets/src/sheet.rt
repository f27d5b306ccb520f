// What any sheet tells.
ghost use Rattle.std.specs.Prelude.{◌≡◌, length};
ghost use Rattle.sheets.specs.Meaning.{Meaning, LawfulSheet, told_kind, told_entry};

use rules::kinds::Kind;
use rules::literals::Literal;

// An implementation says by `meaning` which number of switches and which rules it stands for, and owes that they are lawful.
pub trait Sheet {
    ghost meaning: { Self → Meaning };

    // The number of switches.
    fn switches(&self) -> u16
        ensures { result ≡ (meaning self.now).switches };

    // The number of rules.
    fn count(&self) -> usize
        ensures { result ≡ length (meaning self.now).rules };

    // The kind of rule i, with the side; absent exactly where i is the number of rules or more.
    fn kind(&self, i: usize) -> Option<Kind>
        ensures { result ≡ told_kind (meaning self.now) i };

    // Two numbers, as a file or a table has its rules and their entries.
    // Entry j of rule i; absent exactly past the end of the rule, and for every j where there is no rule i.
    fn entry(&self, i: usize, j: usize) -> Option<Literal>
        ensures { result ≡ told_entry (meaning self.now) i j };

    ghost lawful: { (s : Self) → LawfulSheet (meaning s) };
}
