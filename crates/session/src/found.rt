// The setting that a session has found.
ghost use Rattle.std.specs.Prelude.{◌≡◌, List, Bool};
ghost use Rattle.search_theory.specs.Tries.{found};
ghost use Rattle.search.specs.Ends.{end_of};
ghost use Rattle.search.specs.Searches.{course_of};
ghost use Rattle.session_theory.specs.Session.{end_at};
ghost use Rattle.session.specs.Ends.{values_in, end_in};

use crate::ends::{End, Setting};
use crate::session::Session;
use search::progress;

impl Session {
    // The values of the switches, off where the search shows none. Where it has found a setting, they are that setting.
    pub(crate) fn setting(&self) -> Setting
        ensures width { result.width ≡ self.now.rules.switches }
        ensures found { (s : List Bool) → course_of self.now.search ≡ found s → self.now.search.system.switches ≡ self.now.rules.switches → values_in result ≡ s }
    {
        let width = usize::from(self.rules.switches);
        let mut values = [false; 256];
        // By index, up to the width: an array made by a function asks for all 256 values, which took 3.4 times as long over three switches.
        for i in 0..width {
            values[i] = self.search.value(i as u16 + 1).unwrap_or(false);
        }
        Setting { values, width }
    }

    // The end of the search, with the setting where it has found one.
    #[tactic(auto, using(crate::proofs::Founds::same_end_in))]
    pub(crate) fn told(&self, end: progress::End<()>) -> End
        requires ends { end ≡ end_of (course_of self.now.search) }
        requires size { self.now.search.system.switches ≡ self.now.rules.switches }
        ensures { end_in result ≡ end_at (course_of self.now.search) }
    {
        end.map(|()| self.setting())
    }
}
