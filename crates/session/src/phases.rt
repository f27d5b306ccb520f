// How far the search of a session is.
ghost use Rattle.std.specs.Prelude.{◌≡◌};
ghost use Rattle.session.specs.Phases.{phase_at};

use search::progress::End;

// Fresh: not begun over the rules that stand; underway: a further try is due; found: ended with a setting; none: ended with none.
// An enum of its own, since the match on standing and event reads these names.
#[derive(Clone, Copy, PartialEq, Eq, Debug)]
pub enum Phase {
    Fresh,
    Underway,
    Found,
    None,
}

// The standing at an end of the search.
impl From<End<()>> for Phase {
    ghost from_gives = { λ e p. p ≡ phase_at e };

    fn from(end: End<()>) -> Phase {
        match end {
            End::Spent => Phase::Underway,
            End::Found(()) => Phase::Found,
            End::None => Phase::None,
        }
    }
}
