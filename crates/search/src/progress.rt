// What a search tells when it is left.
ghost use Rattle.search.specs.Maps.{ForFound, SameEnd};

// The budget is spent and a further try is due; what was found; or no setting keeps the rules.
#[derive(Clone, Copy, PartialEq, Eq, Debug)]
pub enum End<F> {
    Spent,
    Found(F),
    None,
}

// How a search ended, and how many tries were made.
#[derive(Clone, Copy, PartialEq, Eq, Debug)]
pub struct Progress<F> {
    pub end: End<F>,
    pub tries: u32,
}

impl<F> End<F> {
    // The same end, with what `f` makes of what was found.
    pub fn map<G, M: FnOnce(F) -> G>(self, f: M) -> End<G>
        requires { ForFound self (M.pre f) }
        ensures { SameEnd (M.post f) self result }
    {
        match self {
            End::Spent => End::Spent,
            End::Found(found) => End::Found(f(found)),
            End::None => End::None,
        }
    }
}
