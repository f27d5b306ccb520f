// The tries of a search.
ghost use Rattle.std.specs.Prelude.{◌≡◌, ◌<◌, ◌≤◌, slice_index_or, slice_set};
ghost use Rattle.rules.specs.Constraints.{positive};
ghost use Rattle.search_theory.specs.Tries.{negative};
ghost use Rattle.search.specs.Stacks.{no_try, turned, LatestOff, Tops};

// A switch that was tried, and whether the try is at on.
#[derive(Clone, Copy)]
pub struct Try {
    pub switch: u16,
    pub on: bool,
}

// The tries that stand are the first `count` of the table, the latest last. The table is fixed, since a try takes no memory.
#[derive(Drop)]
pub struct Tries {
    pub table: [Try; 256],
    pub count: usize,
}

impl Try {
    fn turn(&mut self)
        ensures { self.new ≡ turned self.old }
    {
        self.on = true;
    }
}

impl Tries {
    // No tries.
    pub(crate) fn new() -> Tries
        ensures { result.count ≡ 0 }
    {
        Tries {
            table: [Try {
                switch: 0,
                on: false,
            }; 256],
            count: 0,
        }
    }

    // The index of the latest try at off.
    pub(crate) fn latest_off(&self) -> Option<usize>
        requires { self.now.count ≤ 256 }
        ensures { LatestOff result self.now }
    {
        self.table[..self.count].iter().rposition(|made| !made.on)
    }

    // Turns one try to on, and drops those after it.
    pub(crate) fn turn_at(&mut self, at: usize)
        requires { at < 256 }
        ensures table { self.new.table ≡ slice_set self.old.table at (turned (slice_index_or self.old.table at no_try)) }
        ensures tops { Tops (positive (slice_index_or self.old.table at no_try).switch) at self.old self.new }
    {
        self.table[at].turn();
        self.count = at + 1;
    }

    // One more try, at off.
    pub(crate) fn add(&mut self, switch: u16)
        requires { self.old.count < 256 }
        ensures { Tops (negative switch) self.old.count self.old self.new }
    {
        self.table[self.count] = Try { switch, on: false };
        self.count += 1;
    }
}
