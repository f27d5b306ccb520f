// What a settle tells.
ghost use Rattle.std.specs.Prelude.{◌≡◌};
ghost use Rattle.session.specs.Ends.{values_in};

use search::progress;

// The values of the switches, switch 1 first, are the first `width` of the array: off is false, on is true. What lies behind them means nothing.
// The size is fixed, since a settle takes no memory.
#[derive(Clone, Copy)]
pub struct Setting {
    pub values: [bool; 256],
    pub width: usize,
}

impl Setting {
    // The values of the switches.
    pub fn values(&self) -> &[bool]
        ensures { result.now ≡ values_in self.now }
    {
        &self.values[..self.width.min(256)]
    }
}

// The budget is spent and a further try is due; the setting that was found; or no setting keeps the rules.
pub type End = progress::End<Setting>;

// How a settle ended, and how many tries it made.
pub type Settled = progress::Progress<Setting>;
