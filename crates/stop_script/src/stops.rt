// The stops of a script.
ghost use Rattle.std.specs.Prelude.{◌≡◌};

use crate::stop::Stop;
use std::marker::Model;

/// The stops of a script, in the order of their lines. Contracts see them as a list.
#[derive(Debug, Drop)]
pub struct Stops {
    items: Vec<Stop>,
}

impl Model for Stops {
    ghost use Rattle.std.specs.Prelude.{List};
    ghost use Rattle.stop_script.specs.declared.stop.Stop.{Stop};

    ghost Value = { List Stop };

    ghost view = { λ s. s.items.items };
}

impl Stops {
    /// The stops of a vector. It takes no memory.
    pub fn new(items: Vec<Stop>) -> Stops
        ensures { result ≡ items.items }
    {
        Stops { items }
    }

    /// The stops, lent.
    pub fn items(&self) -> &[Stop]
        ensures { result.now ≡ self.now }
    {
        self.items.as_slice()
    }
}
