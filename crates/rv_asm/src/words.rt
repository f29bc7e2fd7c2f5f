// A list of words that is owned.
ghost use Rattle.std.specs.Prelude.{◌≡◌, ℕ, List};

use std::marker::Model;

/// Words that are owned. Contracts see them as the list of their values.
#[derive(Debug, Drop)]
pub struct Words {
    items: Vec<u32>,
}

impl Model for Words {
    ghost Value = { List ℕ };

    ghost view = { λ w. w.items.items };
}

impl Words {
    /// The words of a vector. It takes no memory.
    pub fn new(items: Vec<u32>) -> Words
        ensures { result ≡ items.items }
    {
        Words { items }
    }

    /// The words, lent.
    pub fn items(&self) -> &[u32]
        ensures { result.now ≡ self.now }
    {
        self.items.as_slice()
    }
}
