ghost use Rattle.std.specs.Prelude.{◌≡◌};

use std::marker::Model;

/// Places of a graph, which contracts see as a list.
#[derive(Drop)]
pub struct Places {
    places: Vec<usize>,
}

impl Model for Places {
    ghost use Rattle.std.specs.Prelude.{List, ℕ};

    ghost Value = { List ℕ };

    ghost view = { λ s. s.places.items };
}

impl Places {
    pub fn from_vec(places: Vec<usize>) -> Self
        ensures { result ≡ places.items }
    {
        Places { places }
    }

    pub fn as_slice(&self) -> &[usize]
        ensures { result.now ≡ self.now }
    {
        self.places.as_slice()
    }
}
