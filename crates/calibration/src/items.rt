ghost use Rattle.std.specs.Prelude.{◌≡◌};

use std::marker::Model;

/// A list that is taken over whole and read from then on: contracts speak of its items alone.
#[derive(Debug, Drop)]
pub struct Items<T> {
    items: Vec<T>,
}

impl<T> Model for Items<T> {
    ghost use Rattle.std.specs.Prelude.{List};

    ghost Value = { List T };

    ghost view = { λ list. list.items.items };
}

impl<T> Items<T> {
    /// Takes a list over.
    pub fn from_vec(items: Vec<T>) -> Self
        ensures { result ≡ items.items }
    {
        Items { items }
    }

    /// The items as a slice.
    pub fn as_slice(&self) -> &[T]
        ensures { result.now ≡ self.now }
    {
        &self.items
    }
}
