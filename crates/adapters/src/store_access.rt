ghost use Rattle.std.specs.Prelude.{◌≡◌, map, string_bytes};
ghost use Rattle.adapters.specs.Access.{access_of};

/// What a command does with the store.
#[derive(Clone, Copy, Debug, PartialEq, Eq)]
pub enum StoreAccess {
    /// It makes the store, and holds it until it ends.
    Make,
    /// It writes the store that is there, and holds it until it ends.
    Write,
    /// It reads the store that is there, beside whoever holds it.
    Read,
}

impl StoreAccess {
    /// What the command of these words does with the store. Words that are no command may name any:
    /// they are refused before a store is asked for.
    pub fn of_words(words: &[String]) -> StoreAccess
        ensures { result ≡ access_of (map string_bytes words.now) }
    {
        let [first, ..] = words else {
            return StoreAccess::Read;
        };
        if first.as_str() == "init" {
            return StoreAccess::Make;
        }
        if first.as_str() == "count" || first.as_str() == "watch" {
            return StoreAccess::Write;
        }
        StoreAccess::Read
    }
}
