ghost use Rattle.std.specs.Prelude.{◌≡◌, ◌<◌, ◌↔◌, ℕ, List, length};
ghost use Rattle.status.specs.declared.status.Status.TheVariants.{TooLong};
ghost use Rattle.file_commands.specs.column_command.Task.{text_answer};

/// A CSV text of more than 268,435,456 bytes is too long, and no other.
pub fn most_bytes()
    ensures { (name text : List ℕ) →
        (text_answer name text ≡ TooLong 0) ↔ (268435456 < length text) }
{}
