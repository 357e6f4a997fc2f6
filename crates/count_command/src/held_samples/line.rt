ghost use Rattle.std.specs.Prelude.{◌≡◌, ◌≤◌, [], length, IfOk};
ghost use Rattle.site_config.specs.declared.limits.TheConstants.{MAX_NAME_BYTES};
ghost use Rattle.count_command.specs.held_samples.Told.{held_line, line_of, seen_line};

use crate::held_samples::OutOfMemory;
use status::line_room::LineRoom;
use std::alloc::Global;
use std::marker::Model;

// The most bytes of a line: a word with a space, the longest name and a space, and a number of 20
// digits with the end of the line.
const MAX_LINE_BYTES: usize = 59;

/// Room for one line that says how far a gauge is, 59 bytes. Its value is the bytes that stand in
/// it.
#[derive(Debug, Drop)]
pub struct HeldLine {
    line: LineRoom,
}

impl Model for HeldLine {
    ghost use Rattle.std.specs.Prelude.{◌≡◌, ℕ, List};
    ghost use Rattle.count_command.specs.declared.held_samples.line.TheConstants.{MAX_LINE_BYTES};

    ghost Value = { List ℕ };

    ghost view = { λ l. l.line.bytes };

    ghost invariant = { λ l. l.line.room ≡ MAX_LINE_BYTES };
}

impl HeldLine {
    /// An empty line. This takes all memory that a line will need.
    pub fn new(alloc: Global) -> Result<HeldLine, OutOfMemory>
        ensures { IfOk result (λ line. line ≡ []) }
    {
        Ok(HeldLine {
            line: LineRoom::new(alloc, MAX_LINE_BYTES)?,
        })
    }

    /// The line that says that the first `n` samples of a gauge are held. It takes no memory.
    pub fn held(&mut self, name: &str, n: u64) -> &[u8]
        requires short { length name.now ≤ MAX_NAME_BYTES }
        ensures { result.now ≡ held_line name.now n }
    {
        self.write(b"held ", name, n)
    }

    /// The line that says that a watcher saw the first `n` samples of a gauge. It acknowledges
    /// nothing, and takes no memory.
    pub fn seen(&mut self, name: &str, n: u64) -> &[u8]
        requires short { length name.now ≤ MAX_NAME_BYTES }
        ensures { result.now ≡ seen_line name.now n }
    {
        self.write(b"seen ", name, n)
    }

    // A word with a space, the name, and the number.
    fn write(&mut self, word: &[u8], name: &str, n: u64) -> &[u8]
        requires word { length word.now ≡ 5 }
        requires short { length name.now ≤ MAX_NAME_BYTES }
        ensures { result.now ≡ line_of word.now name.now n }
    {
        self.line.clear();
        self.line.push(word);
        self.line.push(name.as_bytes());
        self.line.push(b" ");
        self.line.push_number(n);
        self.line.push(b"\n");
        self.line.bytes()
    }
}
