ghost use Rattle.std.specs.Prelude.{◌≡◌, IfOk};
ghost use Rattle.adapters.specs.Reasons.{shown_byte as shown_byte_of, reason_line as line_of};

#[cfg(test)]
mod tests;

use std::alloc::{AllocError, Global};
use std::io;
use std::io::Write;

/// Tells the operator why calls of the system failed, a line `monitor: NAME: REASON` each, and each
/// line once. It is no told line of a command, and what a command answers never hangs on it.
#[derive(Drop)]
pub struct Reasons<W: Write + Drop> {
    alloc: Global,
    line: W,
    told: Vec<Vec<u8>>,
}

impl<W: Write + Drop> Reasons<W> {
    /// Tells on this line, on which nothing was told yet.
    pub fn new(alloc: Global, line: W) -> Reasons<W>
        ensures line { result.line ≡ line }
    {
        Reasons {
            alloc,
            line,
            told: Vec::new(alloc),
        }
    }

    // Tells why a call on the file of this name failed. Where memory or the line itself is refused,
    // nobody is told.
    pub(crate) fn tell(&mut self, name: &str, fault: &io::Error) {
        let _ = self.tell_once(name, fault);
    }

    fn tell_once(&mut self, name: &str, fault: &io::Error) -> io::Result<()> {
        let text = format!(in self.alloc; "{fault}")?;
        let line = reason_line(self.alloc, name.as_bytes(), without_number(text.as_bytes()))?;
        if self
            .told
            .iter()
            .any(|told| told.as_slice() == line.as_slice())
        {
            return Ok(());
        }
        self.line.write_all(&line)?;
        self.told.push(line)?;
        Ok(())
    }
}

// The text of a fault without the number of the system, which std writes behind it in brackets.
fn without_number(text: &[u8]) -> &[u8] {
    match text.iter().position(|&byte| byte == b'(') {
        Some(at) if at > 0 => &text[..at - 1],
        _ => text,
    }
}

// The line of a reason. A control byte of the name is shown as `?`: else a name could end the line
// and forge another.
fn reason_line(alloc: Global, name: &[u8], reason: &[u8]) -> Result<Vec<u8>, AllocError>
    ensures { IfOk result (λ line. line.items ≡ line_of name.now reason.now) }
{
    let mut line = Vec::new(alloc);
    line.extend_from_slice(b"monitor: ")?;
    for &byte in name {
        line.push(shown_byte(byte))?;
    }
    line.extend_from_slice(b": ")?;
    line.extend_from_slice(reason)?;
    line.extend_from_slice(b"\n")?;
    Ok(line)
}

fn shown_byte(byte: u8) -> u8
    ensures { result ≡ shown_byte_of byte }
{
    if byte < 32 || byte == 127 { b'?' } else { byte }
}
