ghost use Rattle.std.specs.Prelude.{◌≡◌, ◌<◌, ◌≤◌, ◌+◌, ◌++◌, ◌⊎◌, Err, IfOk, IfErr, OnOk, OnErr, length};
ghost use Rattle.outside.specs.Fault.{CountRose};
ghost use Rattle.file_commands.specs.column_command.Text.{IsTextRefusal};
ghost use Rattle.file_commands.specs.declared.file_tasks.refusal.Refusal.TheVariants.{TooLong, ReadFault, OutOfMemory};

use crate::file_tasks::Refusal;
use outside::Source;
use std::alloc::{AllocError, Global};

/// The most bytes of a CSV file.
pub const MAX_FILE_BYTES: usize = 268_435_456;

// Bytes that are read at once: 64 KiB.
const PIECE: usize = 65_536;

/// Reads all that a source has left, where it is no more than a CSV file may have.
pub(crate) fn read_text<S: Source>(alloc: Global, src: &mut S) -> Result<Vec<u8>, Refusal>
    ensures text { S.tells → IfOk result (λ text. text.items ≡ S.left src.old) }
    ensures few { IfOk result (λ text. length text.items ≤ MAX_FILE_BYTES) }
    ensures long { S.tells → result ≡ Err TooLong → MAX_FILE_BYTES < length (S.left src.old) }
    ensures refusal { IfErr result IsTextRefusal }
    ensures cause { result ≡ Err ReadFault → CountRose (S.faults src.old) (S.faults src.new) }
    ensures later { S.faults src.old ≤ S.faults src.new }
{
    let mut piece = piece(alloc)?;
    read_by(alloc, src, piece.as_mut_slice())
}

// Room for the bytes that are read at once.
fn piece(alloc: Global) -> Result<Vec<u8>, AllocError>
    ensures { IfOk result (λ piece. length piece.items ≡ PIECE) }
{
    vec![in alloc; 0; PIECE]
}

// The same, piece by piece.
fn read_by<S: Source>(alloc: Global, src: &mut S, piece: &mut [u8]) -> Result<Vec<u8>, Refusal>
    requires { length piece.old ≡ PIECE }
    ensures text { S.tells → IfOk result (λ text. text.items ≡ S.left src.old) }
    ensures few { IfOk result (λ text. length text.items ≤ MAX_FILE_BYTES) }
    ensures long { S.tells → result ≡ Err TooLong → MAX_FILE_BYTES < length (S.left src.old) }
    ensures refusal { IfErr result IsTextRefusal }
    ensures cause { result ≡ Err ReadFault → CountRose (S.faults src.old) (S.faults src.new) }
    ensures later { S.faults src.old ≤ S.faults src.new }
{
    let mut text = Vec::new(alloc);
    for _ in 0..u64::MAX {
        match src.take(piece) {
            Ok(0) => return Ok(text),
            Ok(n) => append(&mut text, &piece[..n])?,
            Err(_) => return Err(Refusal::ReadFault),
        }
    }
    unreachable!()
}

// Appends the next bytes of a file.
fn append(text: &mut Vec<u8>, bytes: &[u8]) -> Result<(), Refusal>
    requires { length text.old.items ≤ MAX_FILE_BYTES }
    ensures ok { OnOk result (text.new.items ≡ text.old.items ++ bytes.now) }
    ensures few { OnOk result (length text.new.items ≤ MAX_FILE_BYTES) }
    ensures long { result ≡ Err TooLong →
        MAX_FILE_BYTES < length text.old.items + length bytes.now }
    ensures refusal { OnErr result ((result ≡ Err TooLong) ⊎ (result ≡ Err OutOfMemory)) }
{
    if bytes.len() > MAX_FILE_BYTES - text.len() {
        return Err(Refusal::TooLong);
    }
    text.extend_from_slice(bytes)?;
    Ok(())
}
