// The file of the store, opened for what a command does with it. A command that writes the store
// holds a lock on the file, and is refused while another has it: each writes where it found the end
// of the store when it began. The lock goes with the program, however that ends.
use crate::store_access::StoreAccess;
use std::fs::{File, TryLockError};
use std::io;
use std::io::ErrorKind;
use std::os::unix::fs::FileExt;
use std::rt::Files;

/// The file of this name, opened as the command needs it, or `None` where it is missing and the
/// command doesn't make it.
pub(crate) fn open_store<R: Files<File = File>>(
    rt: &R,
    name: &str,
    access: StoreAccess,
) -> io::Result<Option<File>> {
    match access {
        StoreAccess::Make => open_or_make(rt, name),
        StoreAccess::Write => open_to_write(rt, name),
        StoreAccess::Read => open_to_read(rt, name),
    }
}

// Opens the file that is there and locks it, or makes it and locks it. Two that find none at once
// make one file: the one whose making is refused opens the other's. The other may not have locked
// it yet. Then the lock decides which of the two makes the store, and the file is empty.
fn open_or_make<R: Files<File = File>>(rt: &R, name: &str) -> io::Result<Option<File>> {
    if let Some(file) = open_to_write(rt, name)? {
        return Ok(Some(file));
    }
    match File::create_new(rt, name) {
        Ok(file) => locked(file),
        Err(fault) if fault.kind() == ErrorKind::AlreadyExists => {
            match open_to_write(rt, name)? {
                Some(file) => Ok(Some(file)),
                None => Err(fault),
            }
        }
        Err(fault) => Err(fault),
    }
}

fn open_to_write<R: Files<File = File>>(rt: &R, name: &str) -> io::Result<Option<File>> {
    match File::options().read(true).write(true).open(rt, name) {
        Ok(file) => locked(file),
        Err(fault) => none_if_missing(fault),
    }
}

// A folder opens for reading too. Its reading fails, so a byte is read at once.
fn open_to_read<R: Files<File = File>>(rt: &R, name: &str) -> io::Result<Option<File>> {
    match File::open(rt, name) {
        Ok(file) => {
            file.read_at(&mut [0u8; 1], 0)?;
            Ok(Some(file))
        }
        Err(fault) => none_if_missing(fault),
    }
}

fn none_if_missing(fault: io::Error) -> io::Result<Option<File>> {
    if fault.kind() == ErrorKind::NotFound {
        Ok(None)
    } else {
        Err(fault)
    }
}

// The file with a lock of its own, until it is closed. Where a standard stream was closed before
// the program began, the system gave the file its number, and a line that is told would be written
// into the store. A clone never has one of these numbers.
fn locked(opened: File) -> io::Result<Option<File>> {
    let file = opened.try_clone()?;
    match file.try_lock() {
        Ok(()) => Ok(Some(file)),
        Err(TryLockError::WouldBlock) => Err(io::Error::new(
            ErrorKind::ResourceBusy,
            "in use by another monitor",
        )),
        Err(TryLockError::Error(fault)) => Err(fault),
    }
}

/// Makes what a reader found durable. A file system that can't be written may know no sync: it has
/// nothing to make durable.
pub(crate) fn sync_found(file: &File) -> io::Result<()> {
    match file.sync_all() {
        Err(fault) if knows_no_sync(fault.kind()) => Ok(()),
        answer => answer,
    }
}

fn knows_no_sync(kind: ErrorKind) -> bool {
    matches!(
        kind,
        ErrorKind::InvalidInput | ErrorKind::ReadOnlyFilesystem | ErrorKind::Unsupported
    )
}
