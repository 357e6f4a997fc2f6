ghost use Rattle.std.specs.Prelude.{◌≡◌, Some};
ghost use Rattle.status.specs.FaultText.{recording_text, store_text};
ghost use Rattle.status.specs.Status.{code_of};

use crate::digits::{digest_digits, id_digits};
use recount::What;
use segment_store::Damage;
use site_config::ConfigFault;
use std::error::Error;
use std::fmt;
use store_bytes::store_head::Field;

/// What is wrong with a recording.
#[derive(Clone, Copy, Debug, PartialEq, Eq)]
pub enum RecordingFault {
    /// It ends within its head.
    Short,
    /// It doesn't begin with `SGRC`.
    Magic,
    /// Its format has this version, which is not 1.
    Version(u8),
    /// A reserved byte of its head is not 0.
    NotZero,
    /// The store was made for the recording with the id `kept`, and this one has another.
    Id { kept: [u8; 16], found: [u8; 16] },
    /// The store was made for samples `kept` microseconds apart, and these are `found` apart.
    Period { kept: u32, found: u32 },
    /// The store holds more samples than there are.
    Fewer { held: u64, there: u64 },
    /// The first record of a CSV file has no field with the column's name, or there is none.
    NoColumn,
    /// A row of a CSV file, numbered from 0 behind the first record, ends before the column.
    ShortRow { row: u64, fields: u64 },
    /// The field of the column in this row is no sample.
    Cell { row: u64 },
}

impl fmt::Display for RecordingFault {
    ghost output = { λ fault. Some (recording_text fault) };

    fn fmt<W: fmt::Write>(&self, f: &mut fmt::Formatter<W>) -> fmt::Result {
        match self {
            RecordingFault::Short => f.write_str("short"),
            RecordingFault::Magic => f.write_str("no SGRC"),
            RecordingFault::Version(version) => write!(f, "version {version}"),
            RecordingFault::NotZero => f.write_str("not zero"),
            RecordingFault::Id { kept, found } => {
                write!(f, "id was {}, is {}", id_digits(kept), id_digits(found))
            }
            RecordingFault::Period { kept, found } => write!(f, "period was {kept}, is {found}"),
            RecordingFault::Fewer { held, there } => write!(f, "{held} held, {there} there"),
            RecordingFault::NoColumn => f.write_str("no column"),
            RecordingFault::ShortRow { row, fields } => write!(f, "row {row} has {fields} fields"),
            RecordingFault::Cell { row } => write!(f, "row {row} is no number"),
        }
    }
}

impl Error for RecordingFault {}

/// What is wrong with a store.
#[derive(Clone, Copy, Debug, PartialEq, Eq)]
pub enum StoreFault {
    /// It has no head, or the head of no store.
    NotAStore,
    /// Its version, which is given, is unknown.
    Version(u8),
    /// The store has this number, and the configuration that one.
    Differs { field: Field, kept: i64, found: i64 },
    /// The body of this number, from 0, is damaged.
    Damaged { index: u64, damage: Damage },
    /// A store is to be made where so many bytes are.
    NotEmpty { size: u64 },
}

impl fmt::Display for StoreFault {
    ghost output = { λ fault. Some (store_text fault) };

    fn fmt<W: fmt::Write>(&self, f: &mut fmt::Formatter<W>) -> fmt::Result {
        match self {
            StoreFault::NotAStore => f.write_str("not a store"),
            StoreFault::Version(version) => write!(f, "version {version}"),
            StoreFault::Differs { field, kept, found } => {
                write!(f, "{field} was {kept}, is {found}")
            }
            StoreFault::Damaged {
                index,
                damage: Damage::Digest { kept, found },
            } => write!(
                f,
                "damaged at {index}, kept {}, found {}",
                digest_digits(kept),
                digest_digits(found),
            ),
            StoreFault::Damaged { index, .. } => write!(f, "damaged at {index}"),
            StoreFault::NotEmpty { size } => write!(f, "not empty, {size} bytes"),
        }
    }
}

impl Error for StoreFault {}

/// How a command ended. Gauges are numbered from 0, and the gauge of `table` is 0.
#[derive(Clone, Copy, Debug, PartialEq, Eq)]
pub enum Status {
    /// All was done and printed.
    Done,
    /// The words are no command.
    Usage,
    /// The configuration is refused.
    Config(ConfigFault),
    /// The store is refused.
    Store(StoreFault),
    /// The recording of a gauge is refused.
    Recording {
        gauge: u16,
        fault: RecordingFault,
    },
    /// The recording of a gauge ends with 1 to 3 bytes behind its last whole sample.
    Torn {
        gauge: u16,
        bytes: u8,
    },
    /// The configuration or a recording couldn't be opened or read.
    ReadFault,
    /// The output took only a prefix of the text.
    WriteFault,
    /// A call of the store's disk failed.
    DiskFault,
    /// Memory ran out before anything was printed.
    OutOfMemory,
    /// The recording of a gauge has more than 2^40 - 1 samples.
    TooLong {
        gauge: u16,
    },
    /// What is held of a gauge is not what counting its samples again gives.
    Differs {
        gauge: u16,
        what: What,
        held: u64,
        found: u64,
    },
}

impl Status {
    /// The exit status of the program.
    pub fn code(&self) -> u8
        ensures { result ≡ code_of self.now }
    {
        match self {
            Status::Done => 0,
            Status::Usage => 1,
            Status::Config(_) => 2,
            Status::Store(_) => 3,
            Status::Recording { .. } => 4,
            Status::Torn { .. } => 5,
            Status::ReadFault => 6,
            Status::WriteFault => 7,
            Status::DiskFault => 8,
            Status::OutOfMemory => 9,
            Status::TooLong { .. } => 10,
            Status::Differs { .. } => 11,
        }
    }
}
