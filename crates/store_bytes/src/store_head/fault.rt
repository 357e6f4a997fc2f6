ghost use Rattle.std.specs.Prelude.{Some};
ghost use Rattle.store_bytes.specs.store_head.FaultText.{field_text, head_text};

use std::error::Error;
use std::fmt;

/// A part of the setup, with the gauge's number where it is of a gauge.
#[derive(Clone, Copy, Debug, PartialEq, Eq)]
pub enum Field {
    Gauges,
    Classes,
    Width,
    Low,
    Reference,
    Num(u16),
    Den(u16),
    Offset(u16),
}

/// Why a head is not that of the setup.
#[derive(Clone, Copy, Debug, PartialEq, Eq)]
pub enum HeadFault {
    /// It is too short, its ready byte is not open, it has other bytes than `SGST` at its front, or
    /// more classes than version 1 may have.
    NotAStore,
    /// The version, which is given, is neither 1 nor 2.
    Version(u8),
    /// The store has this number, and the setup that one.
    Differs { field: Field, kept: i64, found: i64 },
}

impl fmt::Display for Field {
    ghost output = { λ field. Some (field_text field) };

    fn fmt<W: fmt::Write>(&self, f: &mut fmt::Formatter<W>) -> fmt::Result {
        match *self {
            Field::Gauges => f.write_str("gauges"),
            Field::Classes => f.write_str("classes"),
            Field::Width => f.write_str("width"),
            Field::Low => f.write_str("low"),
            Field::Reference => f.write_str("reference"),
            Field::Num(gauge) => write!(f, "num {gauge}"),
            Field::Den(gauge) => write!(f, "den {gauge}"),
            Field::Offset(gauge) => write!(f, "offset {gauge}"),
        }
    }
}

impl fmt::Display for HeadFault {
    ghost output = { λ fault. Some (head_text fault) };

    fn fmt<W: fmt::Write>(&self, f: &mut fmt::Formatter<W>) -> fmt::Result {
        match *self {
            HeadFault::NotAStore => f.write_str("not a store"),
            HeadFault::Version(version) => write!(f, "version {version} in place of 1 or 2"),
            HeadFault::Differs { field, kept, found } => {
                write!(f, "{field} was {kept}, is {found}")
            }
        }
    }
}

impl Error for HeadFault {}
