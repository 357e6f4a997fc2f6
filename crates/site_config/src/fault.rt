ghost use Rattle.std.specs.Prelude.{◌≡◌, Some};
ghost use Rattle.site_config.specs.Keys.{part_text, name_text, has_index, key_text};
ghost use Rattle.site_config.specs.FaultText.{fault_words, config_fault_text};
ghost use Rattle.site_config.specs.declared.fault.ConfigFault.TheVariants.{OutOfMemory};

use std::alloc::{AllocError, AllocFailed};
use std::error::Error;
use std::fmt;

/// A part of a configuration.
#[derive(Clone, Copy, Debug, PartialEq, Eq)]
pub enum Part {
    Grid,
    Count,
    Gauge,
    Detail,
}

/// A key of a part, or the part itself.
#[derive(Clone, Copy, Debug, PartialEq, Eq)]
pub enum KeyName {
    Itself,
    Classes,
    Width,
    Low,
    Reference,
    Block,
    Workers,
    Name,
    File,
    Num,
    Den,
    Offset,
    Gauge,
    Kind,
    Category,
    Gamma,
}

/// A place in a configuration. The keys of `grid` and `count`, and a whole part, have index 0.
#[derive(Clone, Copy, Debug, PartialEq, Eq)]
pub struct Key {
    pub part: Part,
    pub index: u16,
    pub name: KeyName,
}

/// Why a configuration is refused.
#[derive(Clone, Copy, Debug, PartialEq, Eq)]
pub enum ConfigFault {
    /// It is not TOML.
    NotToml,
    /// A key is absent that has no default.
    Missing(Key),
    /// A value is of another kind.
    Kind(Key),
    /// A value is outside its limits.
    Limit(Key),
    /// Two gauges or two details have one name.
    Double { part: Part, first: u16, second: u16 },
    /// No gauge has the name that a detail gives.
    NoSuchGauge { detail: u16 },
    /// It has more than 65,536 bytes.
    TooLong,
    OutOfMemory,
}

impl From<AllocError> for ConfigFault {
    ghost from_gives = { λ _ e. e ≡ OutOfMemory };

    fn from(_: AllocError) -> ConfigFault {
        ConfigFault::OutOfMemory
    }
}

impl<T: Drop> From<AllocFailed<T>> for ConfigFault {
    ghost from_gives = { λ _ e. e ≡ OutOfMemory };

    fn from(_: AllocFailed<T>) -> ConfigFault {
        ConfigFault::OutOfMemory
    }
}

impl Part {
    /// The part's key.
    pub fn as_str(&self) -> &'static str
        ensures { result.now ≡ part_text self.now }
    {
        match self {
            Part::Grid => "grid",
            Part::Count => "count",
            Part::Gauge => "gauge",
            Part::Detail => "detail",
        }
    }
}

impl KeyName {
    /// The key, or nothing for the part itself.
    pub fn as_str(&self) -> &'static str
        ensures { result.now ≡ name_text self.now }
    {
        match self {
            KeyName::Itself => "",
            KeyName::Classes => "classes",
            KeyName::Width => "width",
            KeyName::Low => "low",
            KeyName::Reference => "reference",
            KeyName::Block => "block",
            KeyName::Workers => "workers",
            KeyName::Name => "name",
            KeyName::File => "file",
            KeyName::Num => "num",
            KeyName::Den => "den",
            KeyName::Offset => "offset",
            KeyName::Gauge => "gauge",
            KeyName::Kind => "kind",
            KeyName::Category => "category",
            KeyName::Gamma => "gamma",
        }
    }
}

impl Key {
    /// Whether the part is one of several, and is told with its index.
    pub fn has_index(&self) -> bool
        ensures { result ≡ has_index self.now.part }
    {
        matches!(self.part, Part::Gauge | Part::Detail)
    }
}

impl ConfigFault {
    /// What is wrong, without the place.
    pub fn words(&self) -> &'static str
        ensures { result.now ≡ fault_words self.now }
    {
        match self {
            ConfigFault::NotToml => "not TOML",
            ConfigFault::Missing(_) => "missing",
            ConfigFault::Kind(_) => "wrong kind",
            ConfigFault::Limit(_) => "out of range",
            ConfigFault::Double { .. } => "double",
            ConfigFault::NoSuchGauge { .. } => "no such gauge",
            ConfigFault::TooLong => "too long",
            ConfigFault::OutOfMemory => "out of memory",
        }
    }
}

impl fmt::Display for Key {
    ghost output = { λ key. Some (key_text key) };

    fn fmt<W: fmt::Write>(&self, f: &mut fmt::Formatter<W>) -> fmt::Result {
        f.write_str(self.part.as_str())?;
        if self.has_index() {
            write!(f, " {}", self.index)?;
        }
        match self.name {
            KeyName::Itself => Ok(()),
            name => write!(f, " {}", name.as_str()),
        }
    }
}

impl fmt::Display for ConfigFault {
    ghost output = { λ fault. Some (config_fault_text fault) };

    fn fmt<W: fmt::Write>(&self, f: &mut fmt::Formatter<W>) -> fmt::Result {
        f.write_str(self.words())?;
        match self {
            ConfigFault::Missing(key) | ConfigFault::Kind(key) | ConfigFault::Limit(key) => {
                write!(f, " {key}")
            }
            ConfigFault::Double {
                part,
                first,
                second,
            } => write!(f, " {} {first} {second}", part.as_str()),
            ConfigFault::NoSuchGauge { detail } => write!(f, ", detail {detail}"),
            _ => Ok(()),
        }
    }
}

impl Error for ConfigFault {}
