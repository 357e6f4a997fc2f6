ghost use Rattle.std.specs.Prelude.{◌≡◌, Some};
ghost use Rattle.damage.specs.sn_curve.Detail.{categories, is_among, partial_factors};

use std::error::Error;
use std::fmt;
use std::marker::Model;

/// The stress whose ranges do the damage.
#[derive(Clone, Copy, Debug, PartialEq, Eq)]
pub enum Kind {
    Normal,
    Shear,
}

/// The value of a detail that is not in its list.
#[derive(Clone, Copy, Debug, PartialEq, Eq)]
pub enum DetailFault {
    Category,
    /// The partial factor.
    Gamma,
}

impl fmt::Display for DetailFault {
    ghost use Rattle.damage.specs.sn_curve.DetailFault.{detail_fault_text};

    ghost output = { λ fault. Some (detail_fault_text fault) };

    fn fmt<W: fmt::Write>(&self, f: &mut fmt::Formatter<W>) -> fmt::Result {
        f.write_str(match self {
            DetailFault::Category => "no detail category of this kind of stress",
            DetailFault::Gamma => "no partial factor of table 3.1",
        })
    }
}

impl Error for DetailFault {}

/// A weld detail.
#[derive(Clone, Copy, Debug, PartialEq, Eq)]
pub struct Detail {
    kind: Kind,
    category: u16,
    gamma: u16,
}

impl Model for Detail {
    ghost use Rattle.damage.specs.sn_curve.Detail.{DetailValue, IsDetail};

    ghost Value = { DetailValue };

    ghost view = { λ d. record { kind = d.kind; category = d.category; gamma = d.gamma } };

    ghost invariant = { λ d.
        IsDetail (record { kind = d.kind; category = d.category; gamma = d.gamma }) };

    ghost inverse = { λ v. record { kind = v.kind; category = v.category; gamma = v.gamma } };
}

impl Detail {
    ghost use Rattle.damage.specs.sn_curve.Detail.{IsDetail, detail_of};

    /// A detail of a category in N/mm² and a partial factor in hundredths. The category is one of
    /// 160, 140, 125, 112, 100, 90, 80, 71, 63, 56, 50, 45, 40, 36 for normal stress and of 100, 80
    /// for shear stress, the factor one of 100, 115, 135. The first of the two that is not is
    /// refused.
    pub fn new(kind: Kind, category: u16, gamma: u16) -> Result<Detail, DetailFault>
        ensures { result ≡ detail_of kind category gamma }
    {
        if !is_category(kind, category) {
            return Err(DetailFault::Category);
        }
        if !is_partial_factor(gamma) {
            return Err(DetailFault::Gamma);
        }
        Ok(Detail {
            kind,
            category,
            gamma,
        })
    }

    /// Whether it is a detail under direct stresses or under shear stresses.
    pub fn kind(&self) -> Kind
        ensures value { result ≡ self.now.kind }
        ensures limits { IsDetail self.now }
    {
        self.kind
    }

    /// In N/mm².
    pub fn category(&self) -> u16
        ensures value { result ≡ self.now.category }
        ensures limits { IsDetail self.now }
    {
        self.category
    }

    /// In hundredths.
    pub fn gamma(&self) -> u16
        ensures value { result ≡ self.now.gamma }
        ensures limits { IsDetail self.now }
    {
        self.gamma
    }
}

fn is_category(kind: Kind, category: u16) -> bool
    ensures { result ≡ is_among category (categories kind) }
{
    match kind {
        Kind::Normal => matches!(
            category,
            160 | 140 | 125 | 112 | 100 | 90 | 80 | 71 | 63 | 56 | 50 | 45 | 40 | 36
        ),
        Kind::Shear => matches!(category, 100 | 80),
    }
}

fn is_partial_factor(gamma: u16) -> bool
    ensures { result ≡ is_among gamma partial_factors }
{
    matches!(gamma, 100 | 115 | 135)
}
