ghost use Rattle.std.specs.Prelude.{◌≡◌, Some};
ghost use Rattle.segment.specs.segment_rules.RuleText.{list_text, rule_text};

use std::error::Error;
use std::fmt;

/// A rule that the parts of a segment break. The rules are tested in this order, and the first that
/// is broken is told.
#[derive(Clone, Copy, Debug, PartialEq, Eq)]
pub enum BrokenRule {
    /// An entry that does not ascend, is outside its keys or counts nothing. Lists: 0 cells,
    /// 1 crossings, 2 peaks, 3 valleys, 4 ranges.
    Order { list: u8, index: u32 },
    /// 1 the span of the name; 2 the readings add up to it; 3 points and readings; 4 cycles and
    /// residue; 5 crossings; 6 peaks and valleys; 7 simple ranges; 8 the first and the last range.
    Sum { rule: u8 },
    /// 1 the residue is one; 2 its length; 3 the ends.
    Residue { rule: u8 },
}

impl fmt::Display for BrokenRule {
    ghost output = { λ rule. Some (rule_text rule) };

    fn fmt<W: fmt::Write>(&self, f: &mut fmt::Formatter<W>) -> fmt::Result {
        match *self {
            BrokenRule::Order { list, index } => {
                let list = list_name(list);
                write!(f, "entry {index} of the {list} is out of order")
            }
            BrokenRule::Sum { rule } => write!(f, "sum rule {rule} is broken"),
            BrokenRule::Residue { rule } => write!(f, "residue rule {rule} is broken"),
        }
    }
}

impl Error for BrokenRule {}

#[tactic(auto, unfolding(crate::specs::segment_rules::RuleText::list_text))]
fn list_name(list: u8) -> &'static str
    ensures { result.now ≡ list_text list }
{
    match list {
        0 => "cells",
        1 => "crossings",
        2 => "peaks",
        3 => "valleys",
        _ => "ranges",
    }
}
