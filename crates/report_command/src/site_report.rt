//! The report of a site: the text of each gauge, then the line of each weld detail with its damage.
//!
//! `specs/site_report/Damages.antt` has the damage of each detail, the sum of EN 1993-1-9:2005,
//! Annex A, over the half units of its gauge, and `specs/site_report/Report.antt` the whole text. A
//! `Report` has all memory that printing takes. The damages are summed before anything is printed.

mod damages;
mod printing;
mod whole;
mod window_printing;

pub use whole::Report;
