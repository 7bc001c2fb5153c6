//! A run of the chip, and its report.
#![tactic(auto)]

mod bank;
mod flash_rows;
mod report;
mod trace;
mod whole;

pub use whole::report_run;
