//! The words of the command line, and the job that they give.
#![tactic(auto)]

mod command;
mod job;
mod kind;

pub use job::{CheckJob, DebugJob, DemoJob, ImageJob, Job, RunJob, read_job};
