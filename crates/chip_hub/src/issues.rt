//! The latest issues.
ghost use Rattle.std.specs.Prelude.{◌≡◌, List, [], ◌++◌, IfOk, option_to_list};
ghost use Rattle.chip_base.specs.declared.hart.IssueRecord.{IssueRecord as Record};
ghost use Rattle.chip_hub.specs.Kept.{IssuesStand};
ghost use Rattle.chip_hub.specs.Views.{issue_view};

use chip_base::{IssueRecord, NoMemory};
use circular_buffer::HeapCircularBuffer;
use std::alloc::Global;
use std::marker::Model;

/// How many issues are kept.
const CAPACITY: usize = 1000;

/// The latest 1,000 issues, or all that there are.
#[derive(Drop)]
pub(crate) struct Issues {
    records: HeapCircularBuffer<IssueRecord>,
}

impl Model for Issues {
    ghost use Rattle.std.specs.Prelude.{◌≡◌, List};
    ghost use Rattle.chip_base.specs.declared.hart.IssueRecord.{IssueRecord};

    ghost Value = { List IssueRecord };

    ghost view = { λ i. i.records.items };

    ghost invariant = { λ i. i.records.capacity ≡ 1000 };
}

impl Issues {
    /// No issue yet, with room for those to come.
    pub(crate) fn new(alloc: Global) -> Result<Issues, NoMemory>
        ensures { IfOk result (λ issues. issues ≡ []) }
    {
        match HeapCircularBuffer::with_capacity(alloc, CAPACITY) {
            Ok(records) => Ok(Issues { records }),
            Err(_) => Err(NoMemory),
        }
    }

    /// Takes what was issued, where it is an instruction. The oldest issue makes room for it.
    pub(crate) fn note(&mut self, issued: Option<IssueRecord>)
        ensures { (all : List Record) → IssuesStand self.old all → IssuesStand self.new (all ++ option_to_list issued) }
    {
        if let Some(record) = issued {
            self.records.push_back(record);
        }
    }

    /// The issue that lies `back` issues before the latest.
    pub(crate) fn back(&self, back: u32) -> Option<IssueRecord>
        ensures { (all : List Record) → IssuesStand self.now all → result ≡ issue_view all back }
    {
        self.records.nth_back(back as usize).copied()
    }
}
