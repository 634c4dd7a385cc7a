//! A set of reports.
ghost use Rattle.std.specs.Prelude.{◌≡◌, [], IfOk, OnOk, OnErr};
ghost use Rattle.std.specs.BTreeSet.{insert_key};
ghost use Rattle.std.specs.List.Sorted.{IsStrictlySortedBy};
ghost use Rattle.report_lists.specs.PrintedReports.{printed_cmp};

use crate::printed_report::PrintedReport;
use std::alloc::{AllocError, Global};
use std::collections::BTreeSet;
use std::marker::Model;

/// Reports, each once. Contracts see the list of them in order.
#[derive(Drop)]
pub struct ReportSet {
    reports: BTreeSet<PrintedReport>,
}

impl Model for ReportSet {
    ghost use Rattle.std.specs.Prelude.{List};
    ghost use Rattle.report_lists.specs.PrintedReports.{Printed};

    ghost Value = { List Printed };

    ghost view = { λ set. set.reports.keys };
}

impl ReportSet {
    /// No report.
    pub fn new(alloc: Global) -> ReportSet
        ensures { result ≡ [] }
    {
        ReportSet {
            reports: BTreeSet::new(alloc),
        }
    }

    /// Puts a report in at its rank, unless it is there. Out of memory, the set stays as it was.
    pub fn insert(&mut self, report: PrintedReport) -> Result<(), AllocError>
        ensures ok { OnOk result (self.new ≡ insert_key printed_cmp self.old report) }
        ensures err { OnErr result (self.new ≡ self.old) }
    {
        self.reports.insert(report)?;
        Ok(())
    }

    /// The reports in order.
    pub fn into_ordered(self, alloc: Global) -> Result<Vec<PrintedReport>, AllocError>
        ensures items { IfOk result (λ reports. reports.items ≡ self) }
        ensures ordered { IsStrictlySortedBy printed_cmp self }
    {
        let ReportSet { reports } = self;
        reports.into_iter().collect(alloc)
    }
}
