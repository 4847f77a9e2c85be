//! Laws of the texts: each is the contract of a function that does nothing.
ghost use Rattle.report_text.specs.Session.{OneReportOneSession};
ghost use Rattle.report_text.specs.Summary.{OneCallMore};

/// A report tells what its session answered to each processor.
pub fn one_report_one_session()
    ensures { OneReportOneSession }
{}

/// Calls that are made one after the other are answered one by one.
pub fn summaries_grow_by_a_call()
    ensures { OneCallMore }
{}
