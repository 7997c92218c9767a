//! Laws of leases as lists of rows. Each is the contract of a function that has nothing to do when it is
//! called.
ghost use Rattle.kfs_lease.specs.LeaseLists.{AscendOnce, FaultlessIsLawful, LastRowDecides, LawfulIsFaultless, ListedComeBack, StepsKeepLawful};

/// Rows are let in exactly where a lawful table has them.
pub fn rows_are_let_in_where_lawful()
    ensures only { FaultlessIsLawful }
    ensures each { LawfulIsFaultless }

    // So a reader of rows keeps the last one alone.
    ensures last { LastRowDecides }

    // A table has one list of rows.
    ensures once { AscendOnce }

    // So leases that are listed are let in again, and are the same.
    ensures back { ListedComeBack }
{}

/// Each lease of a desk is of a known client, on a node and live, if that was so at the start.
pub fn steps_keep_leases_lawful()
    ensures { StepsKeepLawful }
{}
