//! Laws over the definitions alone. Each call does nothing: its contract is the law, for the proofs of its callers.
ghost use Rattle.kmc_record.specs.Laws.{RecordsOfBinHaveNoError, SpellingHasNoFault, WholeBodyHasNoFault};

/// Bytes that begin with a record have no fault there.
pub fn spelling_has_no_fault()
    ensures { SpellingHasNoFault }
{}

/// A body that is whole records has no first fault.
pub fn whole_body_has_no_fault()
    ensures { WholeBodyHasNoFault }
{}

/// A body that is records of a bin has no first error.
pub fn records_of_bin_have_no_error()
    ensures { RecordsOfBinHaveNoError }
{}
