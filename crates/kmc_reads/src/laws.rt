//! Laws over the definitions alone. Each call does nothing: its contract is the law, for the proofs of its callers.
ghost use Rattle.kmc_reads.specs.Laws.{FaultStays, EndedStay, MemoryIsNoFault};

/// A text with a faulty line that has its line feed is refused with that fault, whatever follows.
pub fn fault_stays()
    ensures { FaultStays }
{}

/// The reads that a text has ended are the first of its reads, whatever follows, unless it is refused.
pub fn ended_stay()
    ensures { EndedStay }
{}

/// No text is refused as want of memory.
pub fn memory_is_no_fault()
    ensures { MemoryIsNoFault }
{}
