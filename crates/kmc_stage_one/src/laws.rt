//! Laws of dealing, each the contract of a function that does nothing.
ghost use Rattle.kmc_stage_one.specs.Laws.{FewChunksSpendNoNumbers};

/// Where the chunks of no splitter can give more parts than have numbers, no numbers are spent.
pub fn few_chunks_spend_no_numbers()
    ensures { FewChunksSpendNoNumbers }
{}
