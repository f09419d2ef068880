//! Tests of the crates that make records of reads, by their public calls alone: codes and words (kmc_base), the reads of a
//! text (kmc_reads), the cut (kmc_split), super-k-mers and signatures (kmc_split), records (kmc_record),
//! parts and bins (kmc_store), and these as values (their modules `plain`). They show what no clause says: worked values, tables of
//! plain programs, and that a call succeeds where memory is there.
#![tactic(auto)]

#[cfg(test)]
mod tests;
