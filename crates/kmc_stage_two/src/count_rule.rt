//! How bodies are counted.
use kmc_base::KeyRule;
use kmc_count::{AskedBin, Limits};

/// How bodies that stand side by side are counted.
#[derive(Clone, Copy)]
pub struct CountRule {
    /// What their words are.
    pub rule: KeyRule,
    /// Which counts are listed.
    pub limits: Limits,
    /// The bin that the words of the first body are to belong to; those of each other belong to the bin that many places behind it. Where
    /// there is none, nothing is asked.
    pub asked: Option<AskedBin>,
}
