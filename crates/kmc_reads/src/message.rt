//! The text of a refusal, with a contract.
ghost use Rattle.std.specs.Prelude.{Some};
ghost use Rattle.kmc_reads.specs.Messages.{text_of_reads_error};

use crate::error::ReadsError;
use std::fmt;

/// The text of a refusal for programs that promise what they print: what the refusal itself prints, whose derived text has no
/// contract.
#[derive(Clone, Copy)]
pub struct ReadsMessage(pub ReadsError);

impl fmt::Display for ReadsMessage {
    ghost output = { λ message. Some (text_of_reads_error message.0) };

    fn fmt<W: fmt::Write>(&self, f: &mut fmt::Formatter<W>) -> fmt::Result {
        match self.0 {
            ReadsError::Memory => f.write_str("out of memory"),
            ReadsError::BadHeader(line) => write!(f, "line {line}: bad header"),
            ReadsError::BadPlus(line) => write!(f, "line {line}: bad plus line"),
            ReadsError::QualityLength(line) => write!(f, "line {line}: quality length differs"),
            ReadsError::Truncated(line) => write!(f, "line {line}: record cut short"),
        }
    }
}
