//! What a user is told of records that are none of their bin.
ghost use Rattle.std.specs.Prelude.{Some};
ghost use Rattle.kmc_slices.specs.Messages.{text_of_bin_fault};

use crate::bin_fault::BinFault;
use kmc_record::PartError;
use std::fmt;

/// Why a bin's records are none of that bin.
#[derive(Clone, Copy)]
pub(crate) struct Foreign(pub BinFault);

impl fmt::Display for Foreign {
    ghost output = { λ foreign. Some (text_of_bin_fault foreign.0) };

    fn fmt<W: fmt::Write>(&self, f: &mut fmt::Formatter<W>) -> fmt::Result {
        let bin = self.0.bin;
        match self.0.why {
            PartError::Damaged(_, offset) => {
                write!(f, "bin {bin}: the record at byte {offset} is damaged")
            }
            PartError::WrongBin(offset) => {
                write!(
                    f,
                    "bin {bin}: the record at byte {offset} has words of another bin"
                )
            }
            PartError::Memory => write!(f, "out of memory"),
        }
    }
}
