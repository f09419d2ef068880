//! What a fault shows its user: one line on standard error, and the exit status.
ghost use Rattle.std.specs.Prelude.{Some};
ghost use Rattle.kmc_options.specs.Status.{is_misuse, is_unwritten};
ghost use Rattle.kmc_spectrum.specs.Messages.{message_of};

use kmc_options::{Ending, Fault, Named, ParamsError, RunError};
use kmc_reads::ReadsMessage;
use std::fmt;

/// The line that tells the user why there is no spectrum: the fault is that of a count by the same words, and keeps its number.
#[derive(Clone, Copy)]
pub struct SpectrumMessage(pub Fault);

impl Ending for SpectrumMessage {
    ghost misused = { λ m. is_misuse m.0 };

    ghost unwritten = { λ m. is_unwritten m.0 };

    fn is_misuse(&self) -> bool {
        self.0.is_misuse()
    }

    fn is_unwritten(&self) -> bool {
        self.0.is_unwritten()
    }
}

impl fmt::Display for SpectrumMessage {
    ghost output = { λ m. Some (message_of m.0) };

    fn fmt<W: fmt::Write>(&self, f: &mut fmt::Formatter<W>) -> fmt::Result {
        match self.0 {
            Fault::Options(ParamsError::Usage) => f.write_str(
                "usage: kmc_db spectrum [options of kmc] < reads > a.histogram",
            ),
            Fault::Options(ParamsError::OutOfRange(setting)) => {
                let name = setting.name();
                write!(f, "kmc_db: value of -{name} is out of range")
            }
            Fault::Options(ParamsError::Memory) => f.write_str("kmc_db: out of memory"),
            Fault::Run(RunError::Memory) => f.write_str("kmc_db: out of memory"),
            Fault::Run(RunError::Read) => f.write_str("kmc_db: read failed"),
            Fault::Run(RunError::Write) => f.write_str("kmc_db: write failed"),
            Fault::Run(RunError::Input(error)) => {
                let why = ReadsMessage(error);
                write!(f, "kmc_db: {why}")
            }
            Fault::Run(RunError::TooLong) => f.write_str("kmc_db: input too long"),
        }
    }
}
