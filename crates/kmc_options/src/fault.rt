//! What a fault shows its user: one line on standard error, and the exit status.
ghost use Rattle.std.specs.Prelude.{◌≡◌, Some};
ghost use Rattle.kmc_options.specs.Messages.{message_of};

use crate::ending::Ending;
use crate::error::ParamsError;
use crate::named::Named;
use crate::program::Program;
use crate::run_error::RunError;
use kmc_reads::ReadsMessage;
use std::fmt;

/// Why the program ends without its dump. Its text is the line for the user.
#[derive(Clone, Copy)]
pub enum Fault {
    /// The command line gives no settings.
    Options(ParamsError),
    /// The run gave up.
    Run(RunError),
}

impl Fault {
    ghost use Rattle.kmc_options.specs.RefusalNumbers.{number_of_fault};

    /// The number of the refusal, as docs/REFUSALS.md lists it.
    pub fn number(&self) -> u8
        ensures { result ≡ number_of_fault self.now }
    {
        match self {
            Fault::Options(_) => 1,
            Fault::Run(_) => 2,
        }
    }
}

impl Ending for Fault {
    ghost use Rattle.kmc_options.specs.Status.{is_misuse, is_unwritten};

    ghost misused = { is_misuse };

    ghost unwritten = { is_unwritten };

    fn is_misuse(&self) -> bool {
        match self {
            Fault::Options(ParamsError::Usage | ParamsError::OutOfRange(_)) => true,
            Fault::Options(ParamsError::Memory) | Fault::Run(_) => false,
        }
    }

    fn is_unwritten(&self) -> bool {
        match self {
            Fault::Run(RunError::Write) => true,
            _ => false,
        }
    }
}

impl fmt::Display for Fault {
    ghost output = { λ fault. Some (message_of fault) };

    fn fmt<W: fmt::Write>(&self, f: &mut fmt::Formatter<W>) -> fmt::Result {
        match self {
            Fault::Options(ParamsError::Usage) => f.write_str(Program::Kmc.usage()),
            Fault::Options(ParamsError::OutOfRange(setting)) => {
                let name = setting.name();
                write!(f, "kmc: value of -{name} is out of range")
            }
            Fault::Options(ParamsError::Memory) => f.write_str("kmc: out of memory"),
            Fault::Run(RunError::Memory) => f.write_str("kmc: out of memory"),
            Fault::Run(RunError::Read) => f.write_str("kmc: read failed"),
            Fault::Run(RunError::Write) => f.write_str("kmc: write failed"),
            Fault::Run(RunError::Input(error)) => {
                let why = ReadsMessage(*error);
                write!(f, "kmc: {why}")
            }
            Fault::Run(RunError::TooLong) => f.write_str("kmc: input too long"),
        }
    }
}
