//! How a program ends that has a fault: the line on standard error, and the exit status.
ghost use Rattle.std.specs.Prelude.{◌≡◌, ◌≤◌, ◌&&◌, Bool, not};
ghost use Rattle.std.specs.Process.{exit_status};
ghost use Rattle.kmc_options.specs.Status.{status_of};

use std::fmt;
use std::process::ExitCode;

// The command line is at fault.
const MISUSED: u8 = 2;

// The command line is sound, and the work failed.
const FAILED: u8 = 1;

/// Why a program ends without what it was asked for. Its text is the line for the user.
pub trait Ending: fmt::Display + Drop {
    ghost misused: { Self → Bool };

    ghost unwritten: { Self → Bool };

    /// Whether the command line is at fault.
    fn is_misuse(&self) -> bool
        ensures { result ≡ misused self.now };

    /// Whether a write to the program's output failed.
    fn is_unwritten(&self) -> bool
        ensures { result ≡ unwritten self.now };

    /// The exit status: 2 where the command line is at fault, and else 1.
    fn status(&self) -> u8
        ensures { result ≡ status_of (misused self.now) }
    {
        if self.is_misuse() { MISUSED } else { FAILED }
    }

    /// Whether the user is told of the fault. A write to a pipe whose other end is closed is not told: its reader has enough.
    fn is_told(&self, pipe_closed: bool) -> bool
        ensures { result ≡ not (unwritten self.now && pipe_closed) }
    {
        !(self.is_unwritten() && pipe_closed)
    }
}

/// Shows a fault in one line on standard error, unless it is a write to a closed pipe, and gives the exit status. A line that cannot
/// be written changes nothing of the status.
pub fn ended<E: Ending>(rt: &impl Eprint, fault: E, pipe_closed: bool) -> ExitCode
    ensures status { exit_status result ≡ status_of (E.misused fault) }
    ensures least { 1 ≤ exit_status result }
    ensures most { exit_status result ≤ 2 }
{
    let status = fault.status();
    if fault.is_told(pipe_closed) {
        let _ = rt.eprintln(fault);
    }
    ExitCode::from(status)
}
