//! The program `kmc_merge`: the dumps of files, summed, on standard output. On a fault it writes one line to standard
//! error and ends with the fault's status. All of it is `kmc_sum`'s.
#![tactic(auto)]

use kmc_device::Counted;
use kmc_sum::program;
use std::io;
use std::process::ExitCode;

fn main(rt: HostRuntime) -> ExitCode {
    let mut writer = Counted::new(io::writer(&rt));
    program(&rt, &mut writer)
}
