//! The program `kmc_cut`: reads on standard input, cut into the records of slices, in files. On a fault it writes one line to
//! standard error and ends with the fault's status. All of it is `kmc_slices`'.
#![tactic(auto)]

use kmc_device::Counted;
use kmc_slices::cut_program;
use std::io;
use std::process::ExitCode;

fn main(rt: HostRuntime) -> ExitCode {
    let mut reader = Counted::new(rt.stdin());
    let mut writer = Counted::new(io::writer(&rt));
    cut_program(&rt, &mut reader, &mut writer)
}
