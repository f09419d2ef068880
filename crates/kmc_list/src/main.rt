//! The program `kmc_list`: the dump of the files of one slice, on standard output. On a fault it writes one line to standard
//! error and ends with the fault's status. All of it is `kmc_slices`'.
#![tactic(auto)]

use kmc_device::Counted;
use kmc_slices::list_program;
use std::io;
use std::process::ExitCode;

fn main(rt: HostRuntime) -> ExitCode {
    let mut writer = Counted::new(io::writer(&rt));
    list_program(&rt, &mut writer)
}
