//! The program `kmc`: reads on standard input, their dump on standard output, by KMC's options. On a fault it
//! writes one line to standard error and ends with the fault's status. All of it is `kmc_tool`'s.
#![tactic(auto)]

use kmc_device::Counted;
use kmc_tool::program;
use std::io;
use std::process::ExitCode;

fn main(rt: HostRuntime) -> ExitCode {
    let mut reader = Counted::new(rt.stdin());
    let mut writer = Counted::new(io::writer(&rt));
    program(&rt, &mut reader, &mut writer)
}
