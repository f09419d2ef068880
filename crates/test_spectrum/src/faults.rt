//! What a user is told, and how the program ends.
use crate::texts::{FASTQ, words_of};
use kmc_device::Counted;
use kmc_options::{Ending, Fault, ParamsError, RunError, Setting};
use kmc_reads::ReadsError;
use kmc_spectrum::{SpectrumMessage, spectrum_of};
use std::alloc::Global;
use std::fmt::Display;
use std::process::{Abort, ExitCode};

fn shows(rt: &(impl Abort + Alloc<A = Global>), fault: Fault, line: &str, status: u8) {
    let message = SpectrumMessage(fault);
    let shown = message.to_string(rt.alloc()).expect(rt, "memory");
    assert_eq!(rt; (shown.as_str(), message.status()), (line, status));
}

#[test]
fn a_fault_is_told_under_the_name_of_the_program(rt: HostRuntime) {
    for (fault, line, status) in [
        (
            Fault::Options(ParamsError::Usage),
            "usage: kmc_db spectrum [options of kmc] < reads > a.histogram",
            2,
        ),
        (
            Fault::Options(ParamsError::OutOfRange(Setting::Cx)),
            "kmc_db: value of -cx is out of range",
            2,
        ),
        (
            Fault::Options(ParamsError::Memory),
            "kmc_db: out of memory",
            1,
        ),
        (Fault::Run(RunError::Memory), "kmc_db: out of memory", 1),
        (Fault::Run(RunError::Read), "kmc_db: read failed", 1),
        (Fault::Run(RunError::Write), "kmc_db: write failed", 1),
        (
            Fault::Run(RunError::Input(ReadsError::BadPlus(3))),
            "kmc_db: line 3: bad plus line",
            1,
        ),
        (Fault::Run(RunError::TooLong), "kmc_db: input too long", 1),
    ] {
        shows(&rt, fault, line, status);
    }
}

#[test]
fn the_program_ends_with_its_status(rt: HostRuntime) {
    for (words, text, status, rows) in [
        ("-k4 -ci1", FASTQ, 0, "1\t1\n2\t2\n"),
        ("-k4 -k5", FASTQ, 2, ""),
        ("-k65", FASTQ, 2, ""),
        ("-fa", FASTQ, 1, ""),
    ] {
        let argv = words_of(rt.alloc(), words).expect(&rt, "memory");
        let mut reader = Counted::new(text);
        let mut writer = Counted::new(Vec::new(rt.alloc()));
        let ended = spectrum_of(&rt, argv, &mut reader, &mut writer);
        assert!(&rt; ended == ExitCode::from(status), "{words}");
        assert_eq!(&rt; writer.into_inner().as_slice(), rows.as_bytes(), "{words}");
    }
}
