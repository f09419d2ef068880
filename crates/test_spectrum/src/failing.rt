//! Texts at fault, and devices that fail.
use crate::devices::{Devices, SOUND, assert_made};
use crate::texts::FASTQ;
use kmc_options::RunError;
use kmc_reads::ReadsError;

#[test]
fn a_text_at_fault_is_refused_before_anything_is_written(rt: HostRuntime) {
    let unlike = Err(RunError::Input(ReadsError::QualityLength(4)));
    assert_made(&rt, "-k4", b"@r\nACGT\n+\nIII\n", SOUND, unlike, "");
    let unheaded = Err(RunError::Input(ReadsError::BadHeader(1)));
    assert_made(&rt, "-fa -k4", FASTQ, SOUND, unheaded, "");
}

#[test]
fn a_read_that_fails_is_told(rt: HostRuntime) {
    for failing in 1..=6 {
        let devices = Devices {
            failing,
            room: 1 << 20,
            flushes: true,
        };
        assert_made(&rt, "-k4", FASTQ, devices, Err(RunError::Read), "");
    }
}

#[test]
fn a_writer_that_fails_has_a_front_of_the_rows(rt: HostRuntime) {
    let narrow = Devices {
        failing: 0,
        room: 5,
        flushes: true,
    };
    assert_made(
        &rt,
        "-k4 -ci1",
        FASTQ,
        narrow,
        Err(RunError::Write),
        "1\t1\n2",
    );
    let unflushed = Devices {
        failing: 0,
        room: 1 << 20,
        flushes: false,
    };
    assert_made(&rt, "-k4", FASTQ, unflushed, Err(RunError::Write), "2\t2\n");
    assert_made(&rt, "-k4", b"", unflushed, Err(RunError::Write), "");
}
