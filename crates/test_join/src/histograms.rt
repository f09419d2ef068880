//! Histograms of dumps, worked by hand.
use crate::devices::{Devices, SOUND, at, text_reader};
use kmc_device::Counted;
use kmc_join::histogram;
use kmc_sum::{LineFault, SourceFault, SumError};
use std::alloc::Global;
use std::process::Abort;
use std::test::Fail;
use test_support::{Full, NarrowWriter};

/// What a histogram of a text answers, and what it writes, with a reader that gives three bytes at a time.
fn counted(
    rt: &(impl Abort + Alloc<A = Global>),
    text: &'static str,
    devices: Devices,
) -> (Result<(), SumError>, Vec<u8>) {
    let mut readers = [Counted::new(text_reader(text, devices.failing))];
    let out = NarrowWriter::new(
        Vec::new(rt.alloc()),
        5,
        devices.room,
        Full::Fails,
        devices.flushes,
    );
    let mut writer = Counted::new(out);
    let answer = histogram(rt.alloc(), &mut readers, &mut writer);
    (answer, writer.into_inner().into_bytes())
}

fn gives(rt: &(impl Abort + Alloc<A = Global>), text: &'static str, rows: &str) {
    let (answer, written) = counted(rt, text, SOUND);
    assert_eq!(rt; answer, Ok(()));
    assert_eq!(rt; written.as_slice(), rows.as_bytes());
}

fn refuses(
    rt: &(impl Abort + Alloc<A = Global>),
    text: &'static str,
    devices: Devices,
    error: SumError,
    front: &str,
) {
    let (answer, written) = counted(rt, text, devices);
    assert_eq!(rt; answer, Err(error));
    assert_eq!(rt; written.as_slice(), front.as_bytes());
}

#[test]
fn words_are_counted_by_their_counts(rt: HostRuntime) -> Result<(), Fail> {
    let text = "AA\t70000\nAC\t2\nCA\t1\nCC\t2\nGT\t18446744073709551615\nTT\t2\n";
    gives(&rt, text, "1\t1\n2\t3\n70000\t1\n18446744073709551615\t1\n");
    gives(&rt, "ACG\t9\n", "9\t1\n");
    gives(&rt, "", "");
    Ok(())
}

#[test]
fn nothing_is_written_of_a_dump_at_fault(rt: HostRuntime) -> Result<(), Fail> {
    let malformed = SourceFault::Line(2, LineFault::Malformed);
    refuses(&rt, "AC\t1\nCA\t0\n", SOUND, at(0, malformed), "");
    let devices = Devices {
        failing: 2,
        room: 1 << 20,
        flushes: true,
    };
    refuses(&rt, "AC\t1\n", devices, at(0, SourceFault::Read), "");
    Ok(())
}

#[test]
fn a_writer_that_fails_has_a_front_of_the_rows(rt: HostRuntime) -> Result<(), Fail> {
    let narrow = Devices {
        failing: 0,
        room: 6,
        flushes: true,
    };
    refuses(&rt, "AC\t1\nCA\t5\n", narrow, SumError::Write, "1\t1\n5\t");
    let unflushed = Devices {
        failing: 0,
        room: 1 << 20,
        flushes: false,
    };
    refuses(&rt, "AC\t1\n", unflushed, SumError::Write, "1\t1\n");
    Ok(())
}
