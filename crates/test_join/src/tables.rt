//! Tables of two dumps, worked by hand.
use crate::devices::{Devices, SOUND, at, text_reader};
use kmc_device::Counted;
use kmc_join::table;
use kmc_sum::{LineFault, SourceFault, SumError};
use std::alloc::Global;
use std::process::Abort;
use std::test::Fail;
use test_support::{Full, NarrowWriter};

/// What a table of two texts answers, and what it writes, with readers that give three bytes at a time.
fn tabled(
    rt: &(impl Abort + Alloc<A = Global>),
    texts: [&'static str; 2],
    cap: u64,
    devices: Devices,
) -> (Result<(), SumError>, Vec<u8>) {
    let [first, second] = texts;
    let mut readers = [
        Counted::new(text_reader(first, devices.failing)),
        Counted::new(text_reader(second, devices.failing)),
    ];
    let out = NarrowWriter::new(
        Vec::new(rt.alloc()),
        5,
        devices.room,
        Full::Fails,
        devices.flushes,
    );
    let mut writer = Counted::new(out);
    let answer = table(rt.alloc(), &mut readers, cap, &mut writer);
    (answer, writer.into_inner().into_bytes())
}

fn gives(rt: &(impl Abort + Alloc<A = Global>), texts: [&'static str; 2], cap: u64, rows: &str) {
    let (answer, written) = tabled(rt, texts, cap, SOUND);
    assert_eq!(rt; answer, Ok(()));
    assert_eq!(rt; written.as_slice(), rows.as_bytes());
}

fn refuses(
    rt: &(impl Abort + Alloc<A = Global>),
    texts: [&'static str; 2],
    devices: Devices,
    error: SumError,
    front: &str,
) {
    let (answer, written) = tabled(rt, texts, 1000, devices);
    assert_eq!(rt; answer, Err(error));
    assert_eq!(rt; written.as_slice(), front.as_bytes());
}

#[test]
fn words_are_counted_by_both_counts(rt: HostRuntime) -> Result<(), Fail> {
    let first = "AA\t5\nAC\t2\nCA\t7\nGG\t2\nTC\t18446744073709551615\n";
    let second = "AC\t3\nCA\t4\nGG\t3\nTT\t1\n";
    let rows = "0\t1\t1\n2\t3\t2\n5\t0\t1\n7\t4\t1\n18446744073709551615\t0\t1\n";
    gives(&rt, [first, second], u64::MAX, rows);
    let turned = "0\t5\t1\n0\t18446744073709551615\t1\n1\t0\t1\n3\t2\t2\n4\t7\t1\n";
    gives(&rt, [second, first], u64::MAX, turned);
    gives(&rt, ["", second], u64::MAX, "0\t1\t1\n0\t3\t2\n0\t4\t1\n");
    gives(&rt, ["", ""], 1000, "");
    Ok(())
}

#[test]
fn greater_counts_are_put_together(rt: HostRuntime) -> Result<(), Fail> {
    let first = "AA\t5\nAC\t2\nCA\t7\n";
    let second = "AC\t3\nCA\t4\nTT\t1\n";
    gives(
        &rt,
        [first, second],
        4,
        "0\t1\t1\n2\t3\t1\n4\t0\t1\n4\t4\t1\n",
    );
    gives(&rt, [first, second], 1, "0\t1\t1\n1\t0\t1\n1\t1\t2\n");
    Ok(())
}

#[test]
fn nothing_is_written_of_dumps_at_fault(rt: HostRuntime) -> Result<(), Fail> {
    let malformed = SourceFault::Line(2, LineFault::Malformed);
    refuses(
        &rt,
        ["AC\t1\n", "AC\t1\nCA\t0\n"],
        SOUND,
        at(1, malformed),
        "",
    );
    let fallen = SourceFault::Line(2, LineFault::NotRising);
    refuses(&rt, ["AC\t1\nAA\t1\n", "AC\t1\n"], SOUND, at(0, fallen), "");
    let devices = Devices {
        failing: 2,
        room: 1 << 20,
        flushes: true,
    };
    refuses(
        &rt,
        ["AC\t1\n", "AC\t1\n"],
        devices,
        at(0, SourceFault::Read),
        "",
    );
    Ok(())
}

#[test]
fn a_writer_that_fails_has_a_front_of_the_table(rt: HostRuntime) -> Result<(), Fail> {
    let narrow = Devices {
        failing: 0,
        room: 8,
        flushes: true,
    };
    refuses(
        &rt,
        ["AC\t1\n", "CA\t5\n"],
        narrow,
        SumError::Write,
        "0\t5\t1\n1\t",
    );
    let unflushed = Devices {
        failing: 0,
        room: 1 << 20,
        flushes: false,
    };
    refuses(
        &rt,
        ["AC\t1\n", ""],
        unflushed,
        SumError::Write,
        "1\t0\t1\n",
    );
    Ok(())
}
