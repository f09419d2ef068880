//! Joins over memory, and devices that fail.
use kmc_count::Limits;
use kmc_device::Counted;
use kmc_join::{Choice, EVERY_COUNT, JoinRule, Operation, join};
use kmc_sum::{LineFault, SourceError, SourceFault, SumError, TextReader};
use std::alloc::Global;
use std::process::Abort;
use std::test::Fail;
use test_support::{BlockReader, Full, NarrowWriter};

/// The greatest number of a limit.
pub const GREATEST: u64 = 1 << 63;

/// How the devices of a join behave.
#[derive(Clone, Copy)]
pub struct Devices {
    /// The read of each reader that fails; 0 for none.
    pub failing: u64,
    /// The bytes that the writer takes in all.
    pub room: usize,
    /// Whether its flush succeeds.
    pub flushes: bool,
}

/// Devices that do not fail.
pub const SOUND: Devices = Devices {
    failing: 0,
    room: 1 << 20,
    flushes: true,
};

/// The limits of these numbers.
pub fn limits(ci: u64, cx: u64, cs: u64) -> Result<Limits, Fail> {
    match Limits::new(ci, cx, cs) {
        Some(limits) => Ok(limits),
        None => Err(Fail::from("the limits are out of range")),
    }
}

/// The operation on all counts of both dumps.
pub fn on_every_count(operation: Operation) -> JoinRule {
    JoinRule {
        operation,
        left: EVERY_COUNT,
        right: EVERY_COUNT,
    }
}

/// A reader of a dump that gives three bytes at a time, and fails in one of its reads, if not in read 0.
pub fn text_reader<'a>(text: &'a str, failing: u64) -> TextReader<BlockReader<'a>> {
    TextReader(BlockReader::new(text.as_bytes(), 3, failing))
}

/// What a join of two texts answers, and what it writes, with readers that give three bytes at a time.
pub fn joined(
    rt: &(impl Abort + Alloc<A = Global>),
    texts: [&'static str; 2],
    rule: JoinRule,
    limits: &Limits,
    devices: Devices,
) -> Result<(Result<u64, SumError>, Vec<u8>), Fail> {
    let [first, second] = texts;
    let mut readers = [
        Counted::new(text_reader(first, devices.failing)),
        Counted::new(text_reader(second, devices.failing)),
    ];
    let out = NarrowWriter::new(
        Vec::new(rt.alloc()),
        5,
        devices.room,
        Full::Fails,
        devices.flushes,
    );
    let mut writer = Counted::new(out);
    let answer = join(rt.alloc(), &mut readers, rule, limits, &mut writer);
    Ok((answer, writer.into_inner().into_bytes()))
}

/// Passes where the union of the texts is refused so, and this was written before.
fn refuses(
    rt: &(impl Abort + Alloc<A = Global>),
    texts: [&'static str; 2],
    devices: Devices,
    error: SumError,
    front: &str,
) -> Result<(), Fail> {
    let union = on_every_count(Operation::Union(Choice::Sum));
    let (answer, written) = joined(rt, texts, union, &limits(1, GREATEST, GREATEST)?, devices)?;
    assert_eq!(rt; answer, Err(error));
    assert_eq!(rt; written.as_slice(), front.as_bytes());
    Ok(())
}

/// The refusal of a source.
pub fn at(source: usize, fault: SourceFault) -> SumError {
    SumError::Source(SourceError { source, fault })
}

#[test]
fn a_line_at_fault_is_told_with_its_file(rt: HostRuntime) -> Result<(), Fail> {
    let malformed = SourceFault::Line(2, LineFault::Malformed);
    refuses(
        &rt,
        ["AC\t1\n", "AC\t1\nCA\t0\n"],
        SOUND,
        at(1, malformed),
        "",
    )?;
    let other = SourceFault::Line(1, LineFault::OtherLength);
    refuses(&rt, ["AC\t1\n", "CAA\t1\n"], SOUND, at(1, other), "")?;
    let fallen = SourceFault::Line(2, LineFault::NotRising);
    refuses(&rt, ["AC\t1\nAA\t1\n", "AC\t1\n"], SOUND, at(0, fallen), "")
}

#[test]
fn a_read_that_fails_is_told(rt: HostRuntime) -> Result<(), Fail> {
    let devices = Devices {
        failing: 2,
        room: 1 << 20,
        flushes: true,
    };
    refuses(
        &rt,
        ["AC\t1\n", "AC\t1\n"],
        devices,
        at(0, SourceFault::Read),
        "",
    )
}

#[test]
fn a_writer_that_fails_has_a_front(rt: HostRuntime) -> Result<(), Fail> {
    let narrow = Devices {
        failing: 0,
        room: 7,
        flushes: true,
    };
    refuses(
        &rt,
        ["AC\t1\n", "CA\t5\n"],
        narrow,
        SumError::Write,
        "AC\t1\nCA",
    )?;
    let unflushed = Devices {
        failing: 0,
        room: 1 << 20,
        flushes: false,
    };
    refuses(&rt, ["AC\t1\n", ""], unflushed, SumError::Write, "AC\t1\n")
}
