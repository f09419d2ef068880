use kmc_count::Limits;
use kmc_device::Counted;
use kmc_sum::{LineFault, MOST_SOURCES, SourceError, SourceFault, SumError, TextReader, merge};
use std::alloc::Global;
use std::process::Abort;
use std::test::Fail;
use test_support::{BlockReader, Full, NarrowWriter};

const GREATEST: u64 = 1 << 63;

/// How the devices of a merge behave.
#[derive(Drop)]
struct Devices {
    /// The read of each reader that fails; 0 for none.
    failing: u64,
    /// The bytes that the writer takes in all.
    room: usize,
    /// Whether its flush succeeds.
    flushes: bool,
}

const SOUND: Devices = Devices {
    failing: 0,
    room: 1 << 20,
    flushes: true,
};

/// The refusal of a line.
fn at_line(source: usize, line: u64, fault: LineFault) -> SumError {
    SumError::Source(SourceError {
        source,
        fault: SourceFault::Line(line, fault),
    })
}

/// The refusal where a read failed.
fn at_read(source: usize) -> SumError {
    SumError::Source(SourceError {
        source,
        fault: SourceFault::Read,
    })
}

/// What a merge of the texts answers, and what it writes, with readers that give three bytes at a time.
fn summed(
    rt: &(impl Abort + Alloc<A = Global>),
    texts: &[&'static str],
    limits: &Limits,
    devices: &Devices,
) -> Result<(Result<u64, SumError>, Vec<u8>), Fail> {
    let mut readers = Vec::new(rt.alloc());
    for text in texts {
        let reader = TextReader(BlockReader::new(text.as_bytes(), 3, devices.failing));
        if readers.push(Counted::new(reader)).is_err() {
            return Err(Fail::from("out of memory"));
        }
    }
    if readers.is_empty() || readers.len() > MOST_SOURCES {
        return Err(Fail::from("no merge has so many sources"));
    }
    let out = NarrowWriter::new(
        Vec::new(rt.alloc()),
        5,
        devices.room,
        Full::Fails,
        devices.flushes,
    );
    let mut writer = Counted::new(out);
    let answer = merge(rt.alloc(), readers.as_mut_slice(), limits, &mut writer);
    Ok((answer, writer.into_inner().into_bytes()))
}

fn limits(ci: u64, cx: u64, cs: u64) -> Result<Limits, Fail> {
    match Limits::new(ci, cx, cs) {
        Some(limits) => Ok(limits),
        None => Err(Fail::from("the limits are out of range")),
    }
}

/// Passes where the texts are summed to this dump.
fn gives(
    rt: &(impl Abort + Alloc<A = Global>),
    texts: &[&'static str],
    limits: &Limits,
    dump: &str,
    lines: u64,
) -> Result<(), Fail> {
    let (answer, written) = summed(rt, texts, limits, &SOUND)?;
    assert_eq!(rt; answer, Ok(lines));
    assert_eq!(rt; written.as_slice(), dump.as_bytes());
    Ok(())
}

/// Passes where the texts are refused so, and this was written before.
fn refuses(
    rt: &(impl Abort + Alloc<A = Global>),
    texts: &[&'static str],
    devices: &Devices,
    error: SumError,
    front: &str,
) -> Result<(), Fail> {
    let (answer, written) = summed(rt, texts, &limits(1, GREATEST, GREATEST)?, devices)?;
    assert_eq!(rt; answer, Err(error));
    assert_eq!(rt; written.as_slice(), front.as_bytes());
    Ok(())
}

#[test]
fn counts_of_equal_words_are_added(rt: HostRuntime) -> Result<(), Fail> {
    let texts = ["AC\t2\nCA\t5\n", "", "AC\t3\nTT\t1\n", "AA\t1\nAC\t1\n"];
    let dump = "AA\t1\nAC\t6\nCA\t5\nTT\t1\n";
    gives(&rt, &texts, &limits(1, GREATEST, GREATEST)?, dump, 4)
}

#[test]
fn limits_judge_the_sums(rt: HostRuntime) -> Result<(), Fail> {
    let texts = ["AC\t2\nCA\t5\n", "AC\t2\nCA\t6\nTT\t1\n"];
    gives(&rt, &texts, &limits(4, 10, 3)?, "AC\t3\n", 1)
}

#[test]
fn sums_above_64_bits_do_not_wrap(rt: HostRuntime) -> Result<(), Fail> {
    let dump = "CA\t9223372036854775808\n";
    let texts = [
        "AC\t18446744073709551615\n",
        "AC\t3\nCA\t9223372036854775807\n",
        "CA\t1\n",
    ];
    gives(&rt, &texts, &limits(0, GREATEST, GREATEST)?, dump, 1)
}

#[test]
fn empty_dumps_have_an_empty_sum(rt: HostRuntime) -> Result<(), Fail> {
    gives(&rt, &["", "", ""], &limits(0, GREATEST, 1)?, "", 0)
}

#[test]
fn each_field_at_fault_is_told_by_its_line(rt: HostRuntime) -> Result<(), Fail> {
    let faulty = [
        "AC\t1\nCA\t0\n",
        "AC\t1\nCA\t01\n",
        "AC\t1\nCA\t18446744073709551616\n",
        "AC\t1\nCA 1\n",
        "AC\t1\nCA\t1\r\n",
        "AC\t1\nCA\t1",
        "AC\t1\nCA\t\n",
        "AC\t1\nCN\t1\n",
        "AC\t1\nca\t1\n",
        "AC\t1\n\t1\n",
        "AC\t1\n\n",
        "AC\t1\nCA\t+1\n",
    ];
    for text in faulty {
        refuses(
            &rt,
            &["AA\t7\nAC\t1\nGG\t1\n", text],
            &SOUND,
            at_line(1, 2, LineFault::Malformed),
            "",
        )?;
    }
    Ok(())
}

#[test]
fn words_that_do_not_rise_are_told(rt: HostRuntime) -> Result<(), Fail> {
    let error = at_line(0, 2, LineFault::NotRising);
    refuses(&rt, &["AC\t1\nAC\t1\n"], &SOUND, error, "")?;
    refuses(&rt, &["AC\t1\nAA\t1\n"], &SOUND, error, "")
}

#[test]
fn words_of_other_lengths_are_told(rt: HostRuntime) -> Result<(), Fail> {
    let within = at_line(0, 2, LineFault::OtherLength);
    refuses(&rt, &["AC\t1\nCAA\t1\n"], &SOUND, within, "")?;
    let between = at_line(1, 1, LineFault::OtherLength);
    refuses(&rt, &["AC\t1\n", "CAA\t1\n"], &SOUND, between, "")
}

#[test]
fn a_read_that_fails_is_told(rt: HostRuntime) -> Result<(), Fail> {
    let devices = Devices {
        failing: 2,
        room: 1 << 20,
        flushes: true,
    };
    refuses(&rt, &["AC\t1\n", "AC\t1\n"], &devices, at_read(0), "")
}

#[test]
fn a_writer_that_fails_has_a_front(rt: HostRuntime) -> Result<(), Fail> {
    let devices = Devices {
        failing: 0,
        room: 7,
        flushes: true,
    };
    refuses(
        &rt,
        &["AC\t1\nCA\t5\n"],
        &devices,
        SumError::Write,
        "AC\t1\nCA",
    )?;
    let devices = Devices {
        failing: 0,
        room: 1 << 20,
        flushes: false,
    };
    refuses(&rt, &["AC\t1\n"], &devices, SumError::Write, "AC\t1\n")
}
