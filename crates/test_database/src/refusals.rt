//! Dumps that are not packed, and devices that fail.
use crate::devices::{Devices, SOUND, counts_of, packed};
use kmc_database::{PackError, PackOptions};
use kmc_sum::{LineFault, SourceFault};
use std::alloc::Global;
use std::process::Abort;
use std::test::Fail;

/// Counts of one byte.
fn of_a_byte() -> PackOptions {
    counts_of(1, 2, 255)
}

/// Passes where the text is refused so, and these fronts were written before.
fn refuses(
    rt: &(impl Abort + Alloc<A = Global>),
    text: &'static str,
    options: &PackOptions,
    devices: Devices,
    error: PackError,
    fronts: (&[u8], &[u8]),
) -> Result<(), Fail> {
    let written = packed(rt, text, options, devices)?;
    assert_eq!(rt; written.answer, Err(error));
    let (prefix, suffix) = fronts;
    assert_eq!(rt; written.prefix.as_slice(), prefix);
    assert_eq!(rt; written.suffix.as_slice(), suffix);
    Ok(())
}

/// Passes where the text is refused so, and nothing was written.
fn refuses_at_once(
    rt: &(impl Abort + Alloc<A = Global>),
    text: &'static str,
    options: &PackOptions,
    error: PackError,
) -> Result<(), Fail> {
    refuses(rt, text, options, SOUND, error, (b"", b""))
}

#[test]
fn lines_at_fault_are_told(rt: HostRuntime) -> Result<(), Fail> {
    let malformed = PackError::Source(SourceFault::Line(2, LineFault::Malformed));
    refuses_at_once(&rt, "AC\t1\nCA\t0\n", &of_a_byte(), malformed)?;
    let other = PackError::Source(SourceFault::Line(2, LineFault::OtherLength));
    refuses_at_once(&rt, "AC\t1\nCAA\t1\n", &of_a_byte(), other)?;
    let fallen = PackError::Source(SourceFault::Line(3, LineFault::NotRising));
    refuses_at_once(&rt, "AC\t1\nCA\t1\nCA\t1\n", &of_a_byte(), fallen)?;
    let first = PackError::Source(SourceFault::Line(1, LineFault::OtherLength));
    let of_3 = PackOptions {
        k: Some(3),
        ..of_a_byte()
    };
    refuses_at_once(&rt, "AC\t1\n", &of_3, first)
}

#[test]
fn a_count_that_does_not_fit_is_told(rt: HostRuntime) -> Result<(), Fail> {
    refuses_at_once(&rt, "AC\t256\n", &of_a_byte(), PackError::TooGreat(1))?;
    refuses_at_once(
        &rt,
        "AC\t1\nCA\t256\n",
        &of_a_byte(),
        PackError::TooGreat(2),
    )?;
    refuses_at_once(
        &rt,
        "AC\t4294967296\n",
        &counts_of(4, 2, 9),
        PackError::TooGreat(1),
    )
}

#[test]
fn a_length_that_is_not_known_is_told(rt: HostRuntime) -> Result<(), Fail> {
    refuses_at_once(&rt, "", &of_a_byte(), PackError::Empty)?;
    let with_2 = PackOptions {
        prefix: Some(2),
        ..of_a_byte()
    };
    refuses_at_once(&rt, "ACG\t1\n", &with_2, PackError::Prefix(3))?;
    let of_1_with_2 = PackOptions {
        k: Some(1),
        ..with_2
    };
    refuses_at_once(&rt, "", &of_1_with_2, PackError::Prefix(1))?;
    let of_65 = PackOptions {
        k: Some(65),
        ..of_a_byte()
    };
    refuses_at_once(&rt, "AC\t1\n", &of_65, PackError::Prefix(65))
}

#[test]
fn a_read_that_fails_is_told(rt: HostRuntime) -> Result<(), Fail> {
    let failing = Devices {
        failing: 2,
        ..SOUND
    };
    let error = PackError::Source(SourceFault::Read);
    refuses(
        &rt,
        "AC\t1\nCA\t1\n",
        &of_a_byte(),
        failing,
        error,
        (b"", b""),
    )
}

#[test]
fn a_file_that_cannot_be_written_is_told(rt: HostRuntime) -> Result<(), Fail> {
    let narrow = Devices {
        suffix: (6, true),
        ..SOUND
    };
    let fronts: (&[u8], &[u8]) = (b"", b"KMCS\x07\xff");
    refuses(
        &rt,
        "A\t7\nT\t255\n",
        &of_a_byte(),
        narrow,
        PackError::WriteSuffix,
        fronts,
    )?;
    let unflushed = Devices {
        suffix: (100, false),
        ..SOUND
    };
    let fronts: (&[u8], &[u8]) = (b"", b"KMCS\x07\xffKMCS");
    refuses(
        &rt,
        "A\t7\nT\t255\n",
        &of_a_byte(),
        unflushed,
        PackError::WriteSuffix,
        fronts,
    )?;
    let narrow = Devices {
        prefix: (13, true),
        ..SOUND
    };
    let fronts: (&[u8], &[u8]) = (b"KMCP\0\0\0\0\0\0\0\0\x01", b"KMCS\x07\xffKMCS");
    refuses(
        &rt,
        "A\t7\nT\t255\n",
        &of_a_byte(),
        narrow,
        PackError::WritePrefix,
        fronts,
    )
}
