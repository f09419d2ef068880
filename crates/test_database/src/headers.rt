//! Headers, read: that of a worked database, and bytes that are none.
use kmc_database::{FormFault, Header, Layout, read_header};
use std::process::Abort;
use std::test::Fail;

/// The end of the prefix file of three words of 5 symbols, with first parts of one symbol and counts of two bytes.
const WORKED: [u8; 72] =
    *b"\x05\0\0\0\0\0\0\0\x02\0\0\0\x01\0\0\0\x01\0\0\0\0\xca\x9a\x3b\x03\0\0\0\0\0\0\0\0\0\0\0\0\0\0\0\0\0\0\0\0\0\0\0\0\0\0\0\0\0\0\0\0\0\0\0\0\0\0\0\x40\0\0\0KMCP";

/// What it tells.
fn worked() -> Header {
    Header {
        layout: Layout {
            k: 5,
            prefix: 1,
            counter: 2,
        },
        rows: 3,
    }
}

/// Passes where the worked header with another byte at this place is read so.
fn reads(
    rt: &impl Abort,
    place: usize,
    byte: u8,
    answer: Result<Header, FormFault>,
) -> Result<(), Fail> {
    let mut bytes = WORKED;
    if place < bytes.len() {
        bytes[place] = byte;
    }
    assert_eq!(rt; read_header(&bytes), answer, "at {place}");
    Ok(())
}

#[test]
fn a_worked_header_is_read(rt: HostRuntime) -> Result<(), Fail> {
    assert_eq!(rt; read_header(&WORKED), Ok(worked()));
    Ok(())
}

#[test]
fn limits_and_strands_do_not_matter(rt: HostRuntime) -> Result<(), Fail> {
    for place in 16..24 {
        reads(&rt, place, 99, Ok(worked()))?;
    }
    for place in 32..60 {
        reads(&rt, place, 99, Ok(worked()))?;
    }
    Ok(())
}

#[test]
fn other_bytes_are_no_header(rt: HostRuntime) -> Result<(), Fail> {
    reads(&rt, 68, 99, Err(FormFault::Marker))?;
    reads(&rt, 71, b'S', Err(FormFault::Marker))?;
    reads(&rt, 61, 2, Err(FormFault::Newer))?;
    reads(&rt, 60, 1, Err(FormFault::Version))?;
    reads(&rt, 64, 68, Err(FormFault::Size))?;
    reads(&rt, 4, 1, Err(FormFault::Mode))?;
    reads(&rt, 0, 6, Err(FormFault::NoLayout))?;
    reads(&rt, 0, 65, Err(FormFault::NoLayout))?;
    reads(&rt, 8, 0, Err(FormFault::NoLayout))?;
    reads(&rt, 8, 5, Err(FormFault::NoLayout))?;
    reads(&rt, 12, 0, Err(FormFault::NoLayout))?;
    reads(&rt, 12, 9, Err(FormFault::NoLayout))?;
    reads(&rt, 15, 1, Err(FormFault::NoLayout))
}
