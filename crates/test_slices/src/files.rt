//! The file of slice 0 of 2 of the read ACGTACGT, k 4, m 3, 7 bins: bin 2 has the record of GTAC, bin 6 those of ACGTA and TACGT. Its
//! bytes were worked by another program, from docs/DEFINITIONS.md.
ghost use Rattle.std.specs.Prelude.{◌≤◌};

use kmc_device::Counted;
use kmc_record::Shape;
use kmc_slice_files::{
    FileFault, FrameFault, FramesFault, HeaderFault, Place, SliceFault, Slicing, read_slice,
    write_bin, write_end, write_header,
};
use std::alloc::Global;
use std::process::Abort;
use std::test::Fail;
use test_support::{BlockReader, Full, NarrowWriter};

/// The bytes of the file.
pub(crate) const LENGTH: usize = 84;

pub(crate) const FILE: [u8; LENGTH] = [
    0x4b, 0x4d, 0x43, 0x53, 0x4c, 0x49, 0x43, 0x45, 0x01, 0x00, 0x00, 0x00, 0x04, 0x03, 0x07, 0x00,
    0x02, 0x00, 0x00, 0x00, 0x27, 0x4d, 0x18, 0x67, 0x61, 0xd2, 0x33, 0xce, 0x02, 0x00, 0x00, 0x00,
    0x02, 0x00, 0x00, 0x00, 0xae, 0x77, 0x22, 0xc6, 0xdf, 0x94, 0xf4, 0xa4, 0x00, 0xb1, 0x06, 0x00,
    0x00, 0x00, 0x06, 0x00, 0x00, 0x00, 0x5d, 0x84, 0xb0, 0x8a, 0xe1, 0x72, 0xe4, 0x18, 0x01, 0x1b,
    0x00, 0x01, 0xc6, 0xc0, 0xff, 0xff, 0x00, 0x00, 0x00, 0x00, 0x00, 0x00, 0x02, 0x00, 0x00, 0x00,
    0x00, 0x00, 0x00, 0x00,
];

/// What the bins 2 and 6 have.
const SECOND: [u8; 2] = [0, 0xb1];

const SIXTH: [u8; 6] = [1, 0x1b, 0, 1, 0xc6, 0xc0];

/// What a read of the bytes as the file of a slice answers, and what the bins have then; the reader gives so many
/// bytes at a time and fails in this read.
fn read(
    rt: &(impl Abort + Alloc<A = Global>),
    bytes: &[u8],
    slice: u16,
    block: usize,
    failing: u64,
) -> Result<(Result<(), SliceFault>, [Vec<u8>; 7]), Fail>
    requires { 1 ≤ block }
{
    let Some(shape) = Shape::of_signature_length(4, 3, 7) else {
        return Err(Fail::from("there is no such shape"));
    };
    let expected = Slicing {
        shape,
        slices: 2,
        slice,
    };
    let mut bodies = [
        Vec::new(rt.alloc()),
        Vec::new(rt.alloc()),
        Vec::new(rt.alloc()),
        Vec::new(rt.alloc()),
        Vec::new(rt.alloc()),
        Vec::new(rt.alloc()),
        Vec::new(rt.alloc()),
    ];
    let mut reader = Counted::new(BlockReader::new(bytes, block, failing));
    let answer = read_slice(&mut reader, &mut bodies, &expected);
    Ok((answer, bodies))
}

#[test]
fn file_has_the_bytes_that_were_worked_out(rt: HostRuntime) -> Result<(), Fail> {
    let Some(shape) = Shape::of_signature_length(4, 3, 7) else {
        return Err(Fail::from("there is no such shape"));
    };
    let slicing = Slicing {
        shape,
        slices: 2,
        slice: 0,
    };
    let out = NarrowWriter::new(Vec::new(rt.alloc()), 5, 1 << 20, Full::Fails, true);
    let mut writer = Counted::new(out);
    if write_header(&mut writer, &slicing).is_err() {
        return Err(Fail::from("the header is not written"));
    }
    let Ok(first) = write_bin(&mut writer, 2, &SECOND) else {
        return Err(Fail::from("bin 2 is not written"));
    };
    let Ok(second) = write_bin(&mut writer, 6, &SIXTH) else {
        return Err(Fail::from("bin 6 is not written"));
    };
    assert_eq!(rt; (first, second), (1, 1));
    if write_end(&mut writer, 2).is_err() {
        return Err(Fail::from("the end is not written"));
    }
    assert_eq!(rt;
        writer.into_inner().into_bytes().as_slice(),
        FILE.as_slice()
    );
    Ok(())
}

#[test]
fn file_is_read_in_any_blocks(rt: HostRuntime) -> Result<(), Fail> {
    for block in 1..LENGTH + 1 {
        let (answer, bodies) = read(&rt, &FILE, 0, block, 0)?;
        assert_eq!(rt; answer, Ok(()));
        assert_eq!(rt; bodies[2].as_slice(), SECOND.as_slice());
        assert_eq!(rt; bodies[6].as_slice(), SIXTH.as_slice());
    }
    Ok(())
}

#[test]
fn each_changed_byte_is_refused(rt: HostRuntime) -> Result<(), Fail> {
    for i in 0..LENGTH {
        for change in 1..256u16 {
            let mut bytes = FILE;
            bytes[i] ^= change as u8;
            let (answer, _) = read(&rt, &bytes, 0, LENGTH, 0)?;
            assert!(rt; answer.is_err());
        }
    }
    Ok(())
}

#[test]
fn each_front_is_refused(rt: HostRuntime) -> Result<(), Fail> {
    for n in 0..LENGTH {
        let (answer, _) = read(&rt, &FILE[..n], 0, 7, 0)?;
        let fault = if n < 28 {
            SliceFault::Header(HeaderFault::Short)
        } else {
            let place = if n < 46 {
                Place {
                    frames: 0,
                    byte: 28,
                }
            } else if n < 68 {
                Place {
                    frames: 1,
                    byte: 46,
                }
            } else {
                Place {
                    frames: 2,
                    byte: 68,
                }
            };
            SliceFault::File(FileFault {
                place,
                why: FramesFault::Next(FrameFault::Short),
            })
        };
        assert_eq!(rt; answer, Err(fault));
    }
    Ok(())
}

#[test]
fn bytes_behind_the_end_are_refused(rt: HostRuntime) -> Result<(), Fail> {
    let mut bytes = Vec::new(rt.alloc());
    if bytes.extend_from_slice(&FILE).is_err() || bytes.push(0).is_err() {
        return Err(Fail::from("out of memory"));
    }
    let (answer, _) = read(&rt, &bytes, 0, 100, 0)?;
    let fault = FileFault {
        place: Place {
            frames: 2,
            byte: 68,
        },
        why: FramesFault::Behind,
    };
    assert_eq!(rt; answer, Err(SliceFault::File(fault)));
    Ok(())
}

#[test]
fn file_of_another_slice_is_told(rt: HostRuntime) -> Result<(), Fail> {
    let (answer, _) = read(&rt, &FILE, 1, 9, 0)?;
    let Err(SliceFault::Other(told)) = answer else {
        return Err(Fail::from("the file of another slice is not told"));
    };
    assert_eq!(rt; (told.slices, told.slice), (2, 0));
    Ok(())
}

#[test]
fn failed_reads_are_told(rt: HostRuntime) -> Result<(), Fail> {
    // 28, 16, 2, 16, 6 and 16 bytes, and the end of the bytes: the third read is that of the first body
    let header = SliceFault::Header(HeaderFault::Read);
    let body = FileFault {
        place: Place {
            frames: 0,
            byte: 28,
        },
        why: FramesFault::Next(FrameFault::Read),
    };
    let behind = FileFault {
        place: Place {
            frames: 2,
            byte: 68,
        },
        why: FramesFault::Next(FrameFault::Read),
    };
    let (first, _) = read(&rt, &FILE, 0, 100, 1)?;
    assert_eq!(rt; first, Err(header));
    let (third, _) = read(&rt, &FILE, 0, 100, 3)?;
    assert_eq!(rt; third, Err(SliceFault::File(body)));
    let (seventh, _) = read(&rt, &FILE, 0, 100, 7)?;
    assert_eq!(rt; seventh, Err(SliceFault::File(behind)));
    let (eighth, _) = read(&rt, &FILE, 0, 100, 8)?;
    assert_eq!(rt; eighth, Ok(()));
    Ok(())
}
