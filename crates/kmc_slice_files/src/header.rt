//! The header of a slice's file: 28 bytes that tell a slice's place, and their check word.
ghost use Rattle.std.specs.Prelude.{◌≡◌, OnOk, OnErr, IfOk, IfErr, MatchOption};
ghost use Rattle.std.specs.Io.KnownBytes.{Appends, Consumes};
ghost use Rattle.kmc_device.specs.Device.{AppendsFront, RisesByOne};
ghost use Rattle.kmc_slice_files.specs.Files.{IsSlicing, slicing_bytes, header_bytes};
ghost use Rattle.kmc_slice_files.specs.Headers.{IsTold, IsOutOfRange, IsSlicingOf, IsRefusedHeader, IsHeaderFault, HeaderTells};

use crate::check::check_word;
use kmc_device::{Counted, ReadFault, WriteFault, fill_behind, write_text};
use kmc_record::Shape;
use std::io::{Read, Write};

/// The bytes of a header.
pub(crate) const HEADER: usize = 28;

/// Those before its check word.
const FRONT: usize = 20;

/// The letters KMCSLICE as a number, the first letter lowest.
const LETTERS: u64 = 0x4543_494c_5343_4d4b;

/// The version that this is.
const VERSION: u32 = 1;

/// The place of a slice: how reads were cut, the number of slices, 1 to 65535, and that of this one, from 0.
#[derive(Clone, Copy, Debug, PartialEq, Eq)]
pub struct Slicing {
    pub shape: Shape,
    pub slices: u16,
    pub slice: u16,
}

/// Why no header was read. The causes are looked for in this order.
#[derive(Clone, Copy, Debug, PartialEq, Eq)]
pub enum HeaderFault {
    /// A read failed.
    Read,
    /// There are fewer than 28 bytes.
    Short,
    /// The first eight bytes are not the letters.
    NoSliceFile,
    /// It is a file of this version, which is not read here.
    OtherVersion(u32),
    /// The check word is another.
    Damaged,
    /// No run cuts reads so, or the slice is not below the number of slices.
    OutOfRange,
}

impl HeaderFault {
    ghost use Rattle.kmc_slice_files.specs.RefusalNumbers.{number_of_header_fault};

    /// The number of the refusal, as docs/REFUSALS.md lists it.
    pub fn number(&self) -> u8
        ensures { result ≡ number_of_header_fault self.now }
    {
        match self {
            HeaderFault::Read => 1,
            HeaderFault::Short => 2,
            HeaderFault::NoSliceFile => 3,
            HeaderFault::OtherVersion(_) => 4,
            HeaderFault::Damaged => 5,
            HeaderFault::OutOfRange => 6,
        }
    }
}

impl From<ReadFault> for HeaderFault {
    ghost use Rattle.kmc_slice_files.specs.declared.header.HeaderFault.TheVariants.{Read};

    ghost from_gives = { λ _ e. e ≡ Read };

    fn from(_: ReadFault) -> HeaderFault {
        HeaderFault::Read
    }
}

/// The bytes before the check word.
fn front(slicing: &Slicing) -> [u8; FRONT]
    ensures { result ≡ slicing_bytes slicing.now.shape slicing.now.slices slicing.now.slice }
{
    let shape = &slicing.shape;
    let n = (shape.n() as u16).to_le_bytes();
    let many = slicing.slices.to_le_bytes();
    let own = slicing.slice.to_le_bytes();
    let k = shape.k() as u8;
    let m = shape.m() as u8;
    [
        b'K', b'M', b'C', b'S', b'L', b'I', b'C', b'E', 1, 0, 0, 0, k, m, n[0], n[1], many[0],
        many[1], own[0], own[1],
    ]
}

/// Writes the header of a file.
pub fn write_header<W: Write>(writer: &mut Counted<W>, slicing: &Slicing) -> Result<(), WriteFault>
    ensures ok { OnOk result (Appends (W.contents writer.old.inner) (W.contents writer.new.inner)
        (header_bytes slicing.now.shape slicing.now.slices slicing.now.slice)) }
    ensures kept { OnOk result (writer.new.failures ≡ writer.old.failures) }
    ensures failed { OnErr result (RisesByOne writer.old.failures writer.new.failures) }
    ensures front { OnErr result
        (AppendsFront (W.contents writer.old.inner) (W.contents writer.new.inner)
        (header_bytes slicing.now.shape slicing.now.slices slicing.now.slice)) }
{
    let front = front(slicing);
    write_text(writer, &front)?;
    write_text(writer, &check_word(0, &front).to_le_bytes())
}

/// The numbers of a header.
#[derive(Clone, Copy)]
pub(crate) struct Told {
    pub letters: u64,
    pub version: u32,
    pub k: u8,
    pub m: u8,
    pub bins: u16,
    pub slices: u16,
    pub slice: u16,
    pub check: u64,
}

/// The numbers that bytes spell.
fn numbers_of(bytes: &[u8; HEADER]) -> Told
    ensures { IsTold result bytes.now }
{
    let h = bytes;
    Told {
        letters: u64::from_le_bytes([h[0], h[1], h[2], h[3], h[4], h[5], h[6], h[7]]),
        version: u32::from_le_bytes([h[8], h[9], h[10], h[11]]),
        k: h[12],
        m: h[13],
        bins: u16::from_le_bytes([h[14], h[15]]),
        slices: u16::from_le_bytes([h[16], h[17]]),
        slice: u16::from_le_bytes([h[18], h[19]]),
        check: u64::from_le_bytes([h[20], h[21], h[22], h[23], h[24], h[25], h[26], h[27]]),
    }
}

/// The place that numbers tell, where they are within their ranges.
fn slicing_of(told: &Told) -> Option<Slicing>
    ensures { MatchOption result (IsOutOfRange told.now) (IsSlicingOf told.now) }
{
    let shape = Shape::of_signature_length(
        usize::from(told.k),
        usize::from(told.m),
        usize::from(told.bins),
    )?;
    if told.slice < told.slices {
        Some(Slicing {
            shape,
            slices: told.slices,
            slice: told.slice,
        })
    } else {
        None
    }
}

/// The place that a header tells.
fn judge_header(bytes: &[u8; HEADER]) -> Result<Slicing, HeaderFault>
    ensures ok { IfOk result (λ h. IsSlicing h.shape h.slices h.slice
        × (bytes.now ≡ header_bytes h.shape h.slices h.slice)) }
    ensures fault { IfErr result (IsRefusedHeader bytes.now) }
{
    let told = numbers_of(bytes);
    if told.letters != LETTERS {
        return Err(HeaderFault::NoSliceFile);
    }
    if told.version != VERSION {
        return Err(HeaderFault::OtherVersion(told.version));
    }
    if told.check != check_word(0, &bytes[..FRONT]) {
        return Err(HeaderFault::Damaged);
    }
    match slicing_of(&told) {
        Some(slicing) => Ok(slicing),
        None => Err(HeaderFault::OutOfRange),
    }
}

/// Reads the header of a file.
pub fn read_header<R: Read>(reader: &mut Counted<R>) -> Result<Slicing, HeaderFault>
    ensures ok { IfOk result (λ h. IsSlicing h.shape h.slices h.slice
        × Consumes (R.remaining reader.old.inner) (R.remaining reader.new.inner)
        (header_bytes h.shape h.slices h.slice)) }
    ensures kept { OnOk result (reader.new.failures ≡ reader.old.failures) }
    ensures fault { IfErr result
        (IsHeaderFault (R.remaining reader.old.inner) (R.remaining reader.new.inner)) }
    ensures device { IfErr result (HeaderTells reader.old.failures reader.new.failures) }
{
    let mut bytes = [0; HEADER];
    let end = fill_behind(reader, &mut bytes, 0)?;
    if end < HEADER {
        return Err(HeaderFault::Short);
    }
    judge_header(&bytes)
}
