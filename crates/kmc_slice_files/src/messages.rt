//! What a user is told of a file that is at fault.
ghost use Rattle.std.specs.Prelude.{Some};
ghost use Rattle.kmc_slice_files.specs.Messages.{text_of_file_fault, text_of_frames_fault, text_of_header_fault, text_of_slice_fault};

use crate::frames::{FileFault, FramesFault};
use crate::header::HeaderFault;
use crate::read::FrameFault;
use crate::slice::SliceFault;
use std::fmt;

impl fmt::Display for HeaderFault {
    ghost output = { λ fault. Some (text_of_header_fault fault) };

    fn fmt<W: fmt::Write>(&self, f: &mut fmt::Formatter<W>) -> fmt::Result {
        match self {
            HeaderFault::Read => write!(f, "cannot be read"),
            HeaderFault::Short => write!(f, "was cut short within its header"),
            HeaderFault::NoSliceFile => write!(f, "is no file of a slice"),
            HeaderFault::OtherVersion(version) => {
                write!(f, "is of version {version}, and version 1 is read")
            }
            HeaderFault::Damaged => write!(f, "has a damaged header"),
            HeaderFault::OutOfRange => write!(f, "has a header with a number out of its range"),
        }
    }
}

impl fmt::Display for FramesFault {
    ghost output = { λ fault. Some (text_of_frames_fault fault) };

    fn fmt<W: fmt::Write>(&self, f: &mut fmt::Formatter<W>) -> fmt::Result {
        match self {
            FramesFault::Next(FrameFault::Read) => write!(f, "it cannot be read"),
            FramesFault::Next(FrameFault::Memory) => write!(f, "out of memory"),
            FramesFault::Next(FrameFault::Short) => write!(f, "the file was cut short"),
            FramesFault::Next(FrameFault::Damaged) => write!(f, "it is damaged"),
            FramesFault::Behind => write!(f, "bytes stand behind the end"),
            FramesFault::TooMany => write!(f, "there are too many frames"),
        }
    }
}

impl fmt::Display for FileFault {
    ghost output = { λ fault. Some (text_of_file_fault fault) };

    fn fmt<W: fmt::Write>(&self, f: &mut fmt::Formatter<W>) -> fmt::Result {
        let frames = self.place.frames;
        let byte = self.place.byte;
        let why = self.why;
        write!(f, "behind frame {frames}, at byte {byte}: {why}")
    }
}

impl fmt::Display for SliceFault {
    ghost output = { λ fault. Some (text_of_slice_fault fault) };

    fn fmt<W: fmt::Write>(&self, f: &mut fmt::Formatter<W>) -> fmt::Result {
        match self {
            SliceFault::Header(fault) => write!(f, "{fault}"),
            SliceFault::Other(_) => write!(
                f,
                "is of another slice than the first file, or was cut otherwise"
            ),
            SliceFault::File(fault) => write!(f, "{fault}"),
        }
    }
}
