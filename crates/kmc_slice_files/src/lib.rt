//! The files of slices: bins written in frames with check words, round after round, and files read into bodies again, or the first
//! fault with its place. It stands on kmc_store for bins and on kmc_device for files. The layer above uses that a file that was
//! written is read as it was, and that a changed one is refused.
#![tactic(auto)]

mod check;
mod files;
mod frame;
mod frames;
mod header;
pub mod laws;
mod messages;
mod opening;
mod read;
mod round;
mod slice;

pub use files::{begin_files, end_files, write_files};
pub use frame::{write_bin, write_end};
pub use frames::{FileFault, FramesFault, Place, read_frames};
pub use header::{HeaderFault, Slicing, read_header, write_header};
pub use opening::{CreateFault, create_files};
pub use read::{BLOCK, FrameFault};
pub use round::write_round;
pub use slice::{SliceFault, read_slice};
