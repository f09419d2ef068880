//! Puts and takes that wait at the queue, for callers without a run: their answers are those of the calls that answer at once, but
//! never Full, NotNow or Empty.

mod putting;
mod taking;

pub use putting::put;
pub use taking::take;
