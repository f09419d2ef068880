//! Devices that can fail: a reader or a writer whose failures are counted, a text written whole, and bytes read behind others. It
//! stands on nothing. The layers above use that each error, and each write that takes none of some bytes, adds one failure, and that
//! each read that gives bytes adds one read.
#![tactic(auto)]

mod counted;
mod room;
mod text;

pub use counted::Counted;
pub use room::{ReadFault, fill_behind, read_behind};
pub use text::{WriteFault, write_text};
