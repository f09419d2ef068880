//! The programs that cut and list slices, from their words to their files, their dump and their status.

mod cut_fault;
mod cutting;
mod foreign;
mod gathering;
mod list_fault;
mod listing;

pub use cut_fault::{CutFault, CutMessage};
pub use cutting::{cut_program, cut_to, cut_words};
pub use gathering::gather_readers;
pub use list_fault::{ListFault, ListMessage};
pub use listing::{list_files, list_program, list_readers, list_words};
