//! The words of the programs that cut and list slices, and that merge dumps.

mod cutting;
mod files;
mod joining;
mod listing;
mod messages;
mod sorting;
mod spelling;

pub use cutting::{CutRequest, CutRequestError, MOST_SLICES, cut_request};
pub use files::{FilesRequest, files_request};
pub use listing::{ListRequest, ListRequestError, MOST_FILES, list_request};
