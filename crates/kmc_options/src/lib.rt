//! What programs are told: the words of a command line, the settings that they give, and how a program ends that was told wrong or
//! gave up: its line and its status; and help and the version. It stands on `clap`, on kmc_device for what is shown, and on the crates
//! whose sizes bound the settings. The layers above take [`Params`] from words, and from a fault the line and the status.
#![tactic(auto)]

mod about;
mod command;
mod command_line;
mod digits;
mod ending;
mod error;
mod fault;
mod given;
mod glued;
mod named;
mod prefix;
mod process;
mod program;
mod run_error;
mod run_params;
mod setting;
mod slices;

pub use about::{asked_text, asks_for_text, shown};
pub use command_line::{params, settings, words};
pub use digits::number;
pub use ending::{Ending, ended};
pub use error::ParamsError;
pub use fault::Fault;
pub use named::Named;
pub use prefix::{is_file_name, rest_after};
pub use process::{arguments, name_at};
pub use program::Program;
pub use run_error::RunError;
pub use run_params::{MAX_BATCH, Params};
pub use setting::{Bounds, Setting};
pub use slices::{
    CutRequest, CutRequestError, FilesRequest, ListRequest, ListRequestError, MOST_FILES,
    MOST_SLICES, cut_request, files_request, list_request,
};
