//! A run: [`run`] counts the reads of a reader into a dump on a writer, and [`program`] does so by the words of a command line. It
//! stands on kmc_stage_one for bins, on kmc_stage_two for their lists, on kmc_dump for the dump and on kmc_options for settings and
//! faults. The layer above calls [`program`] with the process's reader and writer, or [`run`] and [`count_input`] with settings of
//! its own.
#![tactic(auto)]

mod arguments;
mod input;
mod running;
mod stages;

pub use arguments::{count, program, program_of};
pub use input::{count_input, count_input_with};
pub use kmc_options::{Fault, Params, RunError, params, words};
pub use kmc_stage_one::pass_parts;
pub use running::{run, run_with_gate};
pub use stages::{round_settings, stage_one, stage_two};
