//! The queue of parts among threads, without a lock, and how the workers that share it wait, put and take parts, and stop. It stands
//! on kmc_partcore for histories and on `atomic_table` for words and slots. The layer above hands a seat to each worker and gathers the
//! seats: what was sent was got once, and a legal history of the queue tells it.
#![tactic(auto)]

mod done;
mod gate;
mod gather;
mod lanes;
pub mod laws;
mod listing;
mod pause;
mod putting;
mod reader;
mod refusal;
mod rule;
mod shared_queue;
mod steps;
mod taking;
mod views;
mod waiting;
mod writer;

pub use done::DoneSeat;
pub use gate::{Gate, NoGate, Point};
pub use lanes::Lanes;
pub use listing::with_one;
pub use putting::put_all;
pub use reader::{ReaderSeat, TryTaken};
pub use refusal::{GivenUp, Refusal, both};
pub use shared_queue::SharedQueue;
pub use taking::take_part;
pub use views::{Ending, Reading, View, Writing};
pub use waiting::{put, take};
pub use writer::{PutResult, TryPutError, WriterSeat};
