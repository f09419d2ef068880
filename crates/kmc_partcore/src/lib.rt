//! The queue of parts as an object without threads: its shape, its calls and answers, its legal histories, and [`PartCore`], which
//! holds them over a ring (`circular_buffer`). The layer above uses the definitions, and from `laws` that the live part of a history
//! tells what is legal next.
#![tactic(auto)]

mod event;
pub mod laws;
mod part_core;
mod replay;
mod shape;
mod totals;

pub use event::{CompleteError, Event, PutError, Received, RegisterError, Reply, TakeError, Taken};
pub use part_core::{Counters, PartCore, Queued};
pub use replay::run;
pub use shape::{MAX_ITEMS, MAX_PER_WRITER, MAX_READERS, MAX_WRITERS, QueueShape};
pub use totals::Totals;
