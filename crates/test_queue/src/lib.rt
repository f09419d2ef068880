//! Tests of the queue of parts, as a pure object and between threads, by public calls alone. It stands on `kmc_partcore` and
//! `kmc_partqueue`, and nothing stands on it. What each call answers is taken from a
//! plain model of the queue (`tests_model/queue_model.py`) or from the description of the queue.
#![tactic(auto)]

/// The shape of a queue with so many writers, slots of each writer, and readers.
#[cfg(test)]
macro_rules! shape {
    ($writers:expr, $per_writer:expr, $readers:expr) => {
        QueueShape {
            writers: $writers,
            per_writer: $per_writer,
            readers: $readers,
        }
    };
}

#[cfg(test)]
mod calls;
#[cfg(test)]
mod held;
#[cfg(test)]
mod lanes;
#[cfg(test)]
mod lists;
