//! The calls of the queue and their answers, as values.
ghost use Rattle.std.specs.Prelude.{◌≡◌};

use crate::totals::Totals;
use thiserror::Error;

/// A call of the queue: by a writer, by a reader, or of a writer with an item.
#[derive(Drop)]
pub enum Event<T> {
    Register(usize),
    Put(usize, T),
    Take(usize),
    Complete(usize),
}

/// The answer of a call, under the name of the call.
#[derive(Drop)]
pub enum Reply<T> {
    Register(Result<(), RegisterError>),
    Put(Result<u64, (PutError, T)>),
    Take(Result<Taken<T>, TakeError>),
    Complete(Result<(), CompleteError>),
}

/// An item that left the queue, with its writer and its number among that writer's items, from 0.
#[derive(Drop)]
pub struct Received<T> {
    pub writer: usize,
    pub number: u64,
    pub item: T,
}

/// What a reader is answered.
#[derive(Drop)]
pub enum Taken<T> {
    /// An item, which is no longer in the queue.
    Got(Received<T>),
    /// No item is in the queue, and some writer has not completed.
    Empty,
    /// No item is in the queue, and all writers have completed: there will be none.
    Finished(Totals),
}

/// Why a writer was not registered. The causes are tested in this order.
#[derive(Clone, Copy, Debug, Error)]
pub enum RegisterError {
    #[error("no such writer")]
    NoSuchWriter,
    /// Also after the writer has completed.
    #[error("writer already registered")]
    AlreadyRegistered,
}

impl RegisterError {
    ghost use Rattle.kmc_partcore.specs.RefusalNumbers.{number_of_register_error};

    /// The number of the refusal, as docs/REFUSALS.md lists it.
    pub fn number(&self) -> u8
        ensures { result ≡ number_of_register_error self.now }
    {
        match self {
            RegisterError::NoSuchWriter => 1,
            RegisterError::AlreadyRegistered => 2,
        }
    }
}

/// Why an item was not accepted. The causes are tested in this order.
#[derive(Clone, Copy, Debug, Error)]
pub enum PutError {
    #[error("no such writer")]
    NoSuchWriter,
    #[error("writer not registered")]
    NotRegistered,
    #[error("writer has completed")]
    Completed,
    /// The writer has put as many items as have numbers.
    #[error("item numbers spent")]
    NumbersSpent,
    /// As many of the writer's items as the shape allows are in the queue.
    #[error("no room for an item of the writer")]
    Full,
}

impl PutError {
    ghost use Rattle.kmc_partcore.specs.RefusalNumbers.{number_of_put_error};

    /// The number of the refusal, as docs/REFUSALS.md lists it.
    pub fn number(&self) -> u8
        ensures { result ≡ number_of_put_error self.now }
    {
        match self {
            PutError::NoSuchWriter => 1,
            PutError::NotRegistered => 3,
            PutError::Completed => 4,
            PutError::NumbersSpent => 6,
            PutError::Full => 5,
        }
    }
}

/// Why a reader was answered nothing.
#[derive(Clone, Copy, Debug, Error)]
pub enum TakeError {
    #[error("no such reader")]
    NoSuchReader,
}

impl TakeError {
    ghost use Rattle.kmc_partcore.specs.RefusalNumbers.{number_of_take_error};

    /// The number of the refusal, as docs/REFUSALS.md lists it.
    pub fn number(&self) -> u8
        ensures { result ≡ number_of_take_error self.now }
    {
        match self {
            TakeError::NoSuchReader => 7,
        }
    }
}

/// Why a writer did not complete. The causes are tested in this order.
#[derive(Clone, Copy, Debug, Error)]
pub enum CompleteError {
    #[error("no such writer")]
    NoSuchWriter,
    #[error("writer not registered")]
    NotRegistered,
    #[error("writer has completed")]
    Completed,
}

impl CompleteError {
    ghost use Rattle.kmc_partcore.specs.RefusalNumbers.{number_of_complete_error};

    /// The number of the refusal, as docs/REFUSALS.md lists it.
    pub fn number(&self) -> u8
        ensures { result ≡ number_of_complete_error self.now }
    {
        match self {
            CompleteError::NoSuchWriter => 1,
            CompleteError::NotRegistered => 3,
            CompleteError::Completed => 4,
        }
    }
}
