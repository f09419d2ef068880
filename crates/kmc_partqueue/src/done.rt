//! What is left of a writer's seat once the writer has completed.
ghost use Rattle.std.specs.Prelude.{◌≡◌, []};
ghost use Rattle.kmc_partqueue.specs.declared.views.Writing.{Writing};
ghost use Rattle.kmc_partqueue.specs.Dealing.{one_of_writers};
ghost use Rattle.kmc_partqueue.specs.Gathered.{WriterTells};

use crate::views::View;
use atomic_table::Seat;
use std::marker::Model;

/// The seat of a writer that has completed.
#[derive(Drop)]
pub struct DoneSeat<T> {
    pub(crate) seat: Seat<Option<T>, View<T>>,
    pub(crate) number: usize,
}

impl<T> Model for DoneSeat<T> {
    ghost use Rattle.kmc_partqueue.specs.Seats.{WriterState, per_writer_of, sent_of, AtEnd};

    ghost Value = { WriterState T };

    ghost view = { λ s. record {
      table = s.seat.table_id;
      number = s.number;
      per_writer = per_writer_of s.seat.me.0;
      sent = sent_of s.seat.me.0;
    } };

    ghost invariant = { λ s. AtEnd s.seat.me s.number };
}

impl<T> DoneSeat<T> {
    /// The number of the writer, from 0.
    pub fn number(&self) -> usize
        ensures { result ≡ self.now.number }
    {
        self.number
    }

    /// The table's seat alone.
    pub(crate) fn into_seat(self) -> Seat<Option<T>, View<T>>
        ensures table { result.table_id ≡ self.table }
        ensures view { (a : Writing T) × (result.me ≡ (one_of_writers a, [])) × WriterTells a self }
    {
        let DoneSeat { seat, .. } = self;
        seat
    }
}
