//! Threads that fill buffers with the texts of ranges, each every so-manieth one, for as long as the thread that writes them needs some.
ghost use Rattle.std.specs.Prelude.{◌≡◌, ◌+◌, ◌≤◌, ◌<◌, ℕ, length, slice_index_or};
ghost use Rattle.rtrb.specs.Ring.{SameProducer, sent};
ghost use Rattle.kmc_dump.specs.Full.{IsFull};
ghost use Rattle.kmc_dump.specs.Lanes.{AreSentOn, Sends};
ghost use Rattle.kmc_dump.specs.Ranges.{AreRanges};

use crate::buffers::{Buffer, has_room};
use crate::desk::Desk;
use crate::fill::fill;
use crate::lane::Filler;
use crate::pair_form::PairForm;
use crate::ranges::Ranges;
use kmc_base::PackedKmer;
use kmc_lists::{CountWidth, KmerList};
use std::sync::Wait;
use std::thread;
use std::thread::Threads;

/// The lists whose ranges are put into buffers, in which form, where the threads for it come from, and what they are told.
#[derive(Drop)]
pub struct Filling<'a, R, W: PackedKmer, C: CountWidth, F: PairForm> {
    pub rt: &'a R,
    pub lists: &'a [KmerList<W, C>],
    pub form: &'a F,
    pub ranges: &'a Ranges,
    pub desk: &'a Desk,
}

/// The next empty buffer; none where no more are needed.
fn next_empty<R: Wait, W: PackedKmer + Drop>(
    rt: &R,
    desk: &Desk,
    filler: &mut Filler<W>,
) -> Option<Buffer<W>>
    ensures { filler.new.full ≡ filler.old.full }
{
    let mut waits = 0;
    for _ in rt.forever() {
        if desk.is_closed(waits) {
            return None;
        }
        if let Ok(buffer) = filler.empty.pop() {
            return Some(buffer);
        }
        waits = desk.wait(rt, waits);
    }
    None
}

/// Fills a buffer with a range and sends it on. The answer is whether that was done: there is no buffer where no more are needed.
fn fill_next<R: Wait, W: PackedKmer + Drop, C: CountWidth + Drop, F: PairForm>(
    filling: &Filling<'_, R, W, C, F>,
    range: usize,
    filler: &mut Filler<W>,
) -> bool
    requires ranges { AreRanges filling.now.ranges.now filling.now.lists.now }
    requires takes { F.takes filling.now.form.now filling.now.ranges.now.k }
    requires inside { range + 1 < length filling.now.ranges.now.bounds.items }
    ensures ring { SameProducer filler.old.full filler.new.full }
    ensures sends { Sends (IsFull (F.bytes filling.now.form.now) filling.now.ranges.now filling.now.lists.now) filler.old
        → Sends (IsFull (F.bytes filling.now.form.now) filling.now.ranges.now filling.now.lists.now) filler.new }
{
    let ranges = filling.ranges;
    let Some(mut buffer) = next_empty(filling.rt, filling.desk, filler) else {
        return false;
    };
    let room = filling.form.room(ranges.k, C::digits());
    if !has_room(&buffer, ranges.widest, room) {
        return false;
    }
    fill(filling.lists, filling.form, ranges, range, &mut buffer);
    match filler.full.push(buffer) {
        Ok(()) => true,
        Err(_) => false,
    }
}

/// Fills buffers with the range `first` and each that lies so many behind the one before.
fn fill_on<R: Wait, W: PackedKmer + Drop, C: CountWidth + Drop, F: PairForm>(
    filling: &Filling<'_, R, W, C, F>,
    first: usize,
    step: usize,
    filler: &mut Filler<W>,
)
    requires ranges { AreRanges filling.now.ranges.now filling.now.lists.now }
    requires takes { F.takes filling.now.form.now filling.now.ranges.now.k }
    requires step { 1 ≤ step }
    ensures ring { SameProducer filler.old.full filler.new.full }
    ensures sends { Sends (IsFull (F.bytes filling.now.form.now) filling.now.ranges.now filling.now.lists.now) filler.old
        → Sends (IsFull (F.bytes filling.now.form.now) filling.now.ranges.now filling.now.lists.now) filler.new }
{
    if !filling.desk.begin(first) {
        return;
    }
    let count = filling.ranges.bounds.len() - 1;
    let mut range = first;
    while range < count {
        if !fill_next(filling, range, filler) {
            break;
        }
        range = range.saturating_add(step);
    }
    filling.desk.leave(first);
}

/// Each filler fills buffers in a thread of its own, the first the ranges from the first on, and so forth.
pub fn fill_by_threads<
    R: Threads + Wait + Sync,
    W: PackedKmer + Drop + Send + Sync,
    C: CountWidth + Drop + Send + Sync,
    F: PairForm + Sync,
>(filling: &Filling<'_, R, W, C, F>, fillers: &mut [Filler<W>])
    requires ranges { AreRanges filling.now.ranges.now filling.now.lists.now }
    requires takes { F.takes filling.now.form.now filling.now.ranges.now.k }
    requires some { 1 ≤ length fillers.old }
    ensures { AreSentOn (F.bytes filling.now.form.now) filling.now.ranges.now filling.now.lists.now fillers.old fillers.new }
{
    let count = fillers.len();
    thread::for_each_mut(
        filling.rt,
        fillers,
        count,
        &|first, filler| fill_on(filling, first, count, filler),
    );
}
