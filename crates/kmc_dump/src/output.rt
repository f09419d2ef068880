//! The text of all ranges on a device, range after range, each as a thread filled it, or as the calling thread fills it.
ghost use Rattle.std.specs.Prelude.{◌≡◌, ◌+◌, ◌≤◌, ◌<◌, ◌^◌, ℕ, List, [], length, take, All, IfSome, slice_index_or};
ghost use Rattle.std.specs.List.{flat_map};
ghost use Rattle.rtrb.specs.Ring.{SameConsumer};
ghost use Rattle.kmc_lists.specs.Listed.{Listed, spelled};
ghost use Rattle.kmc_lists.specs.Ordered.{whole};
ghost use Rattle.kmc_dump.specs.declared.ranges.Ranges.{Ranges};
ghost use Rattle.kmc_dump.specs.Full.{IsFull};
ghost use Rattle.kmc_dump.specs.Lanes.{AreLanes, ArePaired, AreSentOn, Gets, IsWrittenFrom, Sends};
ghost use Rattle.kmc_dump.specs.Ranges.{AreRanges, range_text};
ghost use Rattle.kmc_dump.specs.Rooms.{HasRoomForRange};
ghost use Rattle.kmc_dump.specs.Written.{IsWritten};

use crate::buffers::Buffer;
use crate::desk::Desk;
use crate::fill::fill;
use crate::filling::{Filling, fill_by_threads};
use crate::lane::{Filler, Tray};
use crate::pair_form::PairForm;
use kmc_base::PackedKmer;
use kmc_device::{Counted, WriteFault, write_text};
use kmc_lists::CountWidth;
use std::io::Write;
use std::sync::Wait;
use std::thread::{Threads, join_mut};

/// The buffer with a range, which its filler sends; none where the filler has left.
fn take_full<R: Wait, W: PackedKmer + Drop>(
    rt: &R,
    desk: &Desk,
    tray: &mut Tray<W>,
    lane: usize,
    range: usize,
) -> Option<Buffer<W>>
    ensures ring { SameConsumer tray.old.full tray.new.full }
    ensures range { IfSome result (λ b. b.range ≡ range) }
    ensures gets { (line : List ℕ × ℕ → List ℕ) (r : Ranges) (lists : List Listed)
        → Gets (IsFull line r lists) tray.new → Gets (IsFull line r lists) tray.old }
    ensures got { (line : List ℕ × ℕ → List ℕ) (r : Ranges) (lists : List Listed)
        → Gets (IsFull line r lists) tray.new → IfSome result (IsFull line r lists) }
{
    let mut waits = 0;
    for _ in rt.forever() {
        let has_left = desk.has_left(lane, waits);
        match tray.full.pop() {
            Ok(buffer) => {
                if buffer.range == range {
                    return Some(buffer);
                }
            }
            Err(_) => {
                if has_left {
                    return None;
                }
            }
        }
        waits = desk.wait(rt, waits);
    }
    None
}

/// Fills the calling thread's own buffer with a range, and writes its text.
fn write_own<R, D: Write, W: PackedKmer + Drop, C: CountWidth + Drop, F: PairForm>(
    writer: &mut Counted<D>,
    filling: &Filling<'_, R, W, C, F>,
    own: &mut Buffer<W>,
    range: usize,
) -> Result<(), WriteFault>
    requires ranges { AreRanges filling.now.ranges.now filling.now.lists.now }
    requires takes { F.takes filling.now.form.now filling.now.ranges.now.k }
    requires inside { range + 1 < length filling.now.ranges.now.bounds.items }
    requires room { HasRoomForRange filling.now.ranges.now.widest
        (F.most filling.now.form.now filling.now.ranges.now.k C.most_digits) own.old }
    ensures room { HasRoomForRange filling.now.ranges.now.widest
        (F.most filling.now.form.now filling.now.ranges.now.k C.most_digits) own.new }
    ensures written { IsWritten D.contents
        (range_text (F.bytes filling.now.form.now) filling.now.ranges.now.k (2 ^ filling.now.ranges.now.shift)
        (slice_index_or filling.now.ranges.now.bounds.items range 0)
        (slice_index_or filling.now.ranges.now.bounds.items (range + 1) 0) filling.now.lists.now)
        writer.old writer.new result }
{
    fill(filling.lists, filling.form, filling.ranges, range, own);
    write_text(writer, &own.text[..own.filled])
}

/// Writes the text of a range as it comes to a tray, and gives the buffer back; where none comes the calling thread fills its own.
fn write_range<R: Wait, D: Write, W: PackedKmer + Drop, C: CountWidth + Drop, F: PairForm>(
    writer: &mut Counted<D>,
    filling: &Filling<'_, R, W, C, F>,
    tray: &mut Tray<W>,
    own: &mut Buffer<W>,
    lane: usize,
    range: usize,
) -> Result<(), WriteFault>
    requires ranges { AreRanges filling.now.ranges.now filling.now.lists.now }
    requires takes { F.takes filling.now.form.now filling.now.ranges.now.k }
    requires inside { range + 1 < length filling.now.ranges.now.bounds.items }
    requires room { HasRoomForRange filling.now.ranges.now.widest
        (F.most filling.now.form.now filling.now.ranges.now.k C.most_digits) own.old }
    ensures room { HasRoomForRange filling.now.ranges.now.widest
        (F.most filling.now.form.now filling.now.ranges.now.k C.most_digits) own.new }
    ensures ring { SameConsumer tray.old.full tray.new.full }
    ensures gets { (line : List ℕ × ℕ → List ℕ) (r : Ranges) (lists : List Listed)
        → Gets (IsFull line r lists) tray.new → Gets (IsFull line r lists) tray.old }
    ensures written { Gets (IsFull (F.bytes filling.now.form.now) filling.now.ranges.now filling.now.lists.now) tray.new
        → IsWritten D.contents (range_text (F.bytes filling.now.form.now) filling.now.ranges.now.k (2 ^ filling.now.ranges.now.shift)
        (slice_index_or filling.now.ranges.now.bounds.items range 0)
        (slice_index_or filling.now.ranges.now.bounds.items (range + 1) 0) filling.now.lists.now)
        writer.old writer.new result }
{
    let Some(buffer) = take_full(filling.rt, filling.desk, tray, lane, range) else {
        return write_own(writer, filling, own, range);
    };
    let end = buffer.filled.min(buffer.text.len());
    let written = write_text(writer, &buffer.text[..end]);
    let _ = tray.empty.push(buffer);
    written
}

/// Writes the text of a range, from the tray whose turn it is, or where there is none from the calling thread's own buffer.
fn write_next<R: Wait, D: Write, W: PackedKmer + Drop, C: CountWidth + Drop, F: PairForm>(
    writer: &mut Counted<D>,
    filling: &Filling<'_, R, W, C, F>,
    trays: &mut [Tray<W>],
    own: &mut Buffer<W>,
    range: usize,
) -> Result<(), WriteFault>
    requires ranges { AreRanges filling.now.ranges.now filling.now.lists.now }
    requires takes { F.takes filling.now.form.now filling.now.ranges.now.k }
    requires inside { range + 1 < length filling.now.ranges.now.bounds.items }
    requires room { HasRoomForRange filling.now.ranges.now.widest
        (F.most filling.now.form.now filling.now.ranges.now.k C.most_digits) own.old }
    ensures room { HasRoomForRange filling.now.ranges.now.widest
        (F.most filling.now.form.now filling.now.ranges.now.k C.most_digits) own.new }
    ensures gets { (line : List ℕ × ℕ → List ℕ) (r : Ranges) (lists : List Listed)
        → All (Gets (IsFull line r lists)) trays.new → All (Gets (IsFull line r lists)) trays.old }
    ensures written { IsWrittenFrom D.contents (F.bytes filling.now.form.now) filling.now.ranges.now filling.now.lists.now
        (range_text (F.bytes filling.now.form.now) filling.now.ranges.now.k (2 ^ filling.now.ranges.now.shift)
        (slice_index_or filling.now.ranges.now.bounds.items range 0)
        (slice_index_or filling.now.ranges.now.bounds.items (range + 1) 0) filling.now.lists.now)
        trays.old trays.new writer.old writer.new result }
{
    if trays.is_empty() {
        return write_own(writer, filling, own, range);
    }
    let lane = range % trays.len();
    write_range(writer, filling, &mut trays[lane], own, lane, range)
}

/// Flushes the device.
fn finish<D: Write>(writer: &mut Counted<D>) -> Result<(), WriteFault>
    ensures { IsWritten D.contents [] writer.old writer.new result }
{
    match writer.flush() {
        Ok(()) => Ok(()),
        Err(_) => Err(WriteFault),
    }
}

/// Writes the text of all ranges, and flushes.
fn write_all<R: Wait, D: Write, W: PackedKmer + Drop, C: CountWidth + Drop, F: PairForm>(
    writer: &mut Counted<D>,
    filling: &Filling<'_, R, W, C, F>,
    trays: &mut [Tray<W>],
    own: &mut Buffer<W>,
) -> Result<(), WriteFault>
    requires ranges { AreRanges filling.now.ranges.now filling.now.lists.now }
    requires takes { F.takes filling.now.form.now filling.now.ranges.now.k }
    requires room { HasRoomForRange filling.now.ranges.now.widest
        (F.most filling.now.form.now filling.now.ranges.now.k C.most_digits) own.old }
    ensures { IsWrittenFrom D.contents (F.bytes filling.now.form.now) filling.now.ranges.now filling.now.lists.now
        (flat_map (F.bytes filling.now.form.now) (spelled filling.now.ranges.now.k (whole filling.now.lists.now))) trays.old trays.new
        writer.old writer.new result }
{
    let count = filling.ranges.bounds.len() - 1;
    for range in 0..count {
        write_next(writer, filling, trays, own, range)?;
    }
    finish(writer)
}

/// Where every buffer that was sent on holds the text of its range, so does every one that came to the other end of its lane.
fn compare_ends<W: PackedKmer + Drop>(fillers: &mut [Filler<W>], trays: &mut [Tray<W>])
    requires paired { ArePaired fillers.old trays.old }
    ensures { (line : List ℕ × ℕ → List ℕ) (r : Ranges) (lists : List Listed)
        → All (Sends (IsFull line r lists)) fillers.old → All (Gets (IsFull line r lists)) trays.old }
{
    for lane in 0..fillers.len() {
        let _ = trays[lane].full.slots_beside(&mut fillers[lane].full);
    }
}

/// Writes the text of all ranges while the threads of lanes fill buffers.
fn write_beside<
    R: Threads + Wait + Sync,
    D: Write,
    W: PackedKmer + Drop + Send + Sync,
    C: CountWidth + Drop + Send + Sync,
    F: PairForm + Sync,
>(
    writer: &mut Counted<D>,
    filling: &Filling<'_, R, W, C, F>,
    fillers: &mut [Filler<W>],
    trays: &mut [Tray<W>],
    own: &mut Buffer<W>,
) -> Result<(), WriteFault>
    requires ranges { AreRanges filling.now.ranges.now filling.now.lists.now }
    requires takes { F.takes filling.now.form.now filling.now.ranges.now.k }
    requires some { 1 ≤ length fillers.old }
    requires room { HasRoomForRange filling.now.ranges.now.widest
        (F.most filling.now.form.now filling.now.ranges.now.k C.most_digits) own.old }
    ensures sent { AreSentOn (F.bytes filling.now.form.now) filling.now.ranges.now filling.now.lists.now fillers.old fillers.new }
    ensures written { IsWrittenFrom D.contents (F.bytes filling.now.form.now) filling.now.ranges.now filling.now.lists.now
        (flat_map (F.bytes filling.now.form.now) (spelled filling.now.ranges.now.k (whole filling.now.lists.now))) trays.old trays.new
        writer.old writer.new result }
{
    let (_, written) = join_mut(
        filling.rt,
        &mut ||
            requires ranges { AreRanges filling.now.ranges.now filling.now.lists.now }
            requires takes { F.takes filling.now.form.now filling.now.ranges.now.k }
            requires some { 1 ≤ length fillers.now }
        { fill_by_threads(filling, fillers) },
        &mut || -> Result<(), WriteFault>
            requires ranges { AreRanges filling.now.ranges.now filling.now.lists.now }
            requires takes { F.takes filling.now.form.now filling.now.ranges.now.k }
            requires room { HasRoomForRange filling.now.ranges.now.widest
                (F.most filling.now.form.now filling.now.ranges.now.k C.most_digits) own.now }
        {
            filling.desk.open();
            let written = write_all(writer, filling, trays, own);
            filling.desk.close();
            written
        },
    );
    written
}

/// Writes the text of all pairs of the lists in the order of their words, and flushes. The calling thread's own buffer has room for the
/// widest range; those of the lanes are filled by a thread for each lane, a range each, while the calling thread writes those before.
/// Nothing more is allocated. A fault is that of the first write or flush that fails.
pub fn write_ranges<
    R: Threads + Wait + Sync,
    D: Write,
    W: PackedKmer + Drop + Send + Sync,
    C: CountWidth + Drop + Send + Sync,
    F: PairForm + Sync,
>(
    writer: &mut Counted<D>,
    filling: &Filling<'_, R, W, C, F>,
    fillers: &mut [Filler<W>],
    trays: &mut [Tray<W>],
    own: &mut Buffer<W>,
) -> Result<(), WriteFault>
    requires ranges { AreRanges filling.now.ranges.now filling.now.lists.now }
    requires takes { F.takes filling.now.form.now filling.now.ranges.now.k }
    requires lanes { AreLanes fillers.old trays.old }
    requires room { HasRoomForRange filling.now.ranges.now.widest
        (F.most filling.now.form.now filling.now.ranges.now.k C.most_digits) own.old }
    ensures { IsWritten D.contents
        (flat_map (F.bytes filling.now.form.now) (spelled filling.now.ranges.now.k (whole filling.now.lists.now)))
        writer.old writer.new result }
{
    if fillers.is_empty() {
        return write_all(writer, filling, trays, own);
    }
    let written = write_beside(writer, filling, fillers, trays, own);
    compare_ends(fillers, trays);
    written
}
