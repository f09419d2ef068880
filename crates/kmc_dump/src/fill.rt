//! The text of one range, in a buffer.
ghost use Rattle.std.specs.Prelude.{◌≡◌, ◌+◌, ◌-◌, ◌*◌, ◌^◌, ◌<◌, ◌≤◌, length, take, IsTrue, vec_capacity};
ghost use Rattle.kmc_dump.specs.Rooms.{HasRoomForRange};
ghost use Rattle.kmc_dump.specs.Full.{IsFull};
ghost use Rattle.kmc_dump.specs.Ranges.{range_text, count_within, AreRanges};

use crate::buffers::Buffer;
use crate::keys::{fit_keys, put_keys};
use crate::pair_form::PairForm;
use crate::range::put_range;
use crate::ranges::Ranges;
use crate::slot_range::SlotRange;
use crate::word_size::WordSize;
use kmc_base::PackedKmer;
use kmc_lists::{CountWidth, KmerList};

/// Whether the pairs of a range fit keys, and there is room for those of the widest.
fn has_room_for_keys<C: CountWidth>(keys: &Vec<u64>, widest: usize, range: SlotRange) -> bool
    ensures keys { IsTrue result → widest ≤ vec_capacity keys.now }
    ensures small { IsTrue result → C.bits < 64 }
    ensures least { IsTrue result → range.from * 2 ^ range.shift < 2 ^ 128 }
    ensures fits { IsTrue result → (range.to - range.from) * 2 ^ range.shift * 2 ^ C.bits ≤ 2 ^ 64 }
{
    keys.capacity() >= widest && fit_keys::<C>(range)
}

/// Puts the text of a range that has at most as many pairs as the widest into a buffer, from the first byte on, and says where it
/// ends. The room for the text is zeroed where it was not yet, so that its pages come to be in the thread that fills them.
fn put_text<W: PackedKmer + Drop, C: CountWidth + Drop, F: PairForm>(
    lists: &[KmerList<W, C>],
    form: &F,
    ranges: &Ranges,
    from: u128,
    to: u128,
    buffer: &mut Buffer<W>,
) -> usize
    requires ranges { AreRanges ranges.now lists.now }
    requires takes { F.takes form.now ranges.now.k }
    requires range { from ≤ to }
    requires few { count_within (2 ^ ranges.now.shift) from to lists.now ≤ ranges.now.widest }
    requires room { HasRoomForRange ranges.now.widest (F.most form.now ranges.now.k C.most_digits) buffer.old }
    ensures within { result ≤ length buffer.new.text.items }
    ensures text { take result buffer.new.text.items
        ≡ range_text (F.bytes form.now) ranges.now.k (2 ^ ranges.now.shift) from to lists.now }
    ensures room { HasRoomForRange ranges.now.widest (F.most form.now ranges.now.k C.most_digits) buffer.new }
{
    let size = WordSize { k: ranges.k };
    let range = SlotRange {
        shift: ranges.shift,
        from,
        to,
    };
    let text = &mut buffer.text;
    let _ = text.resize(text.capacity(), 0);
    if has_room_for_keys::<C>(&buffer.keys, ranges.widest, range) {
        put_keys(lists, form, size, range, &mut buffer.keys, text)
    } else {
        put_range(lists, form, size, range, &mut buffer.pairs, text)
    }
}

/// Puts the text of one of the ranges into a buffer, which says so.
pub fn fill<W: PackedKmer + Drop, C: CountWidth + Drop, F: PairForm>(
    lists: &[KmerList<W, C>],
    form: &F,
    ranges: &Ranges,
    range: usize,
    buffer: &mut Buffer<W>,
)
    requires ranges { AreRanges ranges.now lists.now }
    requires takes { F.takes form.now ranges.now.k }
    requires inside { range + 1 < length ranges.now.bounds.items }
    requires room { HasRoomForRange ranges.now.widest (F.most form.now ranges.now.k C.most_digits) buffer.old }
    ensures full { IsFull (F.bytes form.now) ranges.now lists.now buffer.new }
    ensures range { buffer.new.range ≡ range }
    ensures room { HasRoomForRange ranges.now.widest (F.most form.now ranges.now.k C.most_digits) buffer.new }
{
    let from = ranges.bounds[range];
    let to = ranges.bounds[range + 1];
    buffer.filled = put_text(lists, form, ranges, from, to, buffer);
    buffer.range = range;
}
