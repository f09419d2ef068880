//! The candidates of all m-mers of a segment, in rooms that are used again.
ghost use Rattle.std.specs.Prelude.{◌≡◌, ◌+◌, ◌<◌, ◌≤◌, length, map, OnOk};
ghost use Rattle.std.specs.List.{All};
ghost use Rattle.kmc_split.specs.Candidates.{AreCandidates};

use crate::marking::candidates;
use crate::mmer::{MOST_SHORT, Mmer};
use crate::quads::{QUAD, fill_quads, judge_quads};
use crate::rooms::{ROW, grow, whole_rows};
use crate::signatures::MAX_M;
use std::alloc::AllocError;

/// The candidates of all m-mers of the codes, at the front of the room.
fn offer_in<V: Mmer>(codes: &[u8], m: usize, room: &mut [V])
    requires some { 1 ≤ m }
    requires most { m ≤ MAX_M }
    requires held { m ≤ V.most }
    requires within { m ≤ length codes.now }
    requires long { length codes.now + 1 ≤ length room.old + m }
    requires codes { All (λ c. c < 4) codes.now }
    ensures { AreCandidates m codes.now (map V.number room.new) }
{
    let n = codes.len() - (m - 1);
    candidates(codes, m, &mut room[..n]);
}

/// The candidates of all m-mers of the codes, at the front of `values`, which grows with the codes and has a row of room behind them.
pub(crate) fn offer<V: Mmer + Drop>(
    codes: &[u8],
    m: usize,
    values: &mut Vec<V>,
) -> Result<(), AllocError>
    requires some { 1 ≤ m }
    requires most { m ≤ MAX_M }
    requires held { m ≤ V.most }
    requires within { m ≤ length codes.now }
    requires codes { All (λ c. c < 4) codes.now }
    ensures room { OnOk result (length codes.now + ROW < length values.new.items + m) }
    ensures are { OnOk result (AreCandidates m codes.now (map V.number values.new.items)) }
{
    grow(values, codes.len() + ROW, V::of_packed(0))?;
    offer_in(codes, m, values);
    Ok(())
}

/// The same by bytes of four codes, in rooms that have a row of room behind what is looked at.
pub(crate) fn offer_by_quads(
    codes: &[u8],
    m: usize,
    quads: &mut [u8],
    turned: &mut [u8],
    room: &mut [u16],
)
    requires some { QUAD ≤ m }
    requires most { m ≤ MOST_SHORT }
    requires within { m ≤ length codes.now }
    requires quads { length codes.now + ROW ≤ length quads.old }
    requires turned { length codes.now + ROW ≤ length turned.old }
    requires long { length codes.now + ROW ≤ length room.old }
    requires codes { All (λ c. c < 4) codes.now }
    ensures { AreCandidates m codes.now room.new }
{
    fill_quads(codes, quads, turned);
    let n = codes.len() - (m - 1);
    judge_quads(quads, turned, m, whole_rows(n), room);
}

/// The candidates of all m-mers of at most 8 codes, at the front of `values`, by bytes of four codes where m-mers have so many.
pub(crate) fn offer_short(
    codes: &[u8],
    m: usize,
    quads: &mut Vec<u8>,
    turned: &mut Vec<u8>,
    values: &mut Vec<u16>,
) -> Result<(), AllocError>
    requires some { 1 ≤ m }
    requires most { m ≤ MOST_SHORT }
    requires within { m ≤ length codes.now }
    requires codes { All (λ c. c < 4) codes.now }
    ensures room { OnOk result (length codes.now + ROW < length values.new.items + m) }
    ensures are { OnOk result (AreCandidates m codes.now values.new.items) }
{
    if m < QUAD {
        return offer(codes, m, values);
    }
    let places = codes.len() + ROW;
    grow(quads, places, 0)?;
    grow(turned, places, 0)?;
    grow(values, places, 0)?;
    offer_by_quads(codes, m, quads, turned, values);
    Ok(())
}
