//! How the reads of a round are dealt to the splitters: long ones as pieces.
ghost use Rattle.std.specs.Prelude.{◌≡◌, ℕ, ◌≤◌, List, ◌++◌, OnOk};
ghost use Rattle.kmc_stage_one.specs.Rounds.{HoldsPieces};

use crate::pieces::pieces_of;
use crate::settings::RoundSettings;
use crate::storing::store_reads;
use kmc_partqueue::Gate;
use kmc_reads::Reads;
use kmc_store::Bins;
use std::alloc::{AllocError, Global};
use std::mem::replace;
use std::sync::Wait;
use std::thread::Threads;

/// How reads are taken in rounds, and dealt to the splitters. `PIECE_SYMBOLS` and `NoGate` are what a run takes.
#[derive(Drop)]
pub struct Dealing<'a, G> {
    /// The source of the memory for pieces and records.
    pub alloc: Global,
    /// What the text is, and how its reads are cut and passed.
    pub settings: RoundSettings,
    /// A read is dealt as its pieces of at most so many symbols, and at least of the symbols of a word.
    pub limit: usize,
    /// A round is full with so many symbols, however few its reads are.
    pub symbols: usize,
    /// It is told of the points that the parts of the reads pass.
    pub gate: &'a G,
    pub ghost some: { settings.shape.k ≤ limit },
}

/// Adds the reads of a round to the bins, each as its pieces: a few chunks of pieces for each splitter, so that all of them work
/// on a round of one long read too. Where memory is refused, what the bins held may be lost.
pub(crate) fn store_round<T: Threads + Wait + Sync, G: Gate + Sync>(
    rt: &T,
    bins: &mut Bins,
    round: &Reads,
    dealing: &Dealing<'_, G>,
) -> Result<(), AllocError>
    requires { bins.old.shape ≡ dealing.now.settings.shape }
    ensures shape { bins.new.shape ≡ dealing.now.settings.shape }
    ensures holds { (held : List (List ℕ))
        → HoldsPieces dealing.now.settings.shape dealing.now.limit held bins.old.bodies
        → OnOk result
        (HoldsPieces dealing.now.settings.shape dealing.now.limit
        (held ++ round.now) bins.new.bodies) }
{
    let alloc = dealing.alloc;
    let settings = &dealing.settings;
    let pieces = pieces_of(alloc, round, settings.shape.k(), dealing.limit)?;
    let empty = Bins::new(alloc, settings.shape)?;
    let before = replace(bins, empty);
    let more = store_reads(rt, alloc, before, &pieces, settings, dealing.gate)?;
    *bins = more;
    Ok(())
}
