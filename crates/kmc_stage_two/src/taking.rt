//! Threads that each take the largest body that none has taken, so a thread that is slow, or has great bodies, takes fewer.
ghost use Rattle.std.specs.Prelude.{◌≤◌, map, IfOk};
ghost use Rattle.std.specs.List.{All};
ghost use Rattle.kmc_stage_two.specs.Bodies.{IsListAt};

use crate::body::list_body;
use crate::count_rule::CountRule;
use crate::largest_first::LargestFirst;
use crate::placed::{Placed, all_made};
use kmc_base::PackedKmer;
use kmc_count::CountingRoom;
use kmc_lists::CountWidth;
use kmc_record::BodyError;
use std::alloc::Global;
use std::thread;
use std::thread::Threads;

/// The lists of the bodies that this thread takes, one after the other, in the same room.
fn take_bodies<W: PackedKmer + Drop, C: CountWidth + Drop>(
    alloc: Global,
    order: &LargestFirst,
    bodies: &[Vec<u8>],
    counting: &CountRule,
) -> Result<Vec<Placed<W, C>>, BodyError>
    requires most { counting.now.rule.k ≤ W.most }
    requires wide { counting.now.limits.cs ≤ C.greatest }
    ensures { IfOk result (λ lists. All (λ p. IsListAt counting.now.rule.strands counting.now.rule.k counting.now.limits counting.now.asked
        (map (λ b. b.items) bodies.now) p.place p.list) lists.items) }
{
    let mut room: CountingRoom<W> = CountingRoom::new(alloc);
    let mut lists = Vec::with_capacity(alloc, bodies.len())?;
    for _taken in 0..bodies.len() {
        let Some(place) = order.take(bodies.len()) else {
            break;
        };
        let list = list_body(&mut room, alloc, &bodies[place], place, counting)?;
        lists.push_reserved(Placed { place, list });
    }
    Ok(lists)
}

/// The lists of the bodies that at most so many threads take, each with its place, in any order; 0 threads take none. Where no
/// thread can be made, the calling thread takes them all. An error is that of one of the threads, and no promise is made of which: who
/// wants the fault of the first body counts anew, by [`list_row`](crate::row::list_row).
pub fn take_by_threads<R: Threads + Sync, W: PackedKmer + Drop + Send, C: CountWidth + Drop + Send>(
    rt: &R,
    alloc: Global,
    order: &LargestFirst,
    bodies: &[Vec<u8>],
    counting: &CountRule,
    threads: usize,
) -> Result<Vec<Placed<W, C>>, BodyError>
    requires most { counting.now.rule.k ≤ W.most }
    requires wide { counting.now.limits.cs ≤ C.greatest }
    ensures { IfOk result (λ lists. All (λ p. IsListAt counting.now.rule.strands counting.now.rule.k counting.now.limits counting.now.asked
        (map (λ b. b.items) bodies.now) p.place p.list) lists.items) }
{
    let taker = move |_: usize| -> Result<Vec<Placed<W, C>>, BodyError>
        requires { (counting.now.rule.k ≤ W.most) × (counting.now.limits.cs ≤ C.greatest) }
        ensures { IfOk result (λ lists. All (λ p. IsListAt counting.entry.now.rule.strands counting.entry.now.rule.k
            counting.entry.now.limits counting.entry.now.asked (map (λ b. b.items) bodies.entry.now) p.place p.list) lists.items) }
    { take_bodies(alloc, order, bodies, counting) };
    let rows = thread::map_indices(rt, alloc, threads, &taker)?;
    all_made(alloc, rows)
}
