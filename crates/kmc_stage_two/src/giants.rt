//! Giants: bodies that are counted by several threads together, so that none waits long for a thread that has a giant alone.
ghost use Rattle.std.specs.Prelude.{◌≤◌, map, IfOk};
ghost use Rattle.std.specs.List.{All};
ghost use Rattle.kmc_stage_two.specs.Bodies.{IsListAt};

use crate::count_rule::CountRule;
use crate::largest_first::LargestFirst;
use crate::placed::Placed;
use crate::shared::list_by_threads;
use kmc_base::PackedKmer;
use kmc_lists::CountWidth;
use kmc_record::BodyError;
use std::alloc::Global;
use std::thread::Threads;

/// A body of fewer bytes is not worth the start of threads.
const LEAST_SHARED: usize = 1 << 20;

/// How many of the bodies are so large that a thread with one of them alone would end later than others with all the rest.
fn count_giants(bodies: &[Vec<u8>], threads: usize) -> usize {
    let mut bytes: usize = 0;
    for body in bodies {
        bytes = bytes.saturating_add(body.len());
    }
    let mut giants = 0;
    for body in bodies {
        if body.len() >= LEAST_SHARED && body.len().saturating_mul(threads) > bytes {
            giants += 1;
        }
    }
    giants
}

/// The lists of the giants among the bodies, one after the other, each counted by so many threads together.
pub(crate) fn take_giants<
    R: Threads + Sync,
    W: PackedKmer + Drop + Send + Sync,
    C: CountWidth + Drop + Send,
>(
    rt: &R,
    alloc: Global,
    order: &LargestFirst,
    bodies: &[Vec<u8>],
    counting: &CountRule,
    threads: usize,
) -> Result<Vec<Placed<W, C>>, BodyError>
    requires most { counting.now.rule.k ≤ W.most }
    requires wide { counting.now.limits.cs ≤ C.greatest }
    ensures { IfOk result (λ lists. All (λ p. IsListAt counting.now.rule.strands counting.now.rule.k counting.now.limits counting.now.asked
        (map (λ b. b.items) bodies.now) p.place p.list) lists.items) }
{
    let giants = count_giants(bodies, threads);
    let mut lists = Vec::with_capacity(alloc, giants)?;
    for _taken in 0..giants {
        let Some(place) = order.take(bodies.len()) else {
            break;
        };
        let list = list_by_threads(rt, alloc, &bodies[place], place, counting, threads)?;
        lists.push_reserved(Placed { place, list });
    }
    Ok(lists)
}
