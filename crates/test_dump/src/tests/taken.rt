//! Bodies as threads take them: each once, the largest first; and a large body that several threads count together.

use crate::tests::bodies::{are_same, has_pairs};
use crate::tests::large_bodies::{LIMITS, SHARED, between_others, thrown_body};
use kmc_base::{KeyRule, Kmer, Strands};
use kmc_count::count_bin;
use kmc_lists::KmerList;
use kmc_stage_two::{CountRule, LargestFirst, Placed, in_order, list_by_threads, take_by_threads};
use std::alloc::{AllocError, Global};
use std::test::Fail;
use std::thread;

/// Bodies of so many bytes, which are not looked at.
fn bodies_of_sizes(alloc: Global, sizes: &[usize]) -> Result<Vec<Vec<u8>>, AllocError> {
    let mut bodies = Vec::new(alloc);
    for size in sizes {
        let mut body = Vec::new(alloc);
        body.resize(*size, 0)?;
        bodies.push(body)?;
    }
    Ok(bodies)
}

#[test]
fn the_largest_is_taken_first_and_each_place_once(rt: HostRuntime) -> Result<(), Fail> {
    let alloc = rt.alloc();
    let bodies = bodies_of_sizes(alloc, &[3, 700, 0, 70, 701, 1])?;
    let order = LargestFirst::new(alloc, &bodies)?;
    for want in [4, 1, 3, 0, 5, 2] {
        assert_eq!(rt; order.take(bodies.len()), Some(want));
    }
    assert_eq!(rt; order.take(bodies.len()), None);
    assert_eq!(rt; order.take(bodies.len()), None);
    Ok(())
}

/// The places that a thread gets, until there is none.
fn take_places(
    alloc: Global,
    order: &LargestFirst,
    count: usize,
) -> Result<Vec<usize>, AllocError> {
    let mut places = Vec::new(alloc);
    for _ in 0..count {
        let Some(place) = order.take(count) else {
            break;
        };
        places.push(place)?;
    }
    Ok(places)
}

#[test]
fn threads_get_each_place_once_sizes_falling(rt: HostRuntime) -> Result<(), Fail> {
    let alloc = rt.alloc();
    let mut sizes = Vec::new(alloc);
    for place in 0..90usize {
        sizes.push(place * 37 % 91)?;
    }
    let bodies = bodies_of_sizes(alloc, &sizes)?;
    let order = LargestFirst::new(alloc, &bodies)?;
    let taker = |_: usize| take_places(alloc, &order, 90);
    let rows = thread::map_indices(&rt, alloc, 4, &taker)?;
    let mut seen = Vec::new(alloc);
    for row in rows {
        let mut size = usize::MAX;
        for place in row?.iter() {
            let next = bodies.get(*place).ok_or("a place")?.len();
            assert!(rt; next < size);
            size = next;
            seen.push(*place)?;
        }
    }
    seen.sort_unstable();
    assert_eq!(rt; seen.len(), 90);
    for (want, place) in seen.iter().enumerate() {
        assert_eq!(rt; *place, want);
    }
    Ok(())
}

/// How the large body is counted: no bin is asked for.
const RULE: CountRule = CountRule {
    rule: KeyRule {
        k: 21,
        strands: Strands::Joined,
    },
    limits: LIMITS,
    asked: None,
};

#[test]
fn threads_together_count_a_large_body(rt: HostRuntime) -> Result<(), Fail> {
    let alloc = rt.alloc();
    let body = thrown_body(alloc, 21, SHARED + 1)?;
    let plain = count_bin(alloc, &body, 21, Strands::Joined, &LIMITS);
    let plain = plain.ok().ok_or("records")?;
    for threads in [2, 4, 7] {
        let list = list_by_threads(&rt, alloc, &body, 0, &RULE, threads);
        let list: KmerList<u64, u64> = list.ok().ok_or("records")?;
        assert!(rt; has_pairs(&list, &plain), "{threads} threads");
    }
    Ok(())
}

#[test]
fn threads_take_a_large_body_and_its_neighbours(rt: HostRuntime) -> Result<(), Fail> {
    let alloc = rt.alloc();
    let body = thrown_body(alloc, 21, SHARED + 1)?;
    let bodies = between_others(alloc, &body, 21)?;
    let mut plain: Vec<Vec<(Kmer, u64)>> = Vec::new(alloc);
    for one in &bodies {
        let pairs = count_bin(alloc, one, 21, Strands::Joined, &LIMITS);
        plain.push(pairs.ok().ok_or("records")?)?;
    }
    for threads in [1, 2, 4, 7] {
        let order = LargestFirst::new(alloc, &bodies)?;
        let placed = take_by_threads(&rt, alloc, &order, &bodies, &RULE, threads);
        let placed: Vec<Placed<u64, u64>> = placed.ok().ok_or("records")?;
        let lists = in_order(alloc, placed, bodies.len()).ok_or("each place once")?;
        assert!(rt; are_same(&lists, &plain), "{threads} threads");
    }
    Ok(())
}
