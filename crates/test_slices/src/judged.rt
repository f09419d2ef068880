//! Bodies from outside, counted and judged by several threads.
use kmc_base::Strands;
use kmc_count::Limits;
use kmc_lists::{BinLists, SizedLists};
use kmc_record::{PartError, Shape};
use kmc_slices::{BinFault, JudgeError, judged_lists};
use std::alloc::{AllocError, Global};
use std::process::Abort;
use std::sync::Wait;
use std::test::Fail;
use std::thread::Threads;

/// The body of one of 7 bins of words of 4 symbols: records of the bin, or one of another bin.
fn body_of(bin: usize, faulty: bool) -> &'static [u8] {
    match (bin, faulty) {
        (2, false) => &[0, 0xb1],
        (3, false) => &[0, 0x6c, 0, 0xc6],
        (6, false) => &[0, 0x1b],
        (_, false) => &[],
        (6, true) => &[0, 0xb1],
        (_, true) => &[0, 0x1b],
    }
}

/// The bodies of 7 bins, of which those are at fault whose bit is one.
fn bodies_of(alloc: Global, faults: u32) -> Result<Vec<Vec<u8>>, AllocError> {
    let mut bodies = Vec::new(alloc);
    for bin in 0..7u32 {
        let faulty = (faults >> bin) % 2 == 1;
        bodies.push(body_of(bin as usize, faulty).to_vec(alloc)?)?;
    }
    Ok(bodies)
}

/// Asserts that each bin has its words.
fn assert_words(rt: &impl Abort, lists: &BinLists) -> Result<(), Fail> {
    let BinLists::Narrow(SizedLists::U8(lists)) = lists else {
        return Err(Fail::from("lists of narrow words"));
    };
    for (bin, want) in [0, 0, 1, 1, 0, 0, 1].iter().enumerate() {
        let list = lists.get(bin).ok_or("a list of each bin")?;
        assert_eq!(rt; list.len(), *want);
    }
    Ok(())
}

/// What is answered of these bodies of 7 bins, by so many threads.
fn judged<R: Abort + Threads + Wait + Sync>(
    rt: &R,
    alloc: Global,
    bodies: Vec<Vec<u8>>,
    threads: usize,
) -> Result<BinLists, JudgeError> {
    let shape = Shape::new(4, 5, 7).expect(rt, "a shape");
    let limits = Limits::new(1, 1000, 255).expect(rt, "limits");
    assert!(rt; bodies.len() == shape.n() && threads > 0);
    judged_lists(rt, alloc, shape, bodies, Strands::Joined, &limits, threads)
}

/// Asserts that so many threads tell the first of these faults, or that the bins have all words where there is none.
fn assert_judged<R: Abort + Threads + Wait + Sync>(
    rt: &R,
    alloc: Global,
    faults: u32,
    threads: usize,
) -> Result<(), Fail> {
    match judged(rt, alloc, bodies_of(alloc, faults)?, threads) {
        Ok(lists) => {
            assert_eq!(rt; faults, 0);
            assert_words(rt, &lists)?;
        }
        Err(error) => {
            let bin = faults.trailing_zeros() as usize;
            let why = PartError::WrongBin(0);
            assert_eq!(rt; error, JudgeError::Foreign(BinFault { bin, why }));
        }
    }
    Ok(())
}

#[test]
fn the_first_fault_is_told_whichever_thread_meets_it(rt: HostRuntime) -> Result<(), Fail> {
    for faults in 0..128 {
        for threads in 1..6 {
            assert_judged(&rt, rt.alloc(), faults, threads)?;
        }
    }
    Ok(())
}

/// The test passes where no growth is refused, and whichever one is (`rt try --test --fail-alloc N -- growth`).
#[test]
fn a_refused_growth_hides_no_fault(rt: HostRuntime) {
    let alloc = rt.alloc();
    let Ok(bodies) = bodies_of(alloc, 1 << 3) else {
        return;
    };
    let answer = judged(&rt, alloc, bodies, 3);
    let why = PartError::WrongBin(0);
    let fault = BinFault { bin: 3, why };
    assert!(rt; answer.err() == Some(JudgeError::Foreign(fault)));
}
