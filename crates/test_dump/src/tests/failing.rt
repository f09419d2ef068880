//! Devices that fail at each byte of a dump, and memory that is refused.
ghost use Rattle.std.specs.Prelude.{Some, ◌≤◌, IfSome};
ghost use Rattle.kmc_lists.specs.Lists.{lists_of};
ghost use Rattle.kmc_lists.specs.Ordered.{CanBeMerged};

use crate::tests::listed::{listed, plain, settings, thrown_alone};
use kmc_device::Counted;
use kmc_dump::{DumpError, write_bins};
use kmc_lists::BinLists;
use kmc_options::Params;
use std::alloc::Global;
use std::io;
use std::io::{ErrorKind, Write};
use std::process::Abort;
use std::sync::Wait;
use std::test::Fail;
use std::thread::Threads;
use test_support::Dice;

/// A writer that takes so many bytes, and then fails or takes none.
#[derive(Drop)]
struct Full {
    out: Vec<u8>,
    left: usize,
    takes_none: bool,
}

impl Write for Full {
    ghost contents = { λ w. Some w.out.items };

    fn write(&mut self, buf: &[u8]) -> io::Result<usize> {
        let n = buf.len().min(self.left);
        if n == 0 && !buf.is_empty() {
            return if self.takes_none {
                Ok(0)
            } else {
                Err(io::Error::from(ErrorKind::Other))
            };
        }
        self.out.extend_from_slice(&buf[..n])?;
        self.left -= n;
        Ok(n)
    }

    fn flush(&mut self) -> io::Result<()> {
        Ok(())
    }
}

/// Asserts that a device that takes so many bytes has them at the end, a front of the dump, and that its failure is told.
fn assert_front<R: Abort + Threads + Wait + Sync>(
    rt: &R,
    alloc: Global,
    lists: &BinLists,
    params: &Params,
    direct: &[u8],
    left: usize,
    takes_none: bool,
)
    requires { CanBeMerged params.now.k (lists_of lists.now) }
{
    let mut writer = Counted::new(Full {
        out: Vec::new(alloc),
        left,
        takes_none,
    });
    let written = write_bins(rt, alloc, &mut writer, lists, params.k, params.counters);
    assert!(rt; written == Err(DumpError::Write) && writer.failures() == 1);
    let out = writer.into_inner().out;
    assert!(rt; out.len() == left && direct.starts_with(&out));
}

/// Asserts that a front of the dump is out where the device fails, at each so many-th byte of the dump.
fn assert_fronts<R: Abort + Threads + Wait + Sync>(
    rt: &R,
    alloc: Global,
    reads: &[Vec<u8>],
    params: &Params,
    step: usize,
) -> Result<(), Fail>
    requires { 1 ≤ step }
{
    let (direct, _) = plain(alloc, reads, params)?;
    let Some(lists) = listed(rt, alloc, reads, params) else {
        return Err(Fail::from("out of memory"));
    };
    for left in (0..direct.len()).step_by(step) {
        assert_front(rt, alloc, &lists, params, &direct, left, false);
        assert_front(rt, alloc, &lists, params, &direct, left, true);
    }
    Ok(())
}

/// Asserts that a front of the dump of the reads is out, with one thread and with two.
fn assert_fronts_of<R: Abort + Threads + Wait + Sync>(
    rt: &R,
    alloc: Global,
    reads: &[Vec<u8>],
    k: usize,
    step: usize,
) -> Result<(), Fail>
    requires { 1 ≤ step }
{
    for threads in [1, 2] {
        assert_fronts(rt, alloc, reads, &settings(k, 255, threads)?, step)?;
    }
    Ok(())
}

#[test]
fn a_front_is_out_where_the_device_fails(rt: HostRuntime) -> Result<(), Fail> {
    let mut dice = Dice { state: 41 };
    // each byte of one range
    let small = thrown_alone(rt.alloc(), &mut dice, 60)?;
    assert_fronts_of(&rt, rt.alloc(), &small, 9, 1)?;
    // bytes of two ranges far from one another
    let large = thrown_alone(rt.alloc(), &mut dice, 70_000)?;
    assert_fronts_of(&rt, rt.alloc(), &large, 20, 520_000)
}

/// The lists of a short read, where no memory is refused.
fn lists_of_a_read<R: Abort + Threads + Wait + Sync>(
    rt: &R,
    alloc: Global,
    params: &Params,
) -> Option<BinLists>
    ensures { IfSome result (λ lists. CanBeMerged params.now.k (lists_of lists)) }
{
    let reads = thrown_alone(alloc, &mut Dice { state: 77 }, 40).ok()?;
    listed(rt, alloc, &reads, params)
}

/// Asserts that the lists are written to a device with such room, or that memory is refused and nothing was written.
fn assert_written_or_silent<R: Abort + Threads + Wait + Sync>(
    rt: &R,
    alloc: Global,
    lists: &BinLists,
    params: &Params,
    room: Vec<u8>,
)
    requires { CanBeMerged params.now.k (lists_of lists.now) }
{
    let mut writer = Counted::new(room);
    match write_bins(rt, alloc, &mut writer, lists, params.k, params.counters) {
        Ok(lines) => assert!(rt; lines > 0),
        Err(error) => {
            assert!(rt; error == DumpError::Memory && writer.into_inner().is_empty());
        }
    }
}

/// Passes whichever one allocation is refused: before the dump it ends, and where the dump wants memory nothing was written.
#[test]
fn refused_memory_is_answered_before_the_first_byte(rt: HostRuntime) -> Result<(), Fail> {
    let params = settings(5, 255, 2)?;
    let Some(lists) = lists_of_a_read(&rt, rt.alloc(), &params) else {
        return Ok(());
    };
    let Ok(room) = Vec::with_capacity(rt.alloc(), 1024) else {
        return Ok(());
    };
    assert_written_or_silent(&rt, rt.alloc(), &lists, &params, room);
    Ok(())
}
