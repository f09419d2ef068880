//! A record of another bin among records of the bin: behind equal ones, among long ones, among words that a table counts, and where
//! records are counted word by word.
ghost use Rattle.std.specs.Prelude.{◌≤◌};

use kmc_base::Strands;
use kmc_count::Limits;
use kmc_record::{PartError, Shape, count_words};
use kmc_slices::{BinFault, JudgeError, judged_lists};
use std::alloc::{AllocError, Global};
use std::process::Abort;
use std::sync::Wait;
use std::test::Fail;
use std::thread::Threads;
use test_support::Dice;

/// So many symbols stand in a record again and again, and so all its words have one signature.
const PERIOD: usize = 9;

/// Four symbols of a record, from a place on, with zeros behind its end.
fn byte_at(period: &[u8; PERIOD], place: usize, end: usize) -> u8 {
    let mut byte = 0u8;
    for i in 0..4usize {
        let at = place.saturating_add(i);
        let code = if at < end { period[at % PERIOD] } else { 0 };
        byte = byte << 2 | code % 4;
    }
    byte
}

/// The record of random symbols that come again, so many above k.
fn record(alloc: Global, dice: &mut Dice, k: usize, above: u8) -> Result<Vec<u8>, AllocError> {
    let mut period = [0u8; PERIOD];
    for i in 0..PERIOD {
        period[i] = dice.roll(4) as u8;
    }
    let end = k.saturating_add(usize::from(above));
    let mut out = Vec::new(alloc);
    out.push(above)?;
    for i in 0..end.div_ceil(4) {
        out.push(byte_at(&period, i.saturating_mul(4), end))?;
    }
    Ok(out)
}

/// A random record of the first bin, or of another one.
fn record_of(
    alloc: Global,
    dice: &mut Dice,
    shape: Shape,
    above: u8,
    is_own: bool,
) -> Result<Vec<u8>, Fail>
    requires { 1 ≤ shape.n }
{
    for _ in 0..1000 {
        let found = record(alloc, dice, shape.k(), above)?;
        if count_words(&found, 0, shape).is_ok() == is_own {
            return Ok(found);
        }
    }
    Err(Fail::from("a record"))
}

/// Asserts what is told of a body of a bin of two, by so many threads: the record at a place, or nothing. The other bin has the other body.
fn assert_told<R: Abort + Threads + Wait + Sync>(
    rt: &R,
    alloc: Global,
    shape: Shape,
    bodies: Vec<Vec<u8>>,
    threads: usize,
    want: Option<BinFault>,
) {
    let limits = Limits::new(1, 1000, 255).expect(rt, "limits");
    assert!(rt; bodies.len() == shape.n() && threads > 0);
    let answer = judged_lists(rt, alloc, shape, bodies, Strands::Joined, &limits, threads);
    assert!(rt; answer.err() == want.map(JudgeError::Foreign));
}

/// The two bodies, of which one has nothing.
fn bodies_of(alloc: Global, body: Vec<u8>) -> Result<Vec<Vec<u8>>, AllocError> {
    let mut bodies = Vec::new(alloc);
    bodies.push(body)?;
    bodies.push(Vec::new(alloc))?;
    Ok(bodies)
}

/// Asserts that a record of the other bin is told at each place among equal records, and nothing where there is none.
fn assert_places<R: Abort + Threads + Wait + Sync>(
    rt: &R,
    alloc: Global,
    dice: &mut Dice,
    k: usize,
    above: u8,
) -> Result<(), Fail> {
    let shape = Shape::new(k, 7, 2).expect(rt, "a shape");
    assert!(rt; shape.n() == 2);
    let own = record_of(alloc, dice, shape, above, true)?;
    let other = record_of(alloc, dice, shape, above, false)?;
    for place in 0..5 {
        let mut body = Vec::new(alloc);
        let mut want = None;
        for at in 0..4 {
            if at == place {
                let why = PartError::WrongBin(body.len());
                want = Some(BinFault { bin: 0, why });
                body.extend_from_slice(&other)?;
            }
            body.extend_from_slice(&own)?;
        }
        for threads in 1..3 {
            let bodies = bodies_of(alloc, body.to_vec(alloc)?)?;
            assert_told(rt, alloc, shape, bodies, threads, want);
        }
    }
    Ok(())
}

#[test]
fn a_record_of_another_bin_is_told_behind_equal_ones(rt: HostRuntime) -> Result<(), Fail> {
    let mut dice = Dice { state: 70 };
    for k in [8, 20, 31, 40, 58, 59, 64] {
        for above in [0, 3, 40, 120, 255] {
            assert_places(&rt, rt.alloc(), &mut dice, k, above)?;
        }
    }
    Ok(())
}

/// A record that begins as others of its bin do, and goes on as none of them: its last words are of the other bin.
#[test]
fn a_record_that_begins_as_others_is_told(rt: HostRuntime) -> Result<(), Fail> {
    let alloc = rt.alloc();
    let mut dice = Dice { state: 71 };
    let shape = Shape::new(20, 7, 2).expect(&rt, "a shape");
    assert!(rt; shape.n() == 2);
    let own = record_of(alloc, &mut dice, shape, 0, true)?;
    for _ in 0..20 {
        let end = record_of(alloc, &mut dice, shape, 0, false)?;
        let mut longer = Vec::new(alloc);
        longer.push(20)?;
        longer.extend_from_slice(own.get(1..).ok_or("symbols")?)?;
        longer.extend_from_slice(end.get(1..).ok_or("symbols")?)?;
        let mut body = own.to_vec(alloc)?;
        body.extend_from_slice(&longer)?;
        body.extend_from_slice(&own)?;
        let why = PartError::WrongBin(own.len());
        let want = Some(BinFault { bin: 0, why });
        assert_told(&rt, alloc, shape, bodies_of(alloc, body)?, 1, want);
    }
    Ok(())
}

/// Where few records of a bin are equal, the words of the next ones are counted one by one.
#[test]
fn a_record_of_another_bin_is_told_where_words_are_counted_one_by_one(
    rt: HostRuntime,
) -> Result<(), Fail> {
    let alloc = rt.alloc();
    let mut dice = Dice { state: 72 };
    let shape = Shape::new(20, 7, 2).expect(&rt, "a shape");
    assert!(rt; shape.n() == 2);
    let mut first = Vec::new(alloc);
    for _ in 0..1500 {
        let own = record_of(alloc, &mut dice, shape, 5, true)?;
        first.extend_from_slice(&own)?;
    }
    let own = record_of(alloc, &mut dice, shape, 5, false)?;
    let other = record_of(alloc, &mut dice, shape, 5, true)?;
    let mut second = own.to_vec(alloc)?;
    second.extend_from_slice(&other)?;
    let mut bodies = Vec::new(alloc);
    bodies.push(first)?;
    bodies.push(second)?;
    let why = PartError::WrongBin(own.len());
    let want = Some(BinFault { bin: 1, why });
    assert_told(&rt, alloc, shape, bodies, 1, want);
    Ok(())
}
