//! Limits of the counts of each dump of a join, worked by hand.
use crate::devices::{GREATEST, SOUND, joined, limits};
use kmc_join::{Choice, CountRange, EVERY_COUNT, JoinRule, Operation};
use std::alloc::Global;
use std::process::Abort;
use std::test::Fail;

const FIRST: &'static str = "AA\t5\nAC\t2\nCA\t7\nGG\t1\n";

const SECOND: &'static str = "AC\t3\nCA\t4\nGG\t9\nTT\t1\n";

/// The counts from 2 to 6.
const MIDDLE: CountRange = CountRange {
    least: 2,
    greatest: 6,
};

/// Passes where the two dumps, with these counts of each, are joined to this one.
fn gives(
    rt: &(impl Abort + Alloc<A = Global>),
    operation: Operation,
    left: CountRange,
    right: CountRange,
    dump: &str,
) -> Result<(), Fail> {
    let rule = JoinRule {
        operation,
        left,
        right,
    };
    let every = limits(1, GREATEST, GREATEST)?;
    let (answer, written) = joined(rt, [FIRST, SECOND], rule, &every, SOUND)?;
    assert!(rt; answer.is_ok());
    assert_eq!(rt; written.as_slice(), dump.as_bytes());
    Ok(())
}

#[test]
fn a_count_outside_of_its_range_is_taken_for_none(rt: HostRuntime) -> Result<(), Fail> {
    assert_eq!(rt; MIDDLE.within(1), 0);
    assert_eq!(rt; MIDDLE.within(2), 2);
    assert_eq!(rt; MIDDLE.within(6), 6);
    assert_eq!(rt; MIDDLE.within(7), 0);
    assert_eq!(rt; EVERY_COUNT.within(u64::MAX), u64::MAX);
    Ok(())
}

#[test]
fn the_words_of_the_first_are_limited(rt: HostRuntime) -> Result<(), Fail> {
    let union = Operation::Union(Choice::Sum);
    gives(
        &rt,
        union,
        MIDDLE,
        EVERY_COUNT,
        "AA\t5\nAC\t5\nCA\t4\nGG\t9\nTT\t1\n",
    )?;
    let both = Operation::Intersect(Choice::Min);
    gives(&rt, both, MIDDLE, EVERY_COUNT, "AC\t2\n")?;
    gives(&rt, Operation::Subtract, MIDDLE, EVERY_COUNT, "AA\t5\n")
}

#[test]
fn the_words_of_the_second_are_limited(rt: HostRuntime) -> Result<(), Fail> {
    let union = Operation::Union(Choice::Sum);
    gives(
        &rt,
        union,
        EVERY_COUNT,
        MIDDLE,
        "AA\t5\nAC\t5\nCA\t11\nGG\t1\n",
    )?;
    gives(
        &rt,
        Operation::Subtract,
        EVERY_COUNT,
        MIDDLE,
        "AA\t5\nGG\t1\n",
    )?;
    let counters = Operation::CountersSubtract(Choice::Diff);
    gives(&rt, counters, EVERY_COUNT, MIDDLE, "AA\t5\nCA\t3\nGG\t1\n")
}

#[test]
fn both_are_limited(rt: HostRuntime) -> Result<(), Fail> {
    let union = Operation::Union(Choice::Max);
    gives(&rt, union, MIDDLE, MIDDLE, "AA\t5\nAC\t3\nCA\t4\n")?;
    let none = CountRange {
        least: 6,
        greatest: 2,
    };
    gives(&rt, union, none, none, "")
}
