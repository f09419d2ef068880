//! Each operation on two dumps, whose joins were worked by hand.
use crate::devices::{GREATEST, SOUND, joined, limits, on_every_count};
use kmc_count::Limits;
use kmc_join::{Choice, Operation};
use std::alloc::Global;
use std::process::Abort;
use std::test::Fail;

const FIRST: &'static str = "AA\t5\nAC\t2\nCA\t7\n";

const SECOND: &'static str = "AC\t3\nCA\t4\nTT\t1\n";

/// Passes where the two dumps are joined to this one within these limits.
fn gives_within(
    rt: &(impl Abort + Alloc<A = Global>),
    texts: [&'static str; 2],
    operation: Operation,
    limits: &Limits,
    dump: &str,
) -> Result<(), Fail> {
    let (answer, written) = joined(rt, texts, on_every_count(operation), limits, SOUND)?;
    assert!(rt; answer.is_ok());
    assert_eq!(rt; written.as_slice(), dump.as_bytes());
    Ok(())
}

/// The same within limits that list each count.
fn gives(
    rt: &(impl Abort + Alloc<A = Global>),
    operation: Operation,
    dump: &str,
) -> Result<(), Fail> {
    let every = limits(1, GREATEST, GREATEST)?;
    gives_within(rt, [FIRST, SECOND], operation, &every, dump)
}

#[test]
fn an_intersection_has_the_words_of_both(rt: HostRuntime) -> Result<(), Fail> {
    gives(&rt, Operation::Intersect(Choice::Min), "AC\t2\nCA\t4\n")?;
    gives(&rt, Operation::Intersect(Choice::Max), "AC\t3\nCA\t7\n")?;
    gives(&rt, Operation::Intersect(Choice::Sum), "AC\t5\nCA\t11\n")?;
    gives(&rt, Operation::Intersect(Choice::Diff), "CA\t3\n")?;
    gives(&rt, Operation::Intersect(Choice::Left), "AC\t2\nCA\t7\n")?;
    gives(&rt, Operation::Intersect(Choice::Right), "AC\t3\nCA\t4\n")
}

#[test]
fn a_union_has_the_words_of_either(rt: HostRuntime) -> Result<(), Fail> {
    let sum = "AA\t5\nAC\t5\nCA\t11\nTT\t1\n";
    gives(&rt, Operation::Union(Choice::Sum), sum)?;
    let least = "AA\t5\nAC\t2\nCA\t4\nTT\t1\n";
    gives(&rt, Operation::Union(Choice::Min), least)?;
    gives(&rt, Operation::Union(Choice::Diff), "AA\t5\nCA\t3\nTT\t1\n")
}

#[test]
fn a_difference_has_words_of_the_first(rt: HostRuntime) -> Result<(), Fail> {
    gives(&rt, Operation::Subtract, "AA\t5\n")?;
    let every = limits(1, GREATEST, GREATEST)?;
    gives_within(&rt, [SECOND, FIRST], Operation::Subtract, &every, "TT\t1\n")?;
    gives(
        &rt,
        Operation::CountersSubtract(Choice::Diff),
        "AA\t5\nCA\t3\n",
    )
}

#[test]
fn limits_judge_what_is_joined(rt: HostRuntime) -> Result<(), Fail> {
    let union = Operation::Union(Choice::Sum);
    let texts = [FIRST, SECOND];
    gives_within(&rt, texts, union, &limits(5, 10, 6)?, "AA\t5\nAC\t5\n")?;
    gives_within(&rt, texts, union, &limits(6, 11, 6)?, "CA\t6\n")?;
    let ones = ["AC\t18446744073709551615\n", "AC\t1\n"];
    gives_within(&rt, ones, union, &limits(0, GREATEST, GREATEST)?, "")
}

#[test]
fn an_empty_dump_is_joined(rt: HostRuntime) -> Result<(), Fail> {
    let every = limits(1, GREATEST, GREATEST)?;
    let least = Operation::Intersect(Choice::Min);
    gives_within(&rt, [FIRST, ""], least, &every, "")?;
    gives_within(
        &rt,
        ["", SECOND],
        Operation::Union(Choice::Max),
        &every,
        SECOND,
    )?;
    gives_within(&rt, ["", ""], Operation::Subtract, &every, "")
}
