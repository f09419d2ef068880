//! Command lines of the program that joins, and what they ask for.
use kmc_join::{
    Choice, CountRange, EVERY_COUNT, JoinRequest, JoinRequestError, Operation, asked_for, table_cap,
};
use kmc_options::Setting;
use std::alloc::{AllocError, Global};
use std::process::Abort;

/// The words of a line.
fn words_of(alloc: Global, line: &str) -> Result<Vec<String>, AllocError> {
    let mut words = Vec::new(alloc);
    for word in line.split_whitespace() {
        words.push(String::from_str(alloc, word)?)?;
    }
    Ok(words)
}

fn asked(
    rt: &(impl Abort + Alloc<A = Global>),
    line: &str,
) -> Result<JoinRequest, JoinRequestError> {
    asked_for(rt.alloc(), words_of(rt.alloc(), line).expect(rt, "memory"))
}

/// Asserts that the line asks for this operation on `a` and `b`.
fn asks(rt: &(impl Abort + Alloc<A = Global>), line: &str, operation: Operation) {
    let request = asked(rt, line).expect(rt, line);
    assert_eq!(rt; request.rule.operation, operation, "{line}");
    assert_eq!(rt; request.files.len(), 2, "{line}");
    assert_eq!(rt; request.files[0].as_str(), "a", "{line}");
    assert_eq!(rt; request.files[1].as_str(), "b", "{line}");
}

fn asks_nothing(rt: &(impl Abort + Alloc<A = Global>), line: &str, error: JoinRequestError) {
    assert_eq!(rt; asked(rt, line).err(), Some(error), "{line}");
}

#[test]
fn an_operation_has_its_own_choice(rt: HostRuntime) {
    asks(&rt, "union a b", Operation::Union(Choice::Sum));
    asks(&rt, "intersect a b", Operation::Intersect(Choice::Min));
    asks(&rt, "subtract a b", Operation::Subtract);
    let counters = Operation::CountersSubtract(Choice::Diff);
    asks(&rt, "counters-subtract a b", counters);
}

#[test]
fn a_choice_stands_anywhere(rt: HostRuntime) {
    asks(&rt, "-ocmax union a b", Operation::Union(Choice::Max));
    asks(&rt, "union a -ocleft b", Operation::Union(Choice::Left));
    asks(
        &rt,
        "intersect -ci3 a b -ocsum",
        Operation::Intersect(Choice::Sum),
    );
    asks(
        &rt,
        "intersect a b --ci 3 -ocright",
        Operation::Intersect(Choice::Right),
    );
    asks(&rt, "union a b -ocdiff", Operation::Union(Choice::Diff));
    asks(&rt, "union a b -ocmin", Operation::Union(Choice::Min));
}

#[test]
fn limits_are_taken(rt: HostRuntime) {
    let limits = asked(&rt, "union -ci3 -cx70 --cs=9 a b")
        .expect(&rt, "limits")
        .limits;
    assert_eq!(rt; [limits.ci, limits.cx, limits.cs], [3, 70, 9]);
    let usual = asked(&rt, "union a b").expect(&rt, "no limits").limits;
    assert_eq!(rt; [usual.ci, usual.cx, usual.cs], [2, 1_000_000_000, 255]);
}

#[test]
fn limits_of_each_file_are_taken(rt: HostRuntime) {
    let rule = asked(
        &rt,
        "-rcx18446744073709551615 union -lci3 a -lcx70 -ci1 b -rci0 -ocmax",
    )
    .expect(&rt, "limits of files")
    .rule;
    assert_eq!(rt; rule.operation, Operation::Union(Choice::Max));
    let left = CountRange {
        least: 3,
        greatest: 70,
    };
    assert_eq!(rt; rule.left, left);
    assert_eq!(rt; rule.right, EVERY_COUNT);
    let rule = asked(&rt, "subtract a b -rci09")
        .expect(&rt, "one limit")
        .rule;
    assert_eq!(rt; rule.left, EVERY_COUNT);
    let right = CountRange {
        least: 9,
        greatest: u64::MAX,
    };
    assert_eq!(rt; rule.right, right);
}

#[test]
fn words_that_ask_for_nothing_are_told(rt: HostRuntime) {
    for line in [
        "",
        "union",
        "union a",
        "union a b c",
        "join a b",
        "union -ocmean a b",
        "union -oc a b",
        "union -ocmin -ocmin a b",
        "subtract -ocmin a b",
        "union -k31 a b",
        "union -ci1 -ci1 a b",
        "union -lci1 -lci1 a b",
        "union -rcx1 a -rcx2 b",
        "union -lcx a b",
        "union -rci-1 a b",
        "union -lcx18446744073709551616 a b",
        "union -lcs5 a b",
        "union --lci=5 a b",
    ] {
        asks_nothing(&rt, line, JoinRequestError::Usage);
    }
    let cs = JoinRequestError::OutOfRange(Setting::Cs);
    asks_nothing(&rt, "union -cs0 a b", cs);
}

/// The cap of the table that the line asks for.
fn cap_of(rt: &(impl Abort + Alloc<A = Global>), line: &str) -> Option<u64> {
    let words = words_of(rt.alloc(), line).expect(rt, "memory");
    table_cap(&words)
}

#[test]
fn a_table_has_a_cap(rt: HostRuntime) {
    assert_eq!(rt; cap_of(&rt, "table a b"), Some(1000));
    assert_eq!(rt; cap_of(&rt, "table -cs7 a b"), Some(7));
    assert_eq!(rt; cap_of(&rt, "table --cs=70000 a b"), Some(70_000));
    for line in [
        "",
        "table a",
        "table a b c",
        "table -cs0 a b",
        "table -cs a b",
        "table -ci2 a b",
        "table -cs5 a -b",
        "tables a b",
        "table -cs5 -cs5 a b",
    ] {
        assert_eq!(rt; cap_of(&rt, line), None, "{line}");
    }
}
