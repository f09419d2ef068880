//! Lists of calls with the answers that they must get, made one by one and by `run`. A list is one text: the shape,
//! and then each call with its answer, as `tests_model/queue_model.py` spells them.
use crate::lists;
use kmc_partcore::{
    CompleteError, Event, MAX_WRITERS, PartCore, PutError, QueueShape, RegisterError, Reply,
    TakeError, Taken, Totals, run,
};
use std::alloc::{AllocError, Global};
use std::process::Abort;
use std::test::Fail;

const LONGEST: usize = 64;

fn digit(symbol: u8) -> usize {
    symbol.saturating_sub(b'0') as usize
}

fn shape_of(text: &str) -> Option<QueueShape> {
    match text.as_bytes() {
        [w, c, r, b':', ..] => QueueShape::new(digit(*w), digit(*c), digit(*r)),
        _ => None,
    }
}

fn event_of(call: &str, item: u32) -> Option<Event<u32>> {
    match call.as_bytes() {
        [b'r', w, ..] => Some(Event::Register(digit(*w))),
        [b'p', w, ..] => Some(Event::Put(digit(*w), item)),
        [b't', r, ..] => Some(Event::Take(digit(*r))),
        [b'c', w, ..] => Some(Event::Complete(digit(*w))),
        _ => None,
    }
}

/// The calls of a list.
fn calls_of(text: &str) -> Option<&str> {
    let (_, calls) = text.split_once(':')?;
    Some(calls)
}

/// The shape and the calls of a list.
fn list_of(text: &str) -> Option<(QueueShape, &str)> {
    Some((shape_of(text)?, calls_of(text)?))
}

fn register_text(alloc: Global, reply: Result<(), RegisterError>) -> Result<String, AllocError> {
    match reply {
        Ok(()) => format!(in alloc; "+"),
        Err(RegisterError::NoSuchWriter) => format!(in alloc; "n"),
        Err(RegisterError::AlreadyRegistered) => format!(in alloc; "a"),
    }
}

fn put_letter(error: PutError) -> &'static str {
    match error {
        PutError::NoSuchWriter => "n",
        PutError::NotRegistered => "u",
        PutError::Completed => "c",
        PutError::NumbersSpent => "s",
        PutError::Full => "f",
    }
}

fn put_text(alloc: Global, reply: Result<u64, (PutError, u32)>) -> Result<String, AllocError> {
    match reply {
        Ok(number) => format!(in alloc; "+{number}"),
        Err((error, item)) => format!(in alloc; "{}{item}", put_letter(error)),
    }
}

fn totals_text(alloc: Global, totals: Totals) -> Result<String, AllocError> {
    let mut text = format!(in alloc; "d")?;
    for w in 0..MAX_WRITERS {
        match totals.of(w) {
            Some(total) => {
                let count = format!(in alloc; "{total}.")?;
                text.push_str(count.as_str())?;
            }
            None => {}
        }
    }
    Ok(text)
}

fn take_text(alloc: Global, reply: Result<Taken<u32>, TakeError>) -> Result<String, AllocError> {
    match reply {
        Ok(Taken::Got(got)) => format!(in alloc; "g{}.{}.{}", got.writer, got.number, got.item),
        Ok(Taken::Empty) => format!(in alloc; "e"),
        Ok(Taken::Finished(totals)) => totals_text(alloc, totals),
        Err(TakeError::NoSuchReader) => format!(in alloc; "n"),
    }
}

fn complete_text(alloc: Global, reply: Result<(), CompleteError>) -> Result<String, AllocError> {
    match reply {
        Ok(()) => format!(in alloc; "+"),
        Err(CompleteError::NoSuchWriter) => format!(in alloc; "n"),
        Err(CompleteError::NotRegistered) => format!(in alloc; "u"),
        Err(CompleteError::Completed) => format!(in alloc; "c"),
    }
}

fn reply_text(alloc: Global, reply: Reply<u32>) -> Result<String, AllocError> {
    match reply {
        Reply::Register(reply) => register_text(alloc, reply),
        Reply::Put(reply) => put_text(alloc, reply),
        Reply::Take(reply) => take_text(alloc, reply),
        Reply::Complete(reply) => complete_text(alloc, reply),
    }
}

/// Whether the answer of a call is the one that its text ends with.
fn is_answered(alloc: Global, call: &str, reply: Reply<u32>) -> Result<bool, AllocError> {
    let answer = reply_text(alloc, reply)?;
    match call.as_bytes() {
        [_, _, wanted @ ..] => Ok(wanted == answer.as_str().as_bytes()),
        _ => Ok(false),
    }
}

/// Makes a call by the queue's own method.
fn call(core: &mut PartCore<u32>, event: Event<u32>) -> Reply<u32> {
    match event {
        Event::Register(w) => Reply::Register(core.register(w)),
        Event::Put(w, item) => Reply::Put(core.put(w, item)),
        Event::Take(r) => Reply::Take(core.take(r)),
        Event::Complete(w) => Reply::Complete(core.complete(w)),
    }
}

/// The calls of a list as events.
fn events_of(alloc: Global, calls: &str) -> Result<Vec<Event<u32>>, AllocError> {
    let mut events = Vec::new(alloc);
    let mut item = 0u32;
    for word in calls.split_ascii_whitespace() {
        let Some(event) = event_of(word, item) else {
            return Ok(events);
        };
        if word.as_bytes().first() == Some(&b'p') {
            item = item.saturating_add(1);
        }
        events.push(event)?;
    }
    Ok(events)
}

/// The replies of the queue's own methods to the calls, one by one.
fn replies_of(
    alloc: Global,
    shape: QueueShape,
    events: Vec<Event<u32>>,
) -> Result<Vec<Reply<u32>>, AllocError> {
    let mut core = PartCore::new(alloc, shape)?;
    let mut replies = Vec::new(alloc);
    for event in events {
        replies.push(call(&mut core, event))?;
    }
    Ok(replies)
}

/// How many calls get the reply that their text says, up to the first that does not.
fn count_answered(
    alloc: Global,
    calls: &str,
    replies: Vec<Reply<u32>>,
) -> Result<usize, AllocError> {
    let mut answered = 0usize;
    for (word, reply) in calls.split_ascii_whitespace().zip(replies) {
        if !is_answered(alloc, word, reply)? {
            return Ok(answered);
        }
        answered = answered.saturating_add(1);
    }
    Ok(answered)
}

/// How many calls of the list are answered as it says, one by one, up to the first that is not.
fn answered_one_by_one(alloc: Global, text: &str) -> Result<usize, AllocError> {
    let Some((shape, calls)) = list_of(text) else {
        return Ok(0);
    };
    let replies = replies_of(alloc, shape, events_of(alloc, calls)?)?;
    count_answered(alloc, calls, replies)
}

/// The same where `run` makes the calls.
fn answered_by_run(alloc: Global, text: &str) -> Result<usize, AllocError> {
    let Some((shape, calls)) = list_of(text) else {
        return Ok(0);
    };
    let replies = run(alloc, shape, events_of(alloc, calls)?)?;
    count_answered(alloc, calls, replies)
}

fn length_of(text: &str) -> usize {
    match calls_of(text) {
        Some(calls) => calls.split_ascii_whitespace().take(LONGEST).count(),
        None => LONGEST,
    }
}

/// All calls of the list are answered as it says, both ways.
fn agrees(alloc: Global, text: &str) -> Result<bool, AllocError> {
    let all = length_of(text);
    Ok(answered_one_by_one(alloc, text)? == all && answered_by_run(alloc, text)? == all)
}

/// Asserts that all calls of the list are answered as it says.
fn assert_agrees(rt: &(impl Abort + Alloc<A = Global>), list: &str) -> Result<(), Fail> {
    assert!(rt; agrees(rt.alloc(), list)?);
    Ok(())
}

#[test]
fn two_writers_fill_empty_and_finish_a_queue(rt: HostRuntime) -> Result<(), Fail> {
    let list = "211:r0+ r1+ p0+0 p0f1 t0g0.0.0 p1+0 c0+ p0c3 t0g1.0.2 t0e c1+ t0d1.1. t0d1.1. ";
    assert_agrees(&rt, list)
}

#[test]
fn a_writer_that_never_registered_keeps_the_queue_open(rt: HostRuntime) -> Result<(), Fail> {
    assert_agrees(&rt, "211:r0+ c0+ t0e r0a p1u0 p2n1 t9n ")
}

#[test]
fn a_writer_must_register_first(rt: HostRuntime) -> Result<(), Fail> {
    assert_agrees(&rt, "121:t0e p0u0 c0u ")
}

#[test]
fn no_calls_get_no_answers(rt: HostRuntime) -> Result<(), Fail> {
    assert_agrees(&rt, "121:")
}

#[test]
fn no_events_have_no_replies(rt: HostRuntime) -> Result<(), Fail> {
    let shape = QueueShape::new(1, 2, 1).expect(&rt, "a shape");
    let none: Vec<Event<u32>> = Vec::new(rt.alloc());
    assert!(rt; run(rt.alloc(), shape, none)?.is_empty());
    Ok(())
}

#[test]
fn items_stay_after_their_writer_completed(rt: HostRuntime) -> Result<(), Fail> {
    assert_agrees(
        &rt,
        "121:r0+ p0+0 p0+1 c0+ c0c p0c2 c1n t0g0.0.0 t0g0.1.1 t0d2. ",
    )
}

#[test]
fn a_shape_is_within_its_limits(rt: HostRuntime) -> Result<(), Fail> {
    assert!(rt; QueueShape::new(1, 1, 1).is_some() && QueueShape::new(16, 64, 8).is_some());
    for writers in [0, 17] {
        assert!(rt; QueueShape::new(writers, 1, 1).is_none());
    }
    for per_writer in [0, 65] {
        assert!(rt; QueueShape::new(1, per_writer, 1).is_none());
    }
    for readers in [0, 9] {
        assert!(rt; QueueShape::new(1, 1, readers).is_none());
    }
    Ok(())
}

#[test]
fn totals_answer_for_the_writers_of_the_queue(rt: HostRuntime) -> Result<(), Fail> {
    let totals = Totals::new(&[3, 0, 4294967295]);
    assert!(rt;
        totals.of(0) == Some(3)
            && totals.of(1) == Some(0)
            && totals.of(2) == Some(4294967295)
            && totals.of(3).is_none()
    );
    Ok(())
}

/// All lists of the text, which a `/` parts, are answered as they say.
fn all_agree(alloc: Global, text: &str) -> Result<bool, AllocError> {
    for list in text.split('/') {
        if !agrees(alloc, list)? {
            return Ok(false);
        }
    }
    Ok(true)
}

#[test]
fn random_lists_are_answered_as_by_the_plain_model(rt: HostRuntime) -> Result<(), Fail> {
    for part in [
        lists::part_0(),
        lists::part_1(),
        lists::part_2(),
        lists::part_3(),
        lists::part_4(),
        lists::part_5(),
        lists::part_6(),
        lists::part_7(),
    ] {
        assert!(rt; all_agree(rt.alloc(), part)?);
    }
    Ok(())
}
