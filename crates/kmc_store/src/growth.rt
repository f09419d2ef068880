//! How bodies grow by others.
ghost use Rattle.std.specs.Prelude.{◌≡◌, ℕ, ◌+◌, ◌<◌, ◌++◌, length, map, OnOk, OnErr, slice_index};
ghost use Rattle.kmc_record.specs.Parts.{capped};
ghost use Rattle.kmc_store.specs.Bins.{body_at};
ghost use Rattle.kmc_store.specs.Growing.{HasRoomForBodies, HaveRoom};

use std::alloc::AllocError;
use std::mem::swap;

/// Makes room for the other body, but none where the own is empty: that one takes the other over.
fn make_room_for(own: &mut Vec<u8>, more: &[u8]) -> Result<(), AllocError>
    ensures kept { own.new.items ≡ own.old.items }
    ensures ok { OnOk result (HasRoomForBodies own.new (length more.now)) }
    ensures full { OnErr result (¬ (HasRoomForBodies own.old (length more.now))) }
{
    if own.is_empty() {
        Ok(())
    } else {
        own.reserve(more.len())
    }
}

/// Makes room in each body for the same one of the others.
pub(crate) fn make_room(own: &mut Vec<Vec<u8>>, more: &[Vec<u8>]) -> Result<(), AllocError>
    requires { length own.old.items ≡ length more.now }
    ensures kept { map (λ v. v.items) own.new.items ≡ map (λ v. v.items) own.old.items }
    ensures ok { OnOk result (HaveRoom own.new.items more.now) }
    ensures full { OnErr result (¬ (HaveRoom own.old.items more.now)) }
{
    for i in 0..more.len() {
        make_room_for(&mut own[i], &more[i])?;
    }
    Ok(())
}

/// Appends the other body where there is room for it; an empty body takes the other over.
fn append_body(own: &mut Vec<u8>, more: &mut Vec<u8>)
    requires { HasRoomForBodies own.old (length more.old.items) }
    ensures { own.new.items ≡ own.old.items ++ more.old.items }
{
    if own.is_empty() {
        swap(own, more);
    } else {
        match own.extend_from_slice(more) {
            Ok(()) => {}
            Err(AllocError) => unreachable!(),
        }
    }
}

/// Appends to each body the same one of the others.
pub(crate) fn append_bodies(own: &mut Vec<Vec<u8>>, more: &mut Vec<Vec<u8>>)
    requires room { HaveRoom own.old.items more.old.items }
    requires same { length own.old.items ≡ length more.old.items }
    ensures wide { length own.new.items ≡ length own.old.items }
    ensures each { (i : ℕ) → i < length own.old.items
        → body_at (map (λ v. v.items) own.new.items) i
        ≡ body_at (map (λ v. v.items) own.old.items) i
        ++ body_at (map (λ v. v.items) more.old.items) i }
{
    for i in 0..own.len() {
        append_body(&mut own[i], &mut more[i]);
    }
}

/// Adds to each number the same one of the others, up to 2^64 - 1.
pub(crate) fn add_words(own: &mut Vec<u64>, more: &[u64])
    requires { length own.old.items ≡ length more.now }
    ensures wide { length own.new.items ≡ length own.old.items }
    ensures each { (i : ℕ) → i < length own.old.items
        → slice_index own.new.items i
        ≡ capped (slice_index own.old.items i + slice_index more.now i) }
{
    for i in 0..more.len() {
        own[i] = own[i].saturating_add(more[i]);
    }
}
