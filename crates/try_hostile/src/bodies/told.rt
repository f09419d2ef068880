//! What is told of a body.
ghost use Rattle.std.specs.Prelude.{◌<◌};

use kmc_base::{Kmer, Strands};
use kmc_count::{Limits, count_bin};
use kmc_device::Counted;
use kmc_dump::write_dump;
use kmc_record::{BodyError, Part, PartError, RecordFault, Shape};
use std::alloc::Global;
use std::io;
use std::io::ErrorKind;

/// The name of a fault.
fn name_of(fault: RecordFault) -> &'static str {
    match fault {
        RecordFault::Short => "short",
        RecordFault::Padding => "padding",
    }
}

/// Tells how many k-mers were counted, and the dump of them.
fn tell_pairs(rt: &impl Print, pairs: &[(Kmer, u64)]) -> io::Result<()> {
    println!(rt; "count: {}", pairs.len())?;
    let mut writer = Counted::new(io::writer(rt));
    match write_dump(&mut writer, pairs) {
        Ok(_) => Ok(()),
        Err(_) => Err(io::Error::from(ErrorKind::Other)),
    }
}

/// Tells why the count was given up.
fn tell_no_count(rt: &impl Print, error: BodyError) -> io::Result<()> {
    match error {
        BodyError::Damaged(fault, offset) => {
            println!(rt; "count: {} at {offset}", name_of(fault))
        }
        BodyError::Memory => rt.println("count: out of memory"),
        BodyError::WrongBin => rt.println("count: another bin"),
    }
}

/// Tells the count of the body: how many k-mers, and the dump of them; or why it was given up.
pub fn tell_count(rt: &impl Print, alloc: Global, shape: Shape, body: &[u8]) -> io::Result<()> {
    let Some(limits) = Limits::new(1, 1 << 63, 1 << 63) else {
        return Err(io::Error::from(ErrorKind::Other));
    };
    match count_bin(alloc, body, shape.k(), Strands::Joined, &limits) {
        Ok(pairs) => tell_pairs(rt, &pairs),
        Err(error) => tell_no_count(rt, error),
    }
}

/// Tells why a body is no part.
fn tell_no_part(rt: &impl Print, error: PartError) -> io::Result<()> {
    match error {
        PartError::Damaged(fault, offset) => println!(rt; "part: {} at {offset}", name_of(fault)),
        PartError::WrongBin(offset) => println!(rt; "part: wrong bin at {offset}"),
        PartError::Memory => rt.println("part: out of memory"),
    }
}

/// Tells how many words the part of the body has, or why there is none.
pub fn tell_part(rt: &impl Print, shape: Shape, bin: usize, body: Vec<u8>) -> io::Result<()>
    requires { bin < shape.n }
{
    match Part::from_body(0, bin, shape, body) {
        Ok(part) => println!(rt; "part: {}", part.words()),
        Err((error, _)) => tell_no_part(rt, error),
    }
}
