//! Judges bodies from outside. Each line of standard input has the sizes k, p and n of a shape, a bin, and a body in hex, which may
//! be empty. For each line one line tells what `count_bin` answers, with the dump behind it, and one what `Part::from_body` does.
//! bench/damaged.py compares all of them with a decoder of its own.

mod told;

ghost use Rattle.std.specs.Prelude.{◌<◌, IfSome};

use crate::bodies::told::{tell_count, tell_part};
use kmc_record::Shape;
use std::alloc::Global;
use std::io;

/// The number before the first space, and what follows it.
fn number_before(text: &str) -> Option<(usize, &str)> {
    let (word, rest) = text.split_once(' ')?;
    Some((word.parse().ok()?, rest))
}

/// The three sizes that a line begins with, and what follows them.
fn sizes_of(line: &str) -> Option<(usize, usize, usize, &str)> {
    let (k, rest) = number_before(line)?;
    let (p, rest) = number_before(rest)?;
    let (n, rest) = number_before(rest)?;
    Some((k, p, n, rest))
}

/// The shape, the bin and the body of a line; none where the line has none, or the shape has no such bin.
fn row_of(alloc: Global, line: &str) -> Option<(Shape, usize, Vec<u8>)>
    ensures { IfSome result (λ row. row.1 < row.0.n) }
{
    let (k, p, n, rest) = sizes_of(line)?;
    let shape = Shape::new(k, p, n)?;
    let (bin, rest) = number_before(rest)?;
    if bin >= shape.n() {
        return None;
    }
    let body = hex::decode(alloc, rest.split(' ').next()?).ok()?;
    Some((shape, bin, body))
}

/// Tells what is found of the body of a line.
fn tell_line(rt: &impl Print, alloc: Global, line: &str) -> io::Result<()> {
    match row_of(alloc, line) {
        Some((shape, bin, body)) => {
            tell_count(rt, alloc, shape, &body)?;
            tell_part(rt, shape, bin, body)
        }
        None => rt.println("no body"),
    }
}

/// Tells what is found of the body of each line.
pub fn tell_bodies(rt: &impl Print, alloc: Global, text: &str) -> io::Result<()> {
    for line in text.lines() {
        tell_line(rt, alloc, line)?;
    }
    Ok(())
}
