//! The operands of a command line: files, and standard input in place of one.
ghost use Rattle.std.specs.Prelude.{◌≡◌, ◌<◌, ◌⊎◌, ℕ, IfOk, MatchResult, length, map, string_bytes};
ghost use Rattle.kmc_sum.specs.declared.error.SumError.TheVariants.{Memory};
ghost use Rattle.kmc_join.specs.Operand.{full_name, full_names, left_of};

use crate::fault::JoinFault;
use kmc_device::Counted;
use kmc_sum::{Line, LineRead, SumError, TextReader};
use std::alloc::{AllocError, Global};
use std::fs;
use std::io::{self, Read};
use std::rt::Files;

/// A file, or standard input in its place.
#[derive(Drop)]
pub enum Operand<F, I> {
    File(F),
    Input(I),
}

impl<F: Read, I: Read> Read for Operand<F, I> {
    ghost remaining = { left_of F.remaining I.remaining };

    fn read(&mut self, buf: &mut [u8]) -> io::Result<usize> {
        match self {
            Operand::File(file) => file.read(buf),
            Operand::Input(input) => input.read(buf),
        }
    }
}

impl<F: Read, I: Read> LineRead for Operand<F, I> {
    fn take_line(&mut self) -> Option<Line> {
        None
    }
}

/// The name under which standard input is read.
pub const INPUT: &'static str = "/dev/stdin";

/// The word, and for a lone hyphen the full name of standard input.
fn full_name(alloc: Global, word: String) -> Result<String, AllocError>
    ensures { IfOk result (λ name. string_bytes name ≡ full_name (string_bytes word)) }
{
    if word.as_str() == "-" {
        String::from_str(alloc, INPUT)
    } else {
        Ok(word)
    }
}

/// The words, with the full name of standard input for a lone hyphen.
pub fn full_names(alloc: Global, words: Vec<String>) -> Result<Vec<String>, AllocError>
    ensures { IfOk result (λ named. map string_bytes named.items
        ≡ full_names (map string_bytes words.items)) }
{
    let mut named = Vec::new(alloc);
    for word in words {
        named.push(full_name(alloc, word)?)?;
    }
    Ok(named)
}

/// A reader for each file, or why there are none: the first file that cannot be opened, or want of memory. Standard input is read by the
/// input, and no second time.
pub(crate) fn opened<T: Files + Alloc<A = Global>, I: Read + Drop>(
    rt: &T,
    files: &[String],
    input: I,
) -> Result<Vec<Counted<Operand<T::File, I>>>, JoinFault>
    ensures { MatchResult result (λ readers. length readers.items ≡ length files.now)
        (λ fault. (fault ≡ JoinFault.Join Memory)
        ⊎ ((i : ℕ) × (i < length files.now) × (fault ≡ JoinFault.NotOpened i))) }
{
    let mut readers = Vec::new(rt.alloc());
    let mut unread = Some(input);
    for i in 0..files.len() {
        let operand = match operand_named(rt, files[i].as_str(), &mut unread) {
            Some(operand) => operand,
            None => return Err(JoinFault::NotOpened(i)),
        };
        if readers.push(Counted::new(operand)).is_err() {
            return Err(JoinFault::Join(SumError::Memory));
        }
    }
    Ok(readers)
}

/// The operand of this name, where it can be opened.
fn operand_named<T: Files, I: Read>(
    rt: &T,
    name: &str,
    unread: &mut Option<I>,
) -> Option<Operand<T::File, I>> {
    if name == INPUT {
        return match unread.take() {
            Some(input) => Some(Operand::Input(input)),
            None => None,
        };
    }
    match fs::open(rt, name) {
        Ok(file) => Some(Operand::File(file)),
        Err(_) => None,
    }
}

/// The dump of this name, where it can be opened; standard input is none, since words are read there.
pub(crate) fn dump_named<T: Files>(rt: &T, name: &str) -> Option<Counted<TextReader<T::File>>> {
    if name == INPUT {
        return None;
    }
    match fs::open(rt, name) {
        Ok(file) => Some(Counted::new(TextReader(file))),
        Err(_) => None,
    }
}
