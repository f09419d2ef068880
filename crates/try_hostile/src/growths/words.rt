//! Words: `push_text`, and `push` of a packed list.
ghost use Rattle.std.specs.Prelude.{◌≡◌};

use crate::growths::tell;
use kmc_base::Kmer;
use kmc_lists::KmerList;
use std::alloc::{AllocError, Global};

/// Writes the word of these codes behind the others.
fn write_word(rt: &impl Eprint, codes: &[u8], text: &mut Vec<u8>) -> Result<(), AllocError> {
    let word = Kmer::new(codes).ok_or(AllocError)?;
    if word.push_text(text).is_err() {
        tell(rt, "push_text");
        word.push_text(text)?;
    }
    Ok(())
}

/// Writes words one behind the other.
pub fn write_words(rt: &(impl Print + Eprint), alloc: Global) -> Result<(), AllocError> {
    let mut text = Vec::new(alloc);
    write_word(rt, &[0, 1, 2, 3], &mut text)?;
    write_word(rt, &[3; 31], &mut text)?;
    write_word(rt, &[2; 64], &mut text)?;
    let _ = print!(rt; "words: ");
    let _ = rt.write_all(&text);
    let _ = rt.println("");
    Ok(())
}

/// Appends a pair to a packed list of words of four codes.
fn push_pair(
    rt: &impl Eprint,
    list: &mut KmerList<u64, u8>,
    word: u8,
    count: u8,
) -> Result<(), AllocError>
    requires { list.old.k ≡ 4 }
    ensures { list.new.k ≡ 4 }
{
    if list.push(u64::from(word), count).is_err() {
        tell(rt, "push");
        list.push(u64::from(word), count)?;
    }
    Ok(())
}

/// Prints the pairs of a packed list.
fn print_pairs(rt: &impl Print, list: &KmerList<u64, u8>) {
    let _ = print!(rt; "pairs:");
    for i in 0..list.len() {
        let (word, count) = list.get(i);
        let _ = print!(rt; " {word}:{count}");
    }
    let _ = rt.println("");
}

/// Appends pairs to a packed list.
pub fn push_pairs(rt: &(impl Print + Eprint), alloc: Global) -> Result<(), AllocError> {
    let mut list: KmerList<u64, u8> = KmerList::new(alloc, 4);
    for word in 0..40u8 {
        push_pair(rt, &mut list, word, 200 - word)?;
    }
    print_pairs(rt, &list);
    Ok(())
}
