//! The program `kmc_db`: two dumps, joined or told of, on standard output; or how many k-mers of reads on standard input have each count;
//! or these reads, or a dump, as a database in two files, or such a database as a dump, or words with their counts in it; or help. On a
//! fault it writes one line to standard error and ends with the fault's status. The first and the last are `kmc_join`'s, the second is
//! `kmc_spectrum`'s, the third `kmc_packer`'s, the others are `kmc_database`'s.
#![tactic(auto)]

mod asking;
mod counting;
mod dumping;
mod first_part;
mod joining;
mod making;
mod naming;
mod packing;
mod querying;
mod request;
mod uses;

use crate::counting::count_input;
use crate::dumping::dump_files;
use crate::joining::join_databases;
use crate::packing::pack_input;
use crate::querying::query_files;
use crate::uses::{asks_for, words_behind};
use kmc_device::Counted;
use kmc_join::{program, program_words};
use kmc_options::{arguments, asks_for_text};
use kmc_spectrum::spectrum_of;
use kmc_sum::TextReader;
use std::io;
use std::process::ExitCode;

fn main(rt: HostRuntime) -> ExitCode {
    let Ok(given) = arguments(&rt) else {
        let _ = rt.eprintln("kmc_db: out of memory");
        return ExitCode::from(1);
    };
    if let Some(words) = given {
        if asks_for_text(&words) {
            let mut writer = Counted::new(io::writer(&rt));
            return program_words(&rt, words, rt.reader(), &mut writer);
        }
        if asks_for(&words, "spectrum") {
            let mut reader = Counted::new(rt.stdin());
            let mut writer = Counted::new(io::writer(&rt));
            return spectrum_of(&rt, words_behind(words), &mut reader, &mut writer);
        }
        if asks_for(&words, "count") {
            let mut reader = Counted::new(rt.stdin());
            return count_input(&rt, words_behind(words), &mut reader);
        }
        if asks_for(&words, "pack") {
            let mut reader = Counted::new(TextReader(rt.stdin()));
            return pack_input(&rt, &words[1..], &mut reader);
        }
        if asks_for(&words, "dump") {
            let mut writer = Counted::new(io::writer(&rt));
            return dump_files(&rt, &words[1..], &mut writer);
        }
        let mut writer = Counted::new(io::writer(&rt));
        if let Some(status) = query_files(&rt, &words, rt.reader(), &mut writer) {
            return status;
        }
        let mut writer = Counted::new(io::writer(&rt));
        if let Some(status) = join_databases(&rt, rt.reader(), &mut writer) {
            return status;
        }
    }
    let mut writer = Counted::new(io::writer(&rt));
    program(&rt, rt.reader(), &mut writer)
}
