//! What a user is told, and how the program ends.
use crate::texts::{FASTQ, words_of};
use kmc_device::Counted;
use kmc_options::{Ending, Program, RunError, settings};
use kmc_packer::{PackReadsError, PackReadsMessage, pack_reads_told};
use kmc_reads::ReadsError;
use std::fmt::Display;
use std::process::ExitCode;

#[test]
fn a_refusal_is_told_with_its_number(rt: HostRuntime) {
    for (error, line, number) in [
        (
            PackReadsError::Prefix(31),
            "kmc_db: words of 31 symbols have no such first part",
            1,
        ),
        (
            PackReadsError::Count(RunError::Memory),
            "kmc_db: out of memory",
            2,
        ),
        (
            PackReadsError::Count(RunError::Read),
            "kmc_db: read failed",
            2,
        ),
        (
            PackReadsError::Count(RunError::Input(ReadsError::BadPlus(3))),
            "kmc_db: line 3: bad plus line",
            2,
        ),
        (
            PackReadsError::Count(RunError::TooLong),
            "kmc_db: input too long",
            2,
        ),
        (
            PackReadsError::TooGreat,
            "kmc_db: a k-mer occurs more often than the bytes of a count tell",
            3,
        ),
        (
            PackReadsError::WritePrefix,
            "kmc_db: db.kmc_pre: cannot be written",
            4,
        ),
        (
            PackReadsError::WriteSuffix,
            "kmc_db: db.kmc_suf: cannot be written",
            5,
        ),
        (PackReadsError::Memory, "kmc_db: out of memory", 6),
    ] {
        let message = PackReadsMessage {
            database: "db",
            error,
        };
        let shown = message.to_string(rt.alloc()).expect(&rt, "memory");
        assert_eq!(&rt;
            (shown.as_str(), message.status(), error.number()),
            (line, 1, number)
        );
    }
}

#[test]
fn the_program_ends_with_its_status(rt: HostRuntime) {
    for (words, first_part, status, suffix) in [
        ("-k1 -ci1", None, 0, b"KMCS\x04\x04KMCS".as_slice()),
        ("-k4", Some(3), 1, b"".as_slice()),
        ("-fa", None, 1, b"".as_slice()),
    ] {
        let argv = words_of(rt.alloc(), words).expect(&rt, "memory");
        let params = settings(rt.alloc(), Program::Kmc, argv).expect(&rt, words);
        let mut reader = Counted::new(FASTQ);
        let mut table = Counted::new(Vec::new(rt.alloc()));
        let mut rows = Counted::new(Vec::new(rt.alloc()));
        let ended = pack_reads_told(
            &rt,
            "db",
            &params,
            first_part,
            &mut reader,
            &mut table,
            &mut rows,
        );
        assert!(&rt; ended == ExitCode::from(status), "{words}");
        assert_eq!(&rt; rows.into_inner().as_slice(), suffix, "{words}");
    }
}
