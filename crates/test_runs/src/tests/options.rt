use crate::tests::texts::words_of;
use kmc_base::Strands;
use kmc_options::{
    Params, ParamsError, Program, Setting, params, settings as program_settings, words,
};
use kmc_reads::Format;
use std::alloc::{AllocError, Global};
use std::process::Abort;

fn settings(alloc: Global, line: &str) -> Result<Params, ParamsError> {
    params(alloc, words(alloc, words_of(alloc, line)?)?)
}

/// The settings that the line gives.
fn given(rt: &(impl Abort + Alloc<A = Global>), line: &str) -> Params {
    settings(rt.alloc(), line).expect(rt, line)
}

/// This word alone.
fn one_word(alloc: Global, word: &str) -> Result<Vec<String>, AllocError> {
    let mut words = Vec::new(alloc);
    words.push(String::from_str(alloc, word)?)?;
    Ok(words)
}

fn becomes(rt: &(impl Abort + Alloc<A = Global>), given: &str, long: &str) {
    let given = one_word(rt.alloc(), given).expect(rt, "memory");
    let words = words(rt.alloc(), given).expect(rt, "memory");
    assert_eq!(rt; words, one_word(rt.alloc(), long).expect(rt, "memory"));
}

fn refuses(rt: &(impl Abort + Alloc<A = Global>), line: &str, error: ParamsError) {
    assert_eq!(rt; settings(rt.alloc(), line).err(), Some(error), "{line}");
}

fn is_usage(rt: &(impl Abort + Alloc<A = Global>), line: &str) {
    refuses(rt, line, ParamsError::Usage);
}

fn is_out_of_range(rt: &(impl Abort + Alloc<A = Global>), line: &str, setting: Setting) {
    refuses(rt, line, ParamsError::OutOfRange(setting));
}

/// Asserts that each of these words alone is out of the setting's range.
fn are_out_of_range(rt: &(impl Abort + Alloc<A = Global>), words: &str, setting: Setting) {
    for word in words.split_whitespace() {
        is_out_of_range(rt, word, setting);
    }
}

/// Asserts that the line asks for the format.
fn has_format(rt: &(impl Abort + Alloc<A = Global>), line: &str, format: Format) {
    let same = matches!(
        (given(rt, line).format, format),
        (Format::Fasta, Format::Fasta) | (Format::Fastq, Format::Fastq)
    );
    assert!(rt; same, "{line}");
}

#[test]
fn glued_words_become_long_forms(rt: HostRuntime) {
    let table = [
        ("-ci3", "--ci=3"),
        ("-k31", "--k=31"),
        ("-fq", "--fq"),
        ("-fa", "--fa"),
        ("-fm", "--fm"),
        ("-b", "--b"),
        ("-cx7", "--cx=7"),
        ("-cs7", "--cs=7"),
        ("-sp7", "--sp=7"),
        ("-sr7", "--sr=7"),
        ("-p7", "--p=7"),
        ("-n7", "--n=7"),
        ("-kx", "--k=x"),
        ("-k=5", "--k==5"),
        ("-kß", "--k=ß"),
    ];
    for (given, long) in table {
        becomes(&rt, given, long);
    }
}

#[test]
fn other_words_stay(rt: HostRuntime) {
    let table = [
        "-k", "-ci", "-sp", "-fast", "--k", "--k=31", "-bx", "-c3", "-s3", "-", "--", "", "k31",
        "reads.fq", "-ßk3",
    ];
    for word in table {
        becomes(&rt, word, word);
    }
}

#[test]
fn the_order_of_words_stays(rt: HostRuntime) {
    let words = words(
        rt.alloc(),
        words_of(rt.alloc(), "-b x -k3 -k").expect(&rt, "memory"),
    );
    let long = words_of(rt.alloc(), "--b x --k=3 -k").expect(&rt, "memory");
    assert!(rt; words.expect(&rt, "memory") == long);
}

/// The numbers of k, p, n, ci, cx, cs, sp and sr, and those of readers, of parts a writer and of reads a splitter.
fn numbers_of(given: &Params) -> [u64; 11] {
    [
        given.k as u64,
        given.asked_signature_length as u64,
        given.bins as u64,
        given.limits.ci,
        given.limits.cx,
        given.limits.cs,
        given.splitters as u64,
        given.counters as u64,
        given.readers as u64,
        given.per_writer as u64,
        given.batch as u64,
    ]
}

#[test]
fn no_option_means_the_defaults(rt: HostRuntime) {
    let given = given(&rt, "");
    let told = (given.format, given.strands);
    assert!(rt; matches!(told, (Format::Fastq, Strands::Joined)));
    assert_eq!(rt;
        numbers_of(&given),
        [25, 9, 512, 2, 1_000_000_000, 255, 2, 2, 1, 8, 1024]
    );
}

/// The symbols of the signatures of a run of the program by this line.
fn length_of(rt: &(impl Abort + Alloc<A = Global>), line: &str) -> usize {
    let words = words_of(rt.alloc(), line).expect(rt, "memory");
    let params = program_settings(rt.alloc(), Program::Kmc, words).expect(rt, line);
    params.shape().m()
}

#[test]
fn the_program_chooses_the_length_of_signatures_where_none_is_asked_for(rt: HostRuntime) {
    for (line, length) in [
        ("", 8),
        ("-k8", 0),
        ("-k8 -p9", 8),
        ("-k12", 5),
        ("-k12 -p9", 9),
        ("-k25 -p5", 5),
        ("-p9", 9),
        ("-p10", 10),
        ("--p 11", 11),
        ("--p=9 -k64", 9),
    ] {
        assert_eq!(rt; length_of(&rt, line), length, "{line}");
    }
    assert_eq!(rt; given(&rt, "").shape().m(), 9);
}

#[test]
fn each_option_gives_its_own_setting(rt: HostRuntime) {
    let line = "-fa -k31 -p7 -n64 -ci3 -cx90 -cs80 -sp4 -sr5 -b";
    let given = given(&rt, line);
    let told = (given.format, given.strands);
    assert!(rt; matches!(told, (Format::Fasta, Strands::Apart)));
    assert_eq!(rt;
        numbers_of(&given),
        [31, 7, 64, 3, 90, 80, 4, 5, 1, 8, 1024]
    );
}

#[test]
fn one_format_may_be_asked_for(rt: HostRuntime) {
    has_format(&rt, "-fa", Format::Fasta);
    has_format(&rt, "-fm", Format::Fasta);
    has_format(&rt, "-fq", Format::Fastq);
}

#[test]
fn two_formats_are_wrong_usage(rt: HostRuntime) {
    for line in ["-fa -fq", "-fa -fm", "-fq -fm", "-fa -fq -fm", "-fa -fa"] {
        is_usage(&rt, line);
    }
}

#[test]
fn long_forms_and_leading_zeros_are_read(rt: HostRuntime) {
    for line in [
        "-k31",
        "-k031",
        "--k 31",
        "--k=31",
        "-k00000000000000000000000000000031",
    ] {
        assert_eq!(rt; given(&rt, line).k, 31);
    }
}

#[test]
fn each_limit_is_taken_at_both_edges(rt: HostRuntime) {
    let words =
        "-k1 -k64 -p5 -p11 -n1 -n2000 -ci0 -ci9223372036854775808 -cx0 -cx9223372036854775808 \
         -cs1 -cs9223372036854775808 -sp1 -sp16 -sr1 -sr16";
    for word in words.split_whitespace() {
        given(&rt, word);
    }
}

#[test]
fn each_limit_is_refused_past_its_edges(rt: HostRuntime) {
    for (setting, words) in [
        (Setting::K, "-k0 -k65 -k999999999999999999999999999999"),
        (Setting::P, "-p4 -p12"),
        (Setting::N, "-n0 -n2001"),
        (
            Setting::Ci,
            "-ci9223372036854775809 -ci18446744073709551616",
        ),
        (Setting::Cx, "-cx9223372036854775809"),
        (Setting::Cs, "-cs0 -cs9223372036854775809"),
        (Setting::Sp, "-sp0 -sp17"),
        (Setting::Sr, "-sr0 -sr17"),
    ] {
        are_out_of_range(&rt, words, setting);
    }
}

#[test]
fn a_value_is_digits_alone(rt: HostRuntime) {
    are_out_of_range(&rt, "-k+5 -k=5 -k2.5 -k٣ --k=", Setting::K);
    for (word, setting) in [
        ("-nx", Setting::N),
        ("-spx", Setting::Sp),
        ("-ci-3", Setting::Ci),
    ] {
        is_out_of_range(&rt, word, setting);
    }
}

#[test]
fn the_first_option_out_of_range_is_named(rt: HostRuntime) {
    is_out_of_range(&rt, "-p12 -k0", Setting::K);
    is_out_of_range(&rt, "-sr0 -sp0 -cs0 -cxx -cix -n0 -p0", Setting::P);
    is_out_of_range(&rt, "-sr0 -sp0 -cs0 -cxx -cix -n0", Setting::N);
    is_out_of_range(&rt, "-sr0 -sp0 -cs0 -cxx -cix", Setting::Ci);
    is_out_of_range(&rt, "-sr0 -sp0 -cs0 -cxx", Setting::Cx);
    is_out_of_range(&rt, "-sr0 -sp0 -cs0", Setting::Cs);
    is_out_of_range(&rt, "-sr0 -sp0", Setting::Sp);
}

#[test]
fn usage_is_judged_before_ranges(rt: HostRuntime) {
    is_usage(&rt, "-zz -k99");
    is_usage(&rt, "-k99 -zz");
    is_usage(&rt, "-k99 -fa -fq");
}

#[test]
fn an_option_stands_once_and_with_its_value(rt: HostRuntime) {
    let lines = "-k5 -k5|-p5 -p5|-n5 -n5|-ci5 -ci5|-cx5 -cx5|-cs5 -cs5|-sp5 -sp5|-sr5 -sr5|-b -b|\
                 -k5 --k=5|-k|-p|-n|-ci|-cx|-cs|-sp|-sr|--k|--p|--n|--ci|--cx|--cs|--sp|--sr|\
                 --fa=x|--b=|--ci -3";
    for line in lines.split('|') {
        is_usage(&rt, line);
    }
}

#[test]
fn other_words_are_wrong_usage(rt: HostRuntime) {
    let lines = "reads.fq|-h|--help|-V|--version|-fast|-bx|-m12|-sm|-t4|-sf1|-r|-v|-zz|--kk=5|-|\
                 -- reads.fq|help";
    for line in lines.split('|') {
        is_usage(&rt, line);
    }
}

#[test]
fn an_empty_word_is_wrong_usage(rt: HostRuntime) {
    let empty = one_word(rt.alloc(), "").expect(&rt, "memory");
    assert_eq!(rt; params(rt.alloc(), empty).err(), Some(ParamsError::Usage));
}

#[test]
fn two_hyphens_alone_say_nothing(rt: HostRuntime) {
    assert_eq!(rt; given(&rt, "--").k, 25);
}
