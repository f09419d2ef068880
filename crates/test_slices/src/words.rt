//! Command lines of the programs that cut and list, and what they ask for.
use kmc_base::Strands;
use kmc_options::{
    CutRequest, CutRequestError, ListRequest, ListRequestError, Setting, cut_request, list_request,
};
use kmc_reads::Format;
use std::alloc::{AllocError, Global};
use std::process::Abort;

/// The words of a line.
pub(crate) fn words_of(alloc: Global, line: &str) -> Result<Vec<String>, AllocError> {
    let mut words = Vec::new(alloc);
    for word in line.split_whitespace() {
        words.push(String::from_str(alloc, word)?)?;
    }
    Ok(words)
}

fn cut_of(
    rt: &(impl Abort + Alloc<A = Global>),
    line: &str,
) -> Result<CutRequest, CutRequestError> {
    cut_request(rt.alloc(), words_of(rt.alloc(), line).expect(rt, "memory"))
}

fn list_of(
    rt: &(impl Abort + Alloc<A = Global>),
    line: &str,
) -> Result<ListRequest, ListRequestError> {
    list_request(rt.alloc(), words_of(rt.alloc(), line).expect(rt, "memory"))
}

/// Asserts that the line asks for a cut into so many slices, of this prefix, of words of so many symbols.
fn cuts(
    rt: &(impl Abort + Alloc<A = Global>),
    line: &str,
    slices: u64,
    prefix: &str,
    k: usize,
    force: bool,
) {
    let request = cut_of(rt, line).expect(rt, line);
    assert_eq!(rt; request.slices, slices, "{line}");
    assert_eq!(rt; request.prefix.as_str(), prefix, "{line}");
    assert_eq!(rt; (request.params.k, request.force), (k, force), "{line}");
}

fn cuts_not(rt: &(impl Abort + Alloc<A = Global>), line: &str, error: CutRequestError) {
    assert_eq!(rt; cut_of(rt, line).err(), Some(error), "{line}");
}

fn lists_not(rt: &(impl Abort + Alloc<A = Global>), line: &str, error: ListRequestError) {
    assert_eq!(rt; list_of(rt, line).err(), Some(error), "{line}");
}

#[test]
fn slices_are_asked_for_glued_or_in_long_form(rt: HostRuntime) {
    for line in [
        "-slices8 part",
        "part -slices8",
        "--slices 8 part",
        "--slices=8 part",
        "part --slices 8",
        "-slices008 part",
    ] {
        cuts(&rt, line, 8, "part", 25, false);
    }
    cuts(&rt, "--slices 8 --k 31 part", 8, "part", 31, false);
    cuts(&rt, "--k 31 --slices=8 --force part", 8, "part", 31, true);
    cuts(&rt, "--force part -slices8 -k31", 8, "part", 31, true);
}

#[test]
fn options_of_the_cut_are_kept(rt: HostRuntime) {
    let line = "-fa -k31 -p7 -n64 -sp4 -slices64 a/b.c";
    let request = cut_of(&rt, line).expect(&rt, line);
    let params = &request.params;
    assert!(rt; matches!(params.format, Format::Fasta));
    assert_eq!(rt;
        [
            params.k,
            params.asked_signature_length,
            params.bins,
            params.splitters
        ],
        [31, 7, 64, 4]
    );
    assert_eq!(rt; (request.slices, request.prefix.as_str()), (64, "a/b.c"));
}

#[test]
fn no_cut_is_asked_for_by_other_words(rt: HostRuntime) {
    for line in [
        "",
        "part",
        "-slices8",
        "--slices part",
        "--slices 8",
        "-slices8 one two",
        "-slices8 -slices8 part",
        "-slices8 --slices=9 part",
        "-slices8 -ci2 part",
        "-slices8 --ci 2 part",
        "-slices8 -cx9 part",
        "-slices8 -cs9 part",
        "-slices8 -sr2 part",
        "-slices8 --sr=2 part",
        "-slices8 -b part",
        "-slices8 --b part",
        "-slices8 -x part",
        "-slices8 - part",
        "-slices8 -k31 -k31 part",
        "-slices8 -fa -fq part",
        "-slices8 --force=1 part",
    ] {
        cuts_not(&rt, line, CutRequestError::Usage);
    }
}

#[test]
fn slices_out_of_range_are_told(rt: HostRuntime) {
    for line in [
        "-slices part",
        "-slices0 part",
        "-slices=8 part",
        "-slicesx part",
        "-slices+8 part",
        "-n2000 -slices1001 part",
        "-n2000 --slices 1001 part",
        "-slices18446744073709551617 part",
        "-n7 -slices8 part",
        "-slices513 part",
    ] {
        cuts_not(&rt, line, CutRequestError::Slices);
    }
    cuts(&rt, "-n2000 -slices1000 part", 1000, "part", 25, false);
    cuts(&rt, "-n7 -slices7 part", 7, "part", 25, false);
    cuts(&rt, "-n1 -slices1 part", 1, "part", 25, false);
    cuts(&rt, "-slices512 part", 512, "part", 25, false);
}

/// Usage is judged first, then the options of a run, then the slices.
#[test]
fn of_several_faults_the_first_kind_is_told(rt: HostRuntime) {
    let out = CutRequestError::OutOfRange(Setting::K);
    cuts_not(&rt, "-k65 -slices8 part", out);
    cuts_not(&rt, "-slices0 --k 0 part", out);
    cuts_not(&rt, "-k65 -slices0 one two", CutRequestError::Usage);
    cuts_not(
        &rt,
        "-n2001 -slices1001 part",
        CutRequestError::OutOfRange(Setting::N),
    );
}

#[test]
fn files_are_listed_by_limits_strands_and_threads(rt: HostRuntime) {
    for line in [
        "a.0 -ci3 b.0 -cx90 -cs80 -sr5 -b",
        "--ci 3 --cx 90 a.0 --cs=80 --sr 5 --b b.0",
    ] {
        let request = list_of(&rt, line).expect(&rt, line);
        let params = &request.params;
        assert_eq!(rt;
            [params.limits.ci, params.limits.cx, params.limits.cs],
            [3, 90, 80]
        );
        assert!(rt; (params.counters, params.strands) == (5, Strands::Apart));
        assert_eq!(rt; request.files.len(), 2);
        assert_eq!(rt; request.files[0].as_str(), "a.0");
        assert_eq!(rt; request.files[1].as_str(), "b.0");
    }
}

#[test]
fn no_list_is_asked_for_by_other_words(rt: HostRuntime) {
    for line in [
        "",
        "-ci2",
        "--ci a.0",
        "-slices8 a.0",
        "--slices 8 a.0",
        "--force a.0",
        "-k31 a.0",
        "--k 31 a.0",
        "-p7 a.0",
        "-n64 a.0",
        "-sp2 a.0",
        "-fa a.0",
        "--fq a.0",
        "-ci2 -ci2 a.0",
        "-x a.0",
    ] {
        lists_not(&rt, line, ListRequestError::Usage);
    }
    lists_not(&rt, "-cs0 a.0", ListRequestError::OutOfRange(Setting::Cs));
    lists_not(&rt, "-sr17 a.0", ListRequestError::OutOfRange(Setting::Sr));
}
