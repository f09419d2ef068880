use kmc_options::{Ending, Fault, ParamsError, RunError, Setting};
use kmc_reads::ReadsError;
use std::alloc::Global;
use std::fmt::Display;
use std::process::Abort;

fn shows(rt: &(impl Abort + Alloc<A = Global>), fault: Fault, line: &str, status: u8) {
    let shown = fault.to_string(rt.alloc()).expect(rt, "memory");
    assert_eq!(rt; (shown.as_str(), fault.status()), (line, status));
}

/// Asserts that a value out of range is told by the name of its option.
fn shows_option(rt: &(impl Abort + Alloc<A = Global>), name: &str, setting: Setting) {
    let line = format!(in rt.alloc(); "kmc: value of -{name} is out of range").expect(rt, "memory");
    let fault = Fault::Options(ParamsError::OutOfRange(setting));
    shows(rt, fault, line.as_str(), 2);
}

#[test]
fn wrong_usage_shows_the_usage_and_ends_with_2(rt: HostRuntime) {
    let line =
        "usage: kmc [-fa|-fq|-fm] [-k<len>] [-p<len>] [-ci<n>] [-cx<n>] [-cs<n>] [-n<bins>] [-sp<n>] [-sr<n>] [-b]";
    shows(&rt, Fault::Options(ParamsError::Usage), line, 2);
}

#[test]
fn a_value_out_of_range_is_told_by_its_option_and_ends_with_2(rt: HostRuntime) {
    for (name, setting) in [
        ("k", Setting::K),
        ("p", Setting::P),
        ("n", Setting::N),
        ("ci", Setting::Ci),
        ("cx", Setting::Cx),
        ("cs", Setting::Cs),
        ("sp", Setting::Sp),
        ("sr", Setting::Sr),
    ] {
        shows_option(&rt, name, setting);
    }
}

#[test]
fn want_of_memory_ends_with_1(rt: HostRuntime) {
    shows(
        &rt,
        Fault::Options(ParamsError::Memory),
        "kmc: out of memory",
        1,
    );
}

#[test]
fn a_run_that_gives_up_shows_its_cause_and_ends_with_1(rt: HostRuntime) {
    let told = [
        (RunError::Memory, "kmc: out of memory"),
        (RunError::Read, "kmc: read failed"),
        (RunError::Write, "kmc: write failed"),
        (RunError::TooLong, "kmc: input too long"),
        (
            RunError::Input(ReadsError::BadHeader(1)),
            "kmc: line 1: bad header",
        ),
        (
            RunError::Input(ReadsError::BadPlus(20)),
            "kmc: line 20: bad plus line",
        ),
        (
            RunError::Input(ReadsError::QualityLength(4)),
            "kmc: line 4: quality length differs",
        ),
        (
            RunError::Input(ReadsError::Truncated(u64::MAX)),
            "kmc: line 18446744073709551615: record cut short",
        ),
    ];
    for (error, line) in told {
        shows(&rt, Fault::Run(error), line, 1);
    }
}

/// Asserts that the line of a fault is the text of its cause, behind the name of the program where the text has none.
fn shows_text<E: Display + Drop>(
    rt: &(impl Abort + Alloc<A = Global>),
    fault: Fault,
    name: &str,
    cause: E,
) {
    let text = format!(in rt.alloc(); "{name}{cause}").expect(rt, "memory");
    shows(rt, fault, text.as_str(), fault.status());
}

#[test]
fn each_refusal_of_a_command_line_has_the_text_that_is_shown(rt: HostRuntime) {
    for error in [ParamsError::Usage, ParamsError::Memory] {
        shows_text(&rt, Fault::Options(error), "", error);
    }
    for setting in [
        Setting::K,
        Setting::P,
        Setting::N,
        Setting::Ci,
        Setting::Cx,
        Setting::Cs,
        Setting::Sp,
        Setting::Sr,
    ] {
        let error = ParamsError::OutOfRange(setting);
        shows_text(&rt, Fault::Options(error), "", error);
    }
}

#[test]
fn each_refusal_of_a_run_has_the_text_that_is_shown(rt: HostRuntime) {
    for error in [
        RunError::Memory,
        RunError::Read,
        RunError::Write,
        RunError::Input(ReadsError::BadPlus(3)),
        RunError::TooLong,
    ] {
        shows_text(&rt, Fault::Run(error), "kmc: ", error);
    }
}

#[test]
fn each_refusal_of_a_text_has_the_text_that_is_shown(rt: HostRuntime) {
    for error in [
        ReadsError::Memory,
        ReadsError::BadHeader(1),
        ReadsError::BadPlus(20),
        ReadsError::QualityLength(4),
        ReadsError::Truncated(u64::MAX),
    ] {
        shows_text(&rt, Fault::Run(RunError::Input(error)), "kmc: ", error);
    }
}
