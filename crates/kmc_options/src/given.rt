//! From the matches of a command line to the settings of a run.
ghost use Rattle.std.specs.Prelude.{◌≡◌, IfSome, MatchResult, Some, None, is_some, option_map};
ghost use Rattle.clap.specs.Words.{first_of, found_of, rows_of};
ghost use Rattle.kmc_options.specs.CommandLine.{format_of, given_text, is_set, strands_of, value_of};
ghost use Rattle.kmc_options.specs.Options.{AreGiven, Faults, first_out_of_range};
ghost use Rattle.kmc_options.specs.Kept.{HasAskedSignatures, HasUsualQueue};
ghost use Rattle.kmc_options.specs.Settings.{IsFor};
ghost use Rattle.kmc_options.specs.declared.error.ParamsError.TheVariants.{Usage};

use crate::error::ParamsError;
use crate::named::{Flag, Named, OPTIONS};
use crate::run_params::Params;
use crate::setting::Setting;
use clap::ArgMatches;
use kmc_base::Strands;
use kmc_count::Limits;
use kmc_reads::Format;

/// The settings, or the first fault in the order of [`OPTIONS`](crate::named::OPTIONS) after the format's.
pub fn given(matches: &ArgMatches<'_>) -> Result<Params, ParamsError>
    ensures { MatchResult result
        (λ r. AreGiven (rows_of (found_of matches.now)) r × HasAskedSignatures r
        × HasUsualQueue r)
        (Faults (rows_of (found_of matches.now))) }
{
    let format = format(matches)?;
    if let Some(setting) = first_out_of_range(matches) {
        return Err(ParamsError::OutOfRange(setting));
    }
    let k = number(matches, Setting::K);
    let p = number(matches, Setting::P);
    let n = number(matches, Setting::N);
    let ci = number(matches, Setting::Ci);
    let cx = number(matches, Setting::Cx);
    let cs = number(matches, Setting::Cs);
    let sp = number(matches, Setting::Sp);
    let sr = number(matches, Setting::Sr);
    let limits = Limits { ci, cx, cs };
    let params = Params::new(
        format,
        k as usize,
        p as usize,
        n as usize,
        sp as usize,
        sr as usize,
        limits,
    );
    match params {
        Some(params) => Ok(params.with_strands(strands(matches))),
        None => unreachable!(),
    }
}

/// Whether the option stands.
pub(crate) fn is_given(matches: &ArgMatches<'_>, setting: Setting) -> bool
    ensures { result ≡ is_some (given_text (rows_of (found_of matches.now)) setting) }
{
    given_text(matches, setting.name()).is_some()
}

/// The first option whose value is out of range.
fn first_out_of_range(matches: &ArgMatches<'_>) -> Option<Setting>
    ensures { result ≡ first_out_of_range (rows_of (found_of matches.now)) }
{
    for setting in &OPTIONS {
        if value(matches, *setting).is_none() {
            return Some(*setting);
        }
    }
    None
}

/// The number of the option, where none is out of range.
fn number(matches: &ArgMatches<'_>, setting: Setting) -> u64
    requires { first_out_of_range (rows_of (found_of matches.now)) ≡ None }
    ensures value { value_of (rows_of (found_of matches.now)) setting ≡ Some result }
    ensures in_range { IsFor setting result }
{
    match value(matches, setting) {
        Some(number) => number,
        None => unreachable!(),
    }
}

/// The number of the option, given or by default, where it is in range.
fn value(matches: &ArgMatches<'_>, setting: Setting) -> Option<u64>
    ensures value { result ≡ value_of (rows_of (found_of matches.now)) setting }
    ensures in_range { IfSome result (IsFor setting) }
{
    setting.chosen(given_text(matches, setting.name()))
}

/// The format by its flags, of which at most one may stand.
fn format(matches: &ArgMatches<'_>) -> Result<Format, ParamsError>
    ensures { MatchResult result
        (λ f. format_of (rows_of (found_of matches.now)) ≡ Some f)
        (λ e. (format_of (rows_of (found_of matches.now)) ≡ None) × (e ≡ Usage)) }
{
    let fasta = is_set(matches, Flag::Fa);
    let fastq = is_set(matches, Flag::Fq);
    let multiline = is_set(matches, Flag::Fm);
    match (fasta, fastq, multiline) {
        (false, _, false) => Ok(Format::Fastq),
        (true, false, false) | (false, false, true) => Ok(Format::Fasta),
        _ => Err(ParamsError::Usage),
    }
}

/// Whether words are counted as read.
fn strands(matches: &ArgMatches<'_>) -> Strands
    ensures { result ≡ strands_of (rows_of (found_of matches.now)) }
{
    if is_set(matches, Flag::B) {
        Strands::Apart
    } else {
        Strands::Joined
    }
}

// `clap` gives a flag that stands the value `true`.
fn is_set(matches: &ArgMatches<'_>, flag: Flag) -> bool
    ensures { result ≡ is_set (rows_of (found_of matches.now)) flag }
{
    match given_text(matches, flag.name()) {
        Some(text) => "true" == text,
        None => false,
    }
}

fn given_text<'a>(matches: &ArgMatches<'a>, id: &str) -> Option<&'a str>
    ensures { option_map (λ text. text.now) result
        ≡ first_of id.now (rows_of (found_of matches.now)) }
{
    matches.get_str(id)
}
