//! The command line: KMC's glued options put into long form, and the settings that they give.
ghost use Rattle.std.specs.Prelude.{◌≡◌, IfErr, IfOk, MatchResult, None, if◌then◌else◌, is_some, map, min, string_bytes, true};
ghost use Rattle.kmc_options.specs.CommandLine.{found, given_text};
ghost use Rattle.kmc_options.specs.Glued.{long_forms};
ghost use Rattle.kmc_options.specs.Options.{AreGiven, Explains, HasProgramQueue, HasProgramSignatures, first_out_of_range, is_taken};
ghost use Rattle.kmc_options.specs.Kept.{HasAskedSignatures, HasUsualQueue, KeepsOptions};
ghost use Rattle.kmc_options.specs.Ranges.{fitting_length};
ghost use Rattle.kmc_options.specs.declared.setting.Setting.TheVariants.{P};
ghost use Rattle.kmc_options.specs.declared.error.ParamsError.TheVariants.{Memory};

use crate::command::parse;
use crate::error::ParamsError;
use crate::given::{given, is_given};
use crate::glued::long_form;
use crate::program::Program;
use crate::run_params::Params;
use crate::setting::Setting;
use std::alloc::{AllocError, Global};

/// The command line in long form, word by word: KMC's `-k31` becomes `--k=31`, its `-fa` becomes
/// `--fa`, and every word that is no glued option or flag stays. Fails only for want of memory.
pub fn words(alloc: Global, argv: Vec<String>) -> Result<Vec<String>, AllocError>
    ensures { IfOk result (λ r.
        map string_bytes r.items ≡ long_forms (map string_bytes argv.items)) }
{
    let mut words = Vec::with_capacity(alloc, argv.len())?;
    for word in argv {
        words.push(long_form(alloc, word)?)?;
    }
    Ok(words)
}

/// The settings that a command line of a program gives in long form, and whether `-p` stands in it.
fn asked(alloc: Global, program: Program, words: &[String]) -> Result<(Params, bool), ParamsError>
    ensures answer { let texts = map string_bytes words.now in MatchResult result
        (λ r. (is_taken program texts ≡ true) × AreGiven (found program texts) r.0 × HasAskedSignatures r.0
        × HasUsualQueue r.0 × (r.1 ≡ is_some (given_text (found program texts) P)))
        (Explains program texts) }
    ensures complete { let texts = map string_bytes words.now in
        is_taken program texts ≡ true → first_out_of_range (found program texts) ≡ None
        → IfErr result (λ e. e ≡ Memory) }
{
    let matches = parse(alloc, program, words)?;
    let params = given(&matches)?;
    Ok((params, is_given(&matches, Setting::P)))
}

/// The settings that a command line of `kmc` gives in long form; an option that it leaves out has its
/// default. The refusals are judged in this order: words that the command does not take, an option
/// that is given twice or without its value, more than one format (Usage); then the first of k, p,
/// n, ci, cx, cs, sp, sr whose value is no number or out of its range (OutOfRange). A number is one
/// or more ASCII digits.
pub fn params(alloc: Global, words: Vec<String>) -> Result<Params, ParamsError>
    ensures answer { let texts = map string_bytes words.items in MatchResult result
        (λ r. (is_taken Program.Kmc texts ≡ true) × AreGiven (found Program.Kmc texts) r × HasAskedSignatures r
        × HasUsualQueue r)
        (Explains Program.Kmc texts) }
    ensures complete { let texts = map string_bytes words.items in
        is_taken Program.Kmc texts ≡ true → first_out_of_range (found Program.Kmc texts) ≡ None
        → IfErr result (λ e. e ≡ Memory) }
{
    let (params, _is_length_asked) = asked(alloc, Program::Kmc, words.as_slice())?;
    Ok(params)
}

/// The threads that store parts: one keeps up with four that cut reads.
const STORERS: usize = 1;

/// The parts that one splitter may have in the queue.
const WAITING_PARTS: usize = 64;

/// The reads of a round for each splitter: fewer make many small parts.
const SPLITTER_READS: usize = 65536;

/// The same run with signatures as they are asked for, or as they fit best.
fn with_signatures(params: Params, are_asked: bool) -> Params
    requires { HasAskedSignatures params }
    ensures length { result.signature_length
        ≡ (if are_asked then min params.asked_signature_length params.k else fitting_length params.k) }
    ensures kept { (result.strands ≡ params.strands) × KeepsOptions params result }
{
    if are_asked {
        params
    } else {
        params.with_fitting_signatures()
    }
}

/// The settings of a run that the words of a program's command line give, glued or in long form, with the program's own queue, and with
/// signatures of the length that fits best where `-p` does not stand.
pub fn settings(alloc: Global, program: Program, argv: Vec<String>) -> Result<Params, ParamsError>
    ensures answer { let texts = long_forms (map string_bytes argv.items) in MatchResult result
        (λ r. (is_taken program texts ≡ true) × AreGiven (found program texts) r
        × HasProgramSignatures (found program texts) r × HasProgramQueue r)
        (Explains program texts) }
    ensures complete { let texts = long_forms (map string_bytes argv.items) in
        is_taken program texts ≡ true → first_out_of_range (found program texts) ≡ None
        → IfErr result (λ e. e ≡ Memory) }
{
    let words = words(alloc, argv)?;
    let (asked, is_length_asked) = asked(alloc, program, words.as_slice())?;
    let params = with_signatures(asked, is_length_asked);
    match params.with_queue(STORERS, WAITING_PARTS, SPLITTER_READS) {
        Some(params) => Ok(params),
        None => unreachable!(),
    }
}
