//! The command that reads words in long form.
ghost use Rattle.std.specs.Prelude.{◌≡◌, ◌⊎◌, IfOk, MatchResult, false, map, string_bytes, true};
ghost use Rattle.std.specs.List.{fold};
ghost use Rattle.clap.specs.declared.error.kind.ErrorKind.TheVariants.{OutOfMemory};
ghost use Rattle.clap.specs.Words.{app_of, found_of, rows_of, rule_of as rule_of_arg, with_rule};
ghost use Rattle.kmc_options.specs.CommandLine.{command, found, is_accepted, plain, rule_of};
ghost use Rattle.kmc_options.specs.Parsed.{FailsAs};
ghost use Rattle.kmc_options.specs.declared.error.ParamsError.TheVariants.{Memory, Usage};

use crate::error::ParamsError;
use crate::named::Named;
use crate::program::Program;
use clap::error::ErrorKind;
use clap::{Arg, ArgMatches, Command};
use std::alloc::{AllocError, Global};

/// What `clap` finds in the words of a program.
pub fn parse<'a>(
    alloc: Global,
    program: Program,
    words: &'a [String],
) -> Result<ArgMatches<'a>, ParamsError>
    ensures { MatchResult result
        (λ m. (is_accepted program (map string_bytes words.entry.now) ≡ true)
        × (rows_of (found_of m) ≡ found program (map string_bytes words.entry.now)))
        (FailsAs program (map string_bytes words.entry.now)) }
{
    let Ok(command) = command(alloc, program) else {
        return Err(ParamsError::Memory);
    };
    match command.try_get_matches_from(words) {
        Ok(matches) => Ok(matches),
        Err(error) => Err(fault(error.kind())),
    }
}

// Every fault but want of memory is one of the words.
fn fault(kind: ErrorKind) -> ParamsError
    ensures memory { kind ≡ OutOfMemory → result ≡ Memory }
    ensures usage { (kind ≡ OutOfMemory) ⊎ (result ≡ Usage) }
{
    match kind {
        ErrorKind::OutOfMemory => ParamsError::Memory,
        _ => ParamsError::Usage,
    }
}

fn command<'a>(alloc: Global, program: Program) -> Result<Command<'a>, AllocError>
    ensures { IfOk result (λ r. app_of r ≡ command program) }
{
    let Ok(with_options) = with_each(alloc, plain(alloc), program.options()) else {
        return Err(AllocError);
    };
    with_each(alloc, with_options, program.flags())
}

// The command without its options and flags.
fn plain<'a>(alloc: Global) -> Command<'a>
    ensures { app_of result ≡ plain }
{
    Command::new(alloc, "kmc")
        .no_binary_name(true)
        .disable_help_flag(true)
        .disable_version_flag(true)
}

fn with_each<'a, N: Named>(
    alloc: Global,
    plain: Command<'a>,
    all: &[N],
) -> Result<Command<'a>, AllocError>
    ensures { IfOk result (λ r. app_of r
        ≡ fold with_rule (app_of plain.entry)
        (map (λ n. rule_of N.action (N.known_as n)) all.now)) }
{
    let mut command = plain;
    for named in all {
        let Ok(longer) = command.arg(argument(alloc, *named)) else {
            return Err(AllocError);
        };
        command = longer;
    }
    Ok(command)
}

// The argument with the name's rule; it is no argument of subcommands.
fn argument<'a, N: Named>(alloc: Global, named: N) -> Arg<'a>
    ensures rule { rule_of_arg result ≡ rule_of N.action (N.known_as named) }
    ensures local { result.global ≡ false }
{
    let name: &'a str = named.name();
    Arg::new(alloc, name).long(name).action(N::action())
}
