//! What the command line names: options that take a number, and flags.
ghost use Rattle.std.specs.Prelude.{◌≡◌, ℕ, List};
ghost use Rattle.clap.specs.declared.builder.action.ArgAction.{ArgAction};
ghost use Rattle.clap.specs.declared.builder.action.ArgAction.TheVariants.{Set, SetTrue};
ghost use Rattle.kmc_options.specs.Names.{flag_name, name_of};

use crate::setting::Setting;
use clap::ArgAction;

/// What stands behind two hyphens.
pub trait Named: Copy {
    ghost known_as: { Self → List ℕ };

    ghost action: { ArgAction };

    /// The name without its hyphens.
    fn name(self) -> &'static str
        ensures { result.now ≡ known_as self };

    /// Whether a value follows.
    fn action() -> ArgAction
        ensures { result ≡ action };
}

/// The options, in the order in which their values are judged.
pub const OPTIONS: [Setting; 8] = [
    Setting::K,
    Setting::P,
    Setting::N,
    Setting::Ci,
    Setting::Cx,
    Setting::Cs,
    Setting::Sp,
    Setting::Sr,
];

impl Named for Setting {
    ghost known_as = { name_of };

    ghost action = { Set };

    fn name(self) -> &'static str {
        match self {
            Setting::K => "k",
            Setting::P => "p",
            Setting::N => "n",
            Setting::Ci => "ci",
            Setting::Cx => "cx",
            Setting::Cs => "cs",
            Setting::Sp => "sp",
            Setting::Sr => "sr",
        }
    }

    fn action() -> ArgAction {
        ArgAction::Set
    }
}

/// An option of the command line that stands or does not.
#[derive(Clone, Copy)]
pub enum Flag {
    /// The input is FASTA.
    Fa,
    /// The input is FASTQ.
    Fq,
    /// The input is FASTA whose sequences may take several lines, which is read as [`Flag::Fa`].
    Fm,
    /// Words are counted as read, and not together with their reverse complements.
    B,
}

/// The flags.
pub const FLAGS: [Flag; 4] = [Flag::Fa, Flag::Fq, Flag::Fm, Flag::B];

impl Named for Flag {
    ghost known_as = { flag_name };

    ghost action = { SetTrue };

    fn name(self) -> &'static str {
        match self {
            Flag::Fa => "fa",
            Flag::Fq => "fq",
            Flag::Fm => "fm",
            Flag::B => "b",
        }
    }

    fn action() -> ArgAction {
        ArgAction::SetTrue
    }
}
