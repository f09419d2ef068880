//! The programs, and the options that each of them takes.
ghost use Rattle.std.specs.Prelude.{◌≡◌};

use crate::named::{FLAGS, Flag, OPTIONS};
use crate::setting::Setting;

/// A program that takes options.
#[derive(Clone, Copy, Debug, PartialEq, Eq)]
pub enum Program {
    /// Counts the words of reads.
    Kmc,
    /// Merges dumps.
    KmcMerge,
    /// Cuts reads into slices.
    KmcCut,
    /// Lists a slice.
    KmcList,
    /// Joins two dumps, or tells how their counts are spread.
    KmcDb,
}

const LIMIT_OPTIONS: [Setting; 3] = [Setting::Ci, Setting::Cx, Setting::Cs];

const CUT_OPTIONS: [Setting; 4] = [Setting::K, Setting::P, Setting::N, Setting::Sp];

const CUT_FLAGS: [Flag; 3] = [Flag::Fa, Flag::Fq, Flag::Fm];

const LIST_OPTIONS: [Setting; 4] = [Setting::Ci, Setting::Cx, Setting::Cs, Setting::Sr];

const LIST_FLAGS: [Flag; 1] = [Flag::B];

impl Program {
    ghost use Rattle.kmc_options.specs.Names.{flags_of, settings_of, usage_of};

    /// The usage line, with the program's options and flags.
    pub fn usage(self) -> &'static str
        ensures { result.now ≡ usage_of self }
    {
        match self {
            Program::Kmc => {
                "usage: kmc [-fa|-fq|-fm] [-k<len>] [-p<len>] [-ci<n>] [-cx<n>] [-cs<n>] [-n<bins>] [-sp<n>] [-sr<n>] [-b]"
            }
            Program::KmcMerge => "usage: kmc_merge [-ci<n>] [-cx<n>] [-cs<n>] a.dump b.dump ..",
            Program::KmcCut => {
                "usage: kmc_cut [-fa|-fq|-fm] [-k<len>] [-p<len>] [-n<bins>] [-sp<n>] -slices<S> [--force] <prefix>"
            }
            Program::KmcList =>
                "usage: kmc_list [-ci<n>] [-cx<n>] [-cs<n>] [-sr<n>] [-b] <file> ..",
            Program::KmcDb => {
                "usage: kmc_db union|intersect|subtract|counters-subtract [-oc<choice>] [-ci<n>] [-cx<n>] [-cs<n>] a.dump b.dump, \
                or kmc_db table [-cs<n>] a.dump b.dump, or kmc_db histogram a.dump, or kmc_db query [-b] a.dump|<name> < words"
            }
        }
    }

    /// The options that take a number, in the order in which their values are judged.
    pub(crate) fn options(self) -> &'static [Setting]
        ensures { result.now ≡ settings_of self }
    {
        match self {
            Program::Kmc => &OPTIONS,
            Program::KmcMerge => &LIMIT_OPTIONS,
            Program::KmcCut => &CUT_OPTIONS,
            Program::KmcList => &LIST_OPTIONS,
            Program::KmcDb => &LIMIT_OPTIONS,
        }
    }

    /// The flags.
    pub(crate) fn flags(self) -> &'static [Flag]
        ensures { result.now ≡ flags_of self }
    {
        match self {
            Program::Kmc => &FLAGS,
            Program::KmcMerge => &[],
            Program::KmcCut => &CUT_FLAGS,
            Program::KmcList => &LIST_FLAGS,
            Program::KmcDb => &[],
        }
    }
}
