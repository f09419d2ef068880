//! The header of a database, read.
ghost use Rattle.std.specs.Prelude.{◌≡◌, length, MatchOption, MatchResult, Some};
ghost use Rattle.kmc_database.specs.Header.{HaveNoLayout, IsFormFault, IsHeaderOf, IsLayoutIn};
ghost use Rattle.kmc_database.specs.Messages.{text_of_form_fault};

use crate::header::HEADER;
use crate::layout::{Layout, layout_for};
use crate::number::number_at;
use std::fmt;

/// How words and counts lie in a database, and how many rows it has.
#[derive(Clone, Copy, Debug, PartialEq, Eq)]
pub struct Header {
    pub layout: Layout,
    pub rows: u64,
}

/// Why bytes are no header of a database in KMC 1's form.
#[derive(Clone, Copy, Debug, PartialEq, Eq)]
pub enum FormFault {
    /// They do not end with `KMCP`.
    Marker,
    /// They are of the form of KMC 2 and 3, which `kmc_tools transform NAME sort` turns into this one.
    Newer,
    /// Their version is neither of this form nor of the newer one.
    Version,
    /// They tell another length of the header.
    Size,
    /// Their counts are no whole numbers.
    Mode,
    /// Words have 1 to 64 symbols, first parts 1 to 15 and no more than a word, a multiple of four is left, and counts have 1 to 4 bytes.
    NoLayout,
}

impl FormFault {
    ghost use Rattle.kmc_database.specs.RefusalNumbers.{number_of_form_fault};

    /// The number of the refusal, as docs/REFUSALS.md lists it.
    pub fn number(&self) -> u8
        ensures { result ≡ number_of_form_fault self.now }
    {
        match self {
            FormFault::Marker => 1,
            FormFault::Newer => 2,
            FormFault::Version => 3,
            FormFault::Size => 4,
            FormFault::Mode => 5,
            FormFault::NoLayout => 6,
        }
    }
}

impl fmt::Display for FormFault {
    ghost output = { λ e. Some (text_of_form_fault e) };

    fn fmt<W: fmt::Write>(&self, f: &mut fmt::Formatter<W>) -> fmt::Result {
        match self {
            FormFault::Marker => write!(f, "the prefix file does not end with its marker"),
            FormFault::Newer => write!(
                f,
                "the database is in the form of KMC 2 and 3: kmc_tools transform NAME sort OTHER writes it in this one"
            ),
            FormFault::Version => write!(f, "the database has an unknown version"),
            FormFault::Size => write!(f, "the header has another length"),
            FormFault::Mode => write!(f, "the database has an unknown mode"),
            FormFault::NoLayout => write!(
                f,
                "the header has no lengths of words, first parts and counts that fit"
            ),
        }
    }
}

/// `KMCP` as a number.
const MARKER: u64 = 1346587979;

/// The version of the form of KMC 2 and 3.
const NEWER: u64 = 512;

/// The bytes of a header without the number that tells them and the marker.
const SIZE: u64 = 64;

/// The layout that the header tells, where there is one.
fn layout_in(bytes: &[u8]) -> Option<Layout>
    requires { length bytes.now ≡ HEADER }
    ensures { MatchOption result (HaveNoLayout bytes.now) (IsLayoutIn bytes.now) }
{
    let k = number_at(bytes, 0, 4);
    let counter = number_at(bytes, 8, 4);
    let prefix = number_at(bytes, 12, 4);
    layout_for(k as usize, Some(prefix as usize), counter as usize)
}

/// The header that the last 72 bytes of a prefix file are. Of several causes of a refusal that of the first variant is answered.
pub fn read_header(bytes: &[u8]) -> Result<Header, FormFault>
    requires { length bytes.now ≡ HEADER }
    ensures { MatchResult result (IsHeaderOf bytes.now) (IsFormFault bytes.now) }
{
    let marker = number_at(bytes, 68, 4);
    if marker != MARKER {
        return Err(FormFault::Marker);
    }
    let version = number_at(bytes, 60, 4);
    if version == NEWER {
        return Err(FormFault::Newer);
    }
    if version != 0 {
        return Err(FormFault::Version);
    }
    let size = number_at(bytes, 64, 4);
    if size != SIZE {
        return Err(FormFault::Size);
    }
    let mode = number_at(bytes, 4, 4);
    if mode != 0 {
        return Err(FormFault::Mode);
    }
    let rows = number_at(bytes, 24, 8);
    match layout_in(bytes) {
        Some(layout) => Ok(Header { layout, rows }),
        None => Err(FormFault::NoLayout),
    }
}
