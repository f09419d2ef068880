//! A database opened, so that words are looked up in it.
ghost use Rattle.std.specs.Prelude.{◌≡◌, ◌^◌, ◌<◌, ℕ, List, Option, IfErr, IfOk, OnErr, OnOk, Some, length};
ghost use Rattle.kmc_device.specs.Device.{RisesByOne};
ghost use Rattle.kmc_database.specs.Files.{IsDatabase};
ghost use Rattle.kmc_database.specs.Layout.{IsLayout};
ghost use Rattle.kmc_database.specs.LookedUp.{IsHeaderIn, IsReach};
ghost use Rattle.kmc_database.specs.Opened.{IsEnd, IsEndFault, IsMarked, IsOpenCause, IsPrefixFile, IsSuffixFile, suffix_long};
ghost use Rattle.kmc_database.specs.declared.form.Form.{Form};

use crate::header::HEADER;
use crate::last_header::prefix_long;
use crate::markers::{PREFIX_MARKER, SUFFIX_MARKER};
use crate::number::number_at;
use crate::open_error::OpenError;
use crate::places::Places;
use crate::reading::{Header, read_header};
use kmc_base::Strands;
use kmc_device::ReadFault;

/// What the header of a database tells: how words and counts lie, how many rows there are, and whether a word and its reverse complement
/// are counted together.
#[derive(Clone, Copy)]
pub struct OpenDatabase {
    pub header: Header,
    pub strands: Strands,
}

/// Whether four bytes, as a number, stand at a place of a file.
fn is_marked<P: Places>(file: &mut P, place: u64, marker: u64) -> Result<bool, ReadFault>
    requires { marker < 2 ^ 32 }
    ensures bytes { P.bytes file.new ≡ P.bytes file.old }
    ensures ok { IfOk result (λ there. (bytes : List ℕ) → P.bytes file.old ≡ Some bytes
        → IsMarked bytes place marker there) }
    ensures kept { OnOk result (P.failures file.new ≡ P.failures file.old) }
    ensures failed { OnErr result (RisesByOne (P.failures file.old) (P.failures file.new)) }
{
    let mut buffer = [0u8; 4];
    if !file.read_at(place, &mut buffer)? {
        return Ok(false);
    }
    Ok(number_at(&buffer, 0, 4) == marker)
}

/// The database of which a prefix file of so many bytes tells, by the last of them.
fn database_of(last: &[u8], size: u64) -> Result<OpenDatabase, OpenError>
    requires { length last.now ≡ HEADER }
    ensures ok { IfOk result (IsEnd last.now size) }
    ensures cause { IfErr result (IsEndFault last.now size) }
{
    let header = match read_header(last) {
        Ok(header) => header,
        Err(fault) => return Err(OpenError::Form(fault)),
    };
    if size != prefix_long(&header.layout) {
        return Err(OpenError::PrefixLength);
    }
    match last[32] {
        0 => Ok(OpenDatabase {
            header,
            strands: Strands::Joined,
        }),
        1 => Ok(OpenDatabase {
            header,
            strands: Strands::Apart,
        }),
        _ => Err(OpenError::Strands),
    }
}

/// The database of which a prefix file tells.
fn database_in<P: Places>(prefix: &mut P) -> Result<OpenDatabase, OpenError>
    ensures bytes { P.bytes prefix.new ≡ P.bytes prefix.old }
    ensures layout { IfOk result (λ o. IsLayout o.header.layout × (o.header.rows < 2 ^ 64)) }
    ensures ok { IfOk result (λ o. (bytes : List ℕ) → P.bytes prefix.old ≡ Some bytes
        → IsPrefixFile bytes o) }
    ensures kept { OnOk result (P.failures prefix.new ≡ P.failures prefix.old) }
    ensures cause { IfErr result (λ e. (suffix : Option (List ℕ)) (failed : ℕ)
        → IsOpenCause (P.bytes prefix.old) suffix
        (record { prefix = P.failures prefix.old; suffix = failed })
        (record { prefix = P.failures prefix.new; suffix = failed }) e) }
{
    let size = match prefix.size() {
        Ok(size) => size,
        Err(_) => return Err(OpenError::ReadPrefix),
    };
    if size < HEADER as u64 {
        return Err(OpenError::PrefixLength);
    }
    let mut last = [0u8; HEADER];
    match prefix.read_at(size - HEADER as u64, &mut last) {
        Ok(true) => {}
        Ok(false) => return Err(OpenError::Changed),
        Err(_) => return Err(OpenError::ReadPrefix),
    }
    let database = database_of(&last, size)?;
    match is_marked(prefix, 0, PREFIX_MARKER) {
        Ok(true) => Ok(database),
        Ok(false) => Err(OpenError::PrefixMarker),
        Err(_) => Err(OpenError::ReadPrefix),
    }
}

/// The bytes of a suffix file.
fn suffix_long(header: &Header) -> u128
    requires layout { IsLayout header.now.layout }
    requires few { header.now.rows < 2 ^ 64 }
    ensures { result ≡ suffix_long header.now }
{
    let layout = header.layout;
    let row = (layout.k - layout.prefix) / 4 + layout.counter;
    8 + u128::from(header.rows) * row as u128
}

/// Judges a suffix file by its length and by the markers at its ends.
fn check_suffix<S: Places>(header: &Header, suffix: &mut S) -> Result<(), OpenError>
    requires layout { IsLayout header.now.layout }
    requires few { header.now.rows < 2 ^ 64 }
    ensures bytes { S.bytes suffix.new ≡ S.bytes suffix.old }
    ensures reach { OnOk result (IsReach header.now) }
    ensures ok { OnOk result ((bytes : List ℕ) → S.bytes suffix.old ≡ Some bytes
        → IsSuffixFile bytes header.now) }
    ensures kept { OnOk result (S.failures suffix.new ≡ S.failures suffix.old) }
    ensures cause { IfErr result (λ e. (prefix : Option (List ℕ)) (failed : ℕ)
        → ((p : List ℕ) → prefix ≡ Some p → IsHeaderIn p header.now)
        → IsOpenCause prefix (S.bytes suffix.old)
        (record { prefix = failed; suffix = S.failures suffix.old })
        (record { prefix = failed; suffix = S.failures suffix.new }) e) }
{
    let size = match suffix.size() {
        Ok(size) => size,
        Err(_) => return Err(OpenError::ReadSuffix),
    };
    if u128::from(size) != suffix_long(header) {
        return Err(OpenError::SuffixLength);
    }
    match is_marked(suffix, 0, SUFFIX_MARKER) {
        Ok(true) => {}
        Ok(false) => return Err(OpenError::SuffixMarker),
        Err(_) => return Err(OpenError::ReadSuffix),
    }
    match is_marked(suffix, size - 4, SUFFIX_MARKER) {
        Ok(true) => Ok(()),
        Ok(false) => Err(OpenError::SuffixMarker),
        Err(_) => Err(OpenError::ReadSuffix),
    }
}

/// Opens a database: judges the header at the end of the prefix file, the strands that it tells, the lengths of both files and the markers
/// at their ends, and reads no more of them than those. The table and the rows may be any.
pub fn open_database<P: Places, S: Places>(
    prefix: &mut P,
    suffix: &mut S,
) -> Result<OpenDatabase, OpenError>
    ensures prefix { P.bytes prefix.new ≡ P.bytes prefix.old }
    ensures suffix { S.bytes suffix.new ≡ S.bytes suffix.old }
    ensures reach { IfOk result (λ o. IsReach o.header) }
    ensures told { IfOk result (λ o. (bytes : List ℕ) → P.bytes prefix.old ≡ Some bytes
        → IsPrefixFile bytes o) }
    ensures rows { IfOk result (λ o. (bytes : List ℕ) → S.bytes suffix.old ≡ Some bytes
        → IsSuffixFile bytes o.header) }
    ensures database { IfOk result (λ o. (f : Form) (pairs : List (List ℕ × ℕ)) (p s : List ℕ)
        → P.bytes prefix.old ≡ Some p → IsDatabase f pairs p s → IsHeaderIn p o.header
        × (o.header.layout ≡ f.layout) × (o.header.rows ≡ length pairs)
        × (o.strands ≡ f.strands)) }
    ensures sound { OnOk result ((P.failures prefix.new ≡ P.failures prefix.old)
        × (S.failures suffix.new ≡ S.failures suffix.old)) }
    ensures cause { IfErr result (IsOpenCause (P.bytes prefix.old) (S.bytes suffix.old)
        (record { prefix = P.failures prefix.old; suffix = S.failures suffix.old })
        (record { prefix = P.failures prefix.new; suffix = S.failures suffix.new })) }
{
    let database = database_in(prefix)?;
    check_suffix(&database.header, suffix)?;
    Ok(database)
}
