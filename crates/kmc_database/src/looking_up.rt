//! A word, looked up in the files of a database where they stand.
ghost use Rattle.std.specs.Prelude.{◌≡◌, ℕ, ◌+◌, ◌^◌, ◌<◌, ◌≤◌, ◌⊎◌, List, length, IfErr, IfOk, MatchOption, OnErr, OnOk, Some};
ghost use Rattle.kmc_device.specs.Device.{RisesByOne};
ghost use Rattle.kmc_base.specs.Lemmas.Keys.{IsWord};
ghost use Rattle.kmc_sum.specs.Sum.{listed_count};
ghost use Rattle.kmc_database.specs.Files.{IsDatabase};
ghost use Rattle.kmc_database.specs.Layout.{IsLayout};
ghost use Rattle.kmc_database.specs.LookedUp.{IsCountThere, IsHeaderIn, IsLookUpCause, IsRangeCause, IsReach};
ghost use Rattle.kmc_database.specs.Part.{EndsPart, IsEntry, entry_place};
ghost use Rattle.kmc_database.specs.Rows.{first_part};
ghost use Rattle.kmc_database.specs.declared.form.Form.{Form};

use crate::layout::Layout;
use crate::look_up_error::LookUpError;
use crate::number::number_at;
use crate::places::Places;
use crate::reading::Header;
use crate::row_places::count_between;
use kmc_base::Kmer;
use kmc_device::ReadFault;

/// The first part of a word, as a number.
fn part_of(layout: &Layout, word: &Kmer) -> u64
    requires layout { IsLayout layout.now }
    requires word { IsWord layout.now.k word.now }
    ensures is { result ≡ first_part layout.now word.now }
    ensures most { result < 4 ^ layout.now.prefix }
{
    let mut number: u64 = 0;
    for i in 0..layout.prefix {
        number = number * 4 + u64::from(word.code_at(i));
    }
    number
}

/// The entry of the table with this number; none where the file ends before it does.
fn entry_at<P: Places>(prefix: &mut P, number: u64) -> Result<Option<u64>, ReadFault>
    requires { number < 4 ^ 15 }
    ensures bytes { P.bytes prefix.new ≡ P.bytes prefix.old }
    ensures ok { IfOk result (λ answer. (bytes : List ℕ) → P.bytes prefix.old ≡ Some bytes
        → MatchOption answer (length bytes < entry_place (number + 1)) (IsEntry bytes number)) }
    ensures kept { OnOk result (P.failures prefix.new ≡ P.failures prefix.old) }
    ensures failed { OnErr result (RisesByOne (P.failures prefix.old) (P.failures prefix.new)) }
{
    let mut buffer = [0u8; 8];
    if !prefix.read_at(4 + 8 * number, &mut buffer)? {
        return Ok(None);
    }
    Ok(Some(number_at(&buffer, 0, 8)))
}

/// How many first parts there are.
fn number_of_parts(layout: &Layout) -> u64
    requires { IsLayout layout.now }
    ensures is { result ≡ 4 ^ layout.now.prefix }
    ensures most { result ≤ 4 ^ 15 }
{
    1 << (2 * layout.prefix)
}

/// The row at which those of a first part end; none where the file ends before the entry that tells it.
fn end_of_part<P: Places>(
    header: &Header,
    prefix: &mut P,
    part: u64,
) -> Result<Option<u64>, ReadFault>
    requires layout { IsLayout header.now.layout }
    requires part { part < 4 ^ header.now.layout.prefix }
    ensures bytes { P.bytes prefix.new ≡ P.bytes prefix.old }
    ensures ok { IfOk result (λ answer. (bytes : List ℕ) → P.bytes prefix.old ≡ Some bytes
        → MatchOption answer (length bytes < entry_place (4 ^ header.now.layout.prefix))
        (EndsPart header.now part bytes)) }
    ensures kept { OnOk result (P.failures prefix.new ≡ P.failures prefix.old) }
    ensures failed { OnErr result (RisesByOne (P.failures prefix.old) (P.failures prefix.new)) }
{
    if part + 1 == number_of_parts(&header.layout) {
        return Ok(Some(header.rows));
    }
    entry_at(prefix, part + 1)
}

/// The rows of a first part: the one from which they stand, and the one at which they end.
fn range_of_part<P: Places>(
    header: &Header,
    prefix: &mut P,
    part: u64,
) -> Result<(u64, u64), LookUpError>
    requires layout { IsLayout header.now.layout }
    requires part { part < 4 ^ header.now.layout.prefix }
    ensures bytes { P.bytes prefix.new ≡ P.bytes prefix.old }
    ensures ok { IfOk result (λ range. (bytes : List ℕ) → P.bytes prefix.old ≡ Some bytes
        → IsEntry bytes part range.0 × EndsPart header.now part bytes range.1) }
    ensures order { IfOk result (λ range. (range.0 ≤ range.1)
        × (range.1 ≤ header.now.rows)) }
    ensures kept { OnOk result (P.failures prefix.new ≡ P.failures prefix.old) }
    ensures cause { IfErr result (IsRangeCause header.now part (P.bytes prefix.old)
        (P.failures prefix.old) (P.failures prefix.new)) }
{
    let from = match entry_at(prefix, part) {
        Ok(Some(from)) => from,
        Ok(None) => return Err(LookUpError::Changed),
        Err(_) => return Err(LookUpError::ReadPrefix),
    };
    let to = match end_of_part(header, prefix, part) {
        Ok(Some(to)) => to,
        Ok(None) => return Err(LookUpError::Changed),
        Err(_) => return Err(LookUpError::ReadPrefix),
    };
    if to < from || to > header.rows {
        return Err(LookUpError::Entry(part));
    }
    Ok((from, to))
}

/// The count that a database has for a word, 0 where it does not list it: found by two entries of the table and by halves among the rows
/// of the word's first part, so that few bytes of the files are read, however large they are. The files are judged by nothing else: the
/// rows of the first part are to rise, and the others may be any. Where a word and its reverse complement are counted together, give the
/// lesser.
pub fn look_up<P: Places, S: Places>(
    header: &Header,
    prefix: &mut P,
    suffix: &mut S,
    word: &Kmer,
) -> Result<u64, LookUpError>
    requires reach { IsReach header.now }
    requires word { IsWord header.now.layout.k word.now }
    ensures prefix { P.bytes prefix.new ≡ P.bytes prefix.old }
    ensures suffix { S.bytes suffix.new ≡ S.bytes suffix.old }
    ensures ok { IfOk result (λ count. (p s : List ℕ) → P.bytes prefix.old ≡ Some p
        → S.bytes suffix.old ≡ Some s → IsCountThere header.now p s word.now count) }
    ensures database { IfOk result (λ count. (f : Form) (pairs : List (List ℕ × ℕ)) (p s : List ℕ)
        → P.bytes prefix.old ≡ Some p → S.bytes suffix.old ≡ Some s → IsDatabase f pairs p s
        → IsHeaderIn p header.now → count ≡ listed_count pairs word.now) }
    ensures sound { OnOk result ((P.failures prefix.new ≡ P.failures prefix.old)
        × (S.failures suffix.new ≡ S.failures suffix.old)) }
    ensures cause { IfErr result (IsLookUpCause header.now word.now (P.bytes prefix.old)
        (S.bytes suffix.old)
        (record { prefix = P.failures prefix.old; suffix = S.failures suffix.old })
        (record { prefix = P.failures prefix.new; suffix = S.failures suffix.new })) }
{
    let part = part_of(&header.layout, word);
    let (from, to) = range_of_part(header, prefix, part)?;
    match count_between(suffix, &header.layout, part, from, to, word) {
        Ok(Some(count)) => Ok(count),
        Ok(None) => Err(LookUpError::Changed),
        Err(_) => Err(LookUpError::ReadSuffix),
    }
}
