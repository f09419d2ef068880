//! The header of a database.
ghost use Rattle.std.specs.Prelude.{◌≡◌};
ghost use Rattle.kmc_database.specs.Files.{header_of, limits_of, strand_byte, strands_of};
ghost use Rattle.kmc_database.specs.Form.{greatest_told};
ghost use Rattle.kmc_database.specs.Layout.{IsLayout};

use crate::form::Form;
use crate::room_parts::put_part;
use kmc_base::Strands;

/// The bytes of a header, with the marker behind it.
pub(crate) const HEADER: usize = 72;

/// The greatest count as the header tells it: KMC's own headers tell 32 bits for words of 14 symbols and more.
fn greatest_told(form: &Form) -> u64
    ensures { result ≡ greatest_told form.now }
{
    if form.layout.k <= 13 {
        form.greatest
    } else {
        form.greatest.min(u64::from(u32::MAX))
    }
}

/// The byte that tells whether a word and its reverse complement are counted together.
fn strand_byte(strands: Strands) -> u8
    ensures { result ≡ strand_byte strands }
{
    match strands {
        Strands::Joined => 0,
        Strands::Apart => 1,
    }
}

/// The header of a database with so many rows.
pub fn header_bytes(form: &Form, rows: u64) -> [u8; HEADER]
    requires { IsLayout form.now.layout }
    ensures { result ≡ header_of form.now.layout rows (limits_of form.now) (strands_of form.now) }
{
    let layout = form.layout;
    let greatest = greatest_told(form);
    let mut bytes = [0; HEADER];
    let at = put_part(&mut bytes, 0, &(layout.k as u32).to_le_bytes());
    let at = put_part(&mut bytes, at, &0u32.to_le_bytes());
    let at = put_part(&mut bytes, at, &(layout.counter as u32).to_le_bytes());
    let at = put_part(&mut bytes, at, &(layout.prefix as u32).to_le_bytes());
    let at = put_part(&mut bytes, at, &form.least.to_le_bytes());
    let at = put_part(
        &mut bytes,
        at,
        &((greatest % (1 << 32)) as u32).to_le_bytes(),
    );
    let at = put_part(&mut bytes, at, &rows.to_le_bytes());
    let at = put_part(&mut bytes, at, &[strand_byte(form.strands), 0, 0, 0]);
    let at = put_part(&mut bytes, at, &((greatest >> 32) as u32).to_le_bytes());
    let at = put_part(&mut bytes, at, &[0; 20]);
    let at = put_part(&mut bytes, at, &0u32.to_le_bytes());
    let at = put_part(&mut bytes, at, &64u32.to_le_bytes());
    put_part(&mut bytes, at, b"KMCP");
    bytes
}
