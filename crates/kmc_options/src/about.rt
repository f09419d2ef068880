//! What the words ask for beside the work: help and the version.
ghost use Rattle.std.specs.Prelude.{◌≡◌, ◌≤◌, MatchOption, OnOk, OnErr, map, string_bytes, true, false};
ghost use Rattle.std.specs.Process.{exit_status};
ghost use Rattle.kmc_options.specs.About.{has_word, is_asked, text_asked, Shows, ShowsFront};

use kmc_device::{Counted, WriteFault, write_text};
use std::io::Write;
use std::process::ExitCode;

/// The version of the programs.
const VERSION: &'static str = "0.9.0\n";

// A text that is asked for was not written.
const FAILED: u8 = 1;

/// Whether a word is this one.
fn has_word(words: &[String], word: &str) -> bool
    ensures { result ≡ has_word word.now (map string_bytes words.now) }
{
    let mut found = false;
    for other in words {
        found = found || other.as_str() == word;
    }
    found
}

/// Whether the words ask for help or the version.
pub fn asks_for_text(words: &[String]) -> bool
    ensures { result ≡ is_asked (map string_bytes words.now) }
{
    has_word(words, "--help") || has_word(words, "--version")
}

/// The text that the words ask for, of a program with this help: help before the version, wherever the word stands.
pub fn asked_text(words: &[String], help: &'static str) -> Option<&'static str>
    ensures { MatchOption result (is_asked (map string_bytes words.now) ≡ false)
        (λ text. (is_asked (map string_bytes words.now) ≡ true)
        × (text.now ≡ text_asked help.now (map string_bytes words.now))) }
{
    if has_word(words, "--help") {
        return Some(help);
    }
    if has_word(words, "--version") {
        return Some(VERSION);
    }
    None
}

/// Writes the text and flushes the device.
fn written<W: Write>(text: &str, writer: &mut Counted<W>) -> Result<(), WriteFault>
    ensures ok { OnOk result (Shows W.contents text.now writer.old writer.new) }
    ensures failed { OnErr result (ShowsFront W.contents text.now writer.old writer.new) }
{
    write_text(writer, text.as_bytes())?;
    match writer.flush() {
        Ok(()) => Ok(()),
        Err(_) => Err(WriteFault),
    }
}

/// Shows a text that is asked for, and tells of no fault. The exit status is 0 where it was written and no call of the device failed,
/// and else 1.
pub fn shown<W: Write>(text: &str, writer: &mut Counted<W>) -> ExitCode
    ensures done { exit_status result ≡ 0 → Shows W.contents text.now writer.old writer.new }
    ensures failed { exit_status result ≡ 1 → ShowsFront W.contents text.now writer.old writer.new }
    ensures statuses { exit_status result ≤ 1 }
{
    match written(text, writer) {
        Ok(()) => ExitCode::from(0),
        Err(_) => ExitCode::from(FAILED),
    }
}
