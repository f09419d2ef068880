//! The steps in which a database is read as its dump.
ghost use Rattle.std.specs.Prelude.{◌≡◌, ◌+◌, ◌^◌, ◌<◌, ◌≤◌, [], ◌∷◌, ℕ, List, length, true, false, OnOk};

use crate::markers::{PREFIX_MARKER, SUFFIX_MARKER};
use crate::progress::{entry_fault, row_fault};
use crate::reader::DatabaseReader;
use crate::unpack_error::UnpackError;
use std::io;
use std::io::Read;

impl<R: Read> DatabaseReader<R> {
    ghost use Rattle.kmc_database.specs.DumpReader.{rest_of, steps_of, text_left};
    ghost use Rattle.kmc_database.specs.LeftOf.{StaysKnown};

    /// Ends the text with byte 0, for this reason.
    fn fail(&mut self, fault: UnpackError)
        requires { self.old.ended ≡ false }
        ensures text { (p s : List ℕ) → text_left self.new p s ≡ 0 ∷ [] }
        ensures prefix { self.new.prefix ≡ self.old.prefix }
        ensures suffix { self.new.suffix ≡ self.old.suffix }
        ensures fewer { steps_of self.new < steps_of self.old }
    {
        self.line.hold_fault();
        self.ended = true;
        self.fault = Some(fault);
    }

    /// Takes the markers at the beginnings of the two files.
    fn take_markers(&mut self) -> io::Result<()>
        requires more { self.old.ended ≡ false }
        requires empty { self.old.line ≡ [] }
        requires fresh { self.old.at.begun ≡ false }
        ensures same { StaysKnown (rest_of R.remaining self.old) (rest_of R.remaining self.new) }
        ensures fewer { OnOk result (steps_of self.new < steps_of self.old) }
    {
        if !self.prefix.begins_with(PREFIX_MARKER)? {
            self.fail(UnpackError::PrefixMarker);
            return Ok(());
        }
        if !self.suffix.begins_with(SUFFIX_MARKER)? {
            self.fail(UnpackError::SuffixMarker);
            return Ok(());
        }
        self.prefix.take(4);
        self.suffix.take(4);
        self.at.begun = true;
        Ok(())
    }

    /// Takes the next row, and puts its line.
    fn take_row(&mut self) -> io::Result<()>
        requires more { self.old.ended ≡ false }
        requires empty { self.old.line ≡ [] }
        requires begun { self.old.at.begun ≡ true }
        requires inside { self.old.at.row < self.old.at.to }
        ensures same { StaysKnown (rest_of R.remaining self.old) (rest_of R.remaining self.new) }
        ensures fewer { OnOk result (steps_of self.new < steps_of self.old) }
    {
        let layout = self.header.layout;
        let part = self.at.entries - 2;
        let row = match self.suffix.next_row(&layout, part)? {
            Some(row) => row,
            None => {
                self.fail(UnpackError::Cut(self.at.row + 1));
                return Ok(());
            }
        };
        match row_fault(&self.at, &row) {
            Some(fault) => self.fail(fault),
            None => {
                self.suffix
                    .take((layout.k - layout.prefix) / 4 + layout.counter);
                self.line.hold_line(row.packed, layout.k, row.count);
                self.at.row += 1;
                self.at.last = row.packed;
            }
        }
        Ok(())
    }

    /// Takes the next entry of the table.
    fn take_entry(&mut self) -> io::Result<()>
        requires more { self.old.ended ≡ false }
        requires empty { self.old.line ≡ [] }
        requires begun { self.old.at.begun ≡ true }
        requires all { self.old.at.to ≤ self.old.at.row }
        requires table { self.old.at.entries < 4 ^ self.old.header.layout.prefix }
        ensures same { StaysKnown (rest_of R.remaining self.old) (rest_of R.remaining self.new) }
        ensures fewer { OnOk result (steps_of self.new < steps_of self.old) }
    {
        let entry = match self.prefix.next_entry()? {
            Some(entry) => entry,
            None => {
                self.fail(UnpackError::Changed);
                return Ok(());
            }
        };
        match entry_fault(&self.header, &self.at, entry) {
            Some(fault) => self.fail(fault),
            None => {
                self.prefix.take(8);
                self.at.entries += 1;
                self.at.to = entry;
            }
        }
        Ok(())
    }

    /// Sees that both files end as they are to behind the rows and the table.
    fn see_ends(&mut self) -> io::Result<()>
        requires more { self.old.ended ≡ false }
        requires empty { self.old.line ≡ [] }
        requires begun { self.old.at.begun ≡ true }
        requires all { self.old.at.to ≤ self.old.at.row }
        requires table { 4 ^ self.old.header.layout.prefix < self.old.at.entries }
        ensures same { StaysKnown (rest_of R.remaining self.old) (rest_of R.remaining self.new) }
        ensures fewer { OnOk result (steps_of self.new < steps_of self.old) }
    {
        if !self.suffix.ends_with(SUFFIX_MARKER)? {
            self.fail(UnpackError::SuffixEnd);
            return Ok(());
        }
        if !self.prefix.ends_in(&self.header)? {
            self.fail(UnpackError::Changed);
            return Ok(());
        }
        self.ended = true;
        Ok(())
    }

    /// Takes the next step, where no line is in hand.
    pub(crate) fn advance(&mut self) -> io::Result<()>
        requires more { self.old.ended ≡ false }
        requires empty { self.old.line ≡ [] }
        ensures same { StaysKnown (rest_of R.remaining self.old) (rest_of R.remaining self.new) }
        ensures fewer { OnOk result (steps_of self.new < steps_of self.old) }
    {
        let parts: u64 = 1 << (2 * self.header.layout.prefix);
        if !self.at.begun {
            self.take_markers()
        } else if self.at.row < self.at.to {
            self.take_row()
        } else if self.at.entries < parts {
            self.take_entry()
        } else if self.at.entries == parts {
            self.at.entries += 1;
            self.at.to = self.header.rows;
            Ok(())
        } else {
            self.see_ends()
        }
    }
}
