//! A file whose next bytes are held.
ghost use Rattle.std.specs.Prelude.{◌≡◌, ◌≤◌, length};

use std::io;
use std::io::Read;

/// The most bytes that are held, which is how many a reader is asked for at a time.
pub(crate) const MOST_HELD: usize = 16384;

/// A reader, and the bytes that it gave and that are not taken: those of the room between two places. A failed read loses none.
#[derive(Drop)]
pub(crate) struct NextBytes<R> {
    pub reader: R,
    pub room: [u8; MOST_HELD],
    pub from: usize,
    pub to: usize,
    pub ghost long: { length room ≡ 16384 },
    pub ghost order: { from ≤ to },
    pub ghost within: { to ≤ 16384 },
}

impl<R: Read> NextBytes<R> {
    ghost use Rattle.std.specs.Prelude.{ℕ, ◌<◌, List, Some, drop, true, false, IfOk};
    ghost use Rattle.kmc_database.specs.LeftOf.{held_of, left_of, StaysKnown};

    /// A file of which nothing is held.
    pub fn new(reader: R) -> NextBytes<R>
        ensures { left_of R.remaining result ≡ R.remaining reader }
    {
        NextBytes {
            reader,
            room: [0; MOST_HELD],
            from: 0,
            to: 0,
        }
    }

    /// The bytes that are held.
    pub fn held(&self) -> &[u8]
        ensures { result.now ≡ held_of self.now }
    {
        &self.room[self.from..self.to]
    }

    /// Moves the bytes that are held to the front of the room.
    fn shift(&mut self)
        ensures front { self.new.from ≡ 0 }
        ensures held { held_of self.new ≡ held_of self.old }
        ensures reader { self.new.reader ≡ self.old.reader }
    {
        let held = self.to - self.from;
        self.room.copy_within(self.from..self.to, 0);
        self.from = 0;
        self.to = held;
    }

    /// Reads behind what stands at the front of the room, until so many bytes are held or all that are left are. Says whether so many are.
    fn read_more(&mut self, size: usize) -> io::Result<bool>
        requires few { size ≤ 73 }
        requires front { self.old.from ≡ 0 }
        ensures same { StaysKnown (left_of R.remaining self.old) (left_of R.remaining self.new) }
        ensures there { IfOk result (λ there. there ≡ true → size ≤ length (held_of self.new)) }
        ensures short { IfOk result (λ there. there ≡ false → (length (held_of self.new) < size)
            × ((bytes : List ℕ) → left_of R.remaining self.new ≡ Some bytes
            → bytes ≡ held_of self.new)) }
    {
        while self.to < size {
            let count = self.reader.read(&mut self.room[self.to..MOST_HELD])?;
            if count == 0 {
                return Ok(false);
            }
            self.to += count;
        }
        Ok(true)
    }

    /// Reads until so many bytes are held, or all that are left are. Says whether so many are.
    pub fn fill(&mut self, size: usize) -> io::Result<bool>
        requires { size ≤ 73 }
        ensures same { StaysKnown (left_of R.remaining self.old) (left_of R.remaining self.new) }
        ensures there { IfOk result (λ there. there ≡ true → size ≤ length (held_of self.new)) }
        ensures short { IfOk result (λ there. there ≡ false → (length (held_of self.new) < size)
            × ((bytes : List ℕ) → left_of R.remaining self.new ≡ Some bytes
            → bytes ≡ held_of self.new)) }
    {
        if self.to - self.from >= size {
            return Ok(true);
        }
        self.shift();
        self.read_more(size)
    }

    /// Takes so many of the bytes that are held.
    pub fn take(&mut self, size: usize)
        requires { size ≤ length (held_of self.old) }
        ensures { (bytes : List ℕ) → left_of R.remaining self.old ≡ Some bytes
            → left_of R.remaining self.new ≡ Some (drop size bytes) }
    {
        self.from += size;
    }
}
