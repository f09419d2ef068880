//! What came through the queue.
ghost use Rattle.std.specs.Prelude.{◌<◌};

use kmc_partcore::{Received, Totals};
use kmc_record::{Part, Shape};
use std::alloc::{AllocError, Global};
use std::sync::atomic::{AtomicBool, AtomicU64, Ordering};

/// The writers, each of which has a thread.
pub const WRITERS: usize = 16;

/// The parts of each writer.
pub const EACH: u64 = 100;

/// The bin of all parts, of the 7 bins of words of 4 symbols.
const BIN: usize = 6;

/// Part n of a writer: the records of two words, ACGT twice, as they come from chunk n.
pub fn part_of(alloc: Global, number: u64) -> Option<Part> {
    let shape = Shape::new(4, 9, 7)?;
    let body = [0x00, 0x1b, 0x00, 0x1b].to_vec(alloc).ok()?;
    Part::from_body(number, BIN, shape, body).ok()
}

/// How often each part came, the parts of one writer side by side, and whether anything else was seen.
#[derive(Drop)]
pub struct Seen {
    times: Vec<AtomicU64>,
    strange: AtomicBool,
}

impl Seen {
    pub fn new(alloc: Global) -> Result<Seen, AllocError> {
        let mut times = Vec::new(alloc);
        for _ in 0..WRITERS as u64 * EACH {
            times.push(AtomicU64::new(0))?;
        }
        Ok(Seen {
            times,
            strange: AtomicBool::new(false),
        })
    }

    pub fn note_strange(&self) {
        self.strange.store(true, Ordering::SeqCst);
    }

    /// Of a writer a reader got the part of this number, and none from `least[writer]` on before.
    fn note_order(&self, least: &mut [u64], writer: usize, number: u64)
        requires { number < 100 }
    {
        match least.get_mut(writer) {
            Some(from) => {
                if number < *from {
                    self.note_strange();
                }
                *from = number + 1;
            }
            None => self.note_strange(),
        }
    }

    /// The part came once more.
    fn count_part(&self, writer: usize, number: u64)
        requires { (writer < 16) × (number < 100) }
    {
        match self.times.get(writer * 100 + number as usize) {
            Some(count) => {
                count.fetch_add(1, Ordering::SeqCst);
            }
            None => self.note_strange(),
        }
    }

    /// A reader got the part. Of each writer it has got no part from `least[writer]` on.
    pub fn came(&self, least: &mut [u64], part: Received<Part>) {
        let Received {
            writer,
            number,
            item,
        } = part;
        if writer >= WRITERS || number >= EACH {
            self.note_strange();
            return;
        }
        if item.chunk() != number || item.bin() != BIN || item.words() != 2 {
            self.note_strange();
        }
        self.note_order(least, writer, number);
        self.count_part(writer, number);
    }

    /// A reader was told that the queue is finished.
    pub fn ended(&self, totals: &Totals) {
        for writer in 0..WRITERS {
            if totals.of(writer) != Some(EACH) {
                self.note_strange();
            }
        }
    }

    /// Each part came once, and nothing else was seen.
    pub fn each_once(&self) -> bool {
        for count in self.times.iter() {
            if count.load(Ordering::SeqCst) != 1 {
                return false;
            }
        }
        !self.strange.load(Ordering::SeqCst)
    }
}
