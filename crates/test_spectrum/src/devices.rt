//! Spectra over memory, with devices that fail.
use crate::texts::words_of;
use kmc_device::Counted;
use kmc_options::{Program, RunError, settings};
use kmc_spectrum::spectrum;
use std::alloc::Global;
use std::process::Abort;
use std::sync::Wait;
use std::thread::Threads;
use test_support::{BlockReader, Full, NarrowWriter};

/// How the devices of a run behave.
#[derive(Clone, Copy)]
pub struct Devices {
    /// The read that fails; 0 for none.
    pub failing: u64,
    /// The bytes that the writer takes in all.
    pub room: usize,
    /// Whether its flush succeeds.
    pub flushes: bool,
}

/// Devices that do not fail.
pub const SOUND: Devices = Devices {
    failing: 0,
    room: 1 << 20,
    flushes: true,
};

/// What the spectrum of a text answers by the settings that these words give, and what it writes, with a reader that gives five bytes at a
/// time and a writer that takes three.
pub fn made<T: Abort + Threads + Wait + Sync + Alloc<A = Global>>(
    rt: &T,
    words: &str,
    text: &[u8],
    devices: Devices,
) -> (Result<(), RunError>, Vec<u8>) {
    let argv = words_of(rt.alloc(), words).expect(rt, "memory");
    let params = settings(rt.alloc(), Program::Kmc, argv).expect(rt, words);
    let mut reader = Counted::new(BlockReader::new(text, 5, devices.failing));
    let out = NarrowWriter::new(
        Vec::new(rt.alloc()),
        3,
        devices.room,
        Full::Fails,
        devices.flushes,
    );
    let mut writer = Counted::new(out);
    let answer = spectrum(rt, rt.alloc(), &mut reader, &mut writer, &params);
    (answer, writer.into_inner().into_bytes())
}

/// Passes where the spectrum of the text by these words answers so, and this was written.
pub fn assert_made<T: Abort + Threads + Wait + Sync + Alloc<A = Global>>(
    rt: &T,
    words: &str,
    text: &[u8],
    devices: Devices,
    told: Result<(), RunError>,
    rows: &str,
) {
    let (answer, written) = made(rt, words, text, devices);
    assert_eq!(rt; answer, told, "{words}");
    assert_eq!(rt; written.as_slice(), rows.as_bytes(), "{words}");
}
