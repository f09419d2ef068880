//! Reads cut to the files of three slices, which are read back.
ghost use Rattle.std.specs.Prelude.{◌≡◌, ℕ, length, map, slice_index, IfOk};

use kmc_count::Limits;
use kmc_device::Counted;
use kmc_options::Params;
use kmc_partqueue::NoGate;
use kmc_reads::{Format, read_all, slices_of};
use kmc_slice_files::{Slicing, read_slice};
use kmc_slices::{CutError, cut_slices_with};
use kmc_store::Bins;
use kmc_tool::stage_one;
use std::alloc::{AllocError, Global};
use std::process::Abort;
use std::sync::Wait;
use std::test::Fail;
use std::thread::Threads;
use test_support::{BlockReader, Full, NarrowWriter};

const FASTQ: &[u8] =
    b"@a\nACGTACGTAC\n+\nIIIIIIIIII\n@b\r\nGATTACANNGATTACA\r\n+\r\nIIIIIIIIIIIIIIII\r\n\n@c\n\n+\n\n@d\nTTTTTTTTTTTTTTTTTTTT\n+\nIIIIIIIIIIIIIIIIIIII";

/// Settings for words of 4 symbols, 7 bins, so many splitters and so many reads a round for each.
fn settings(rt: &impl Abort, sp: usize, batch: usize) -> Params {
    let limits = Limits::new(1, 100_000, 100_000).expect(rt, "limits");
    let params = Params::new(Format::Fastq, 4, 5, 7, sp, 2, limits).expect(rt, "settings");
    params.with_queue(1, 8, batch).expect(rt, "a queue")
}

/// Writers with no failure yet, each of which takes so many bytes.
fn fresh_writers(alloc: Global, room: usize) -> Result<Vec<Counted<NarrowWriter>>, AllocError>
    ensures many { IfOk result (λ v. length v.items ≡ 3) }
    ensures fresh { IfOk result (λ v. (s : ℕ) → slice_index (map (λ w. w.failures) v.items) s ≡ 0) }
{
    let mut writers = Vec::new(alloc);
    for _ in 0..3usize {
        let out = NarrowWriter::new(Vec::new(alloc), 5, room, Full::Fails, true);
        writers.push(Counted::new(out))?;
    }
    Ok(writers)
}

/// What a cut to three files answers, with the files; each takes so many bytes.
fn cut<R: Abort + Threads + Wait + Sync>(
    rt: &R,
    alloc: Global,
    params: &Params,
    room: usize,
    failing: u64,
) -> Result<(Result<(), CutError>, Vec<Vec<u8>>), Fail> {
    let mut reader = Counted::new(BlockReader::new(FASTQ, 7, failing));
    let mut writers = fresh_writers(alloc, room)?;
    let answer = cut_slices_with(
        rt,
        alloc,
        &mut reader,
        writers.as_mut_slice(),
        params,
        &NoGate,
        1 << 32,
    );
    let mut files = Vec::new(alloc);
    for writer in writers {
        files.push(writer.into_inner().into_bytes())?;
    }
    Ok((answer, files))
}

/// Asserts that the file is that of this slice, with bodies as long as those of these bins.
fn assert_slice(
    rt: &impl Abort,
    alloc: Global,
    file: &[u8],
    slice: u16,
    whole: &Bins,
) -> Result<(), Fail> {
    let shape = whole.shape();
    let mut bodies = Bins::new(alloc, shape)?.into_bodies();
    let slicing = Slicing {
        shape,
        slices: 3,
        slice,
    };
    let mut reader = Counted::new(BlockReader::new(file, 11, 0));
    if read_slice(&mut reader, bodies.as_mut_slice(), &slicing).is_err() {
        return Err(Fail::from("a file of a slice is read"));
    }
    let mut bin: u16 = 0;
    for (body, other) in bodies.iter().zip(whole.bodies()) {
        let long = if bin % 3 == slice { other.len() } else { 0 };
        assert_eq!(rt; body.len(), long);
        bin = bin.saturating_add(1);
    }
    Ok(())
}

#[test]
fn files_of_slices_have_the_bins_of_one_stage(rt: HostRuntime) -> Result<(), Fail> {
    let reads = read_all(rt.alloc(), FASTQ, Format::Fastq)?;
    for (sp, batch) in [(1, 1), (3, 2), (2, 1000)] {
        let params = settings(&rt, sp, batch);
        let whole = stage_one(
            &rt,
            rt.alloc(),
            &slices_of(rt.alloc(), &reads)?,
            &params,
            &NoGate,
        )?;
        let (answer, files) = cut(&rt, rt.alloc(), &params, 1 << 20, 0)?;
        assert!(&rt; answer.is_ok());
        let mut slice = 0;
        for file in files.iter() {
            assert_slice(&rt, rt.alloc(), file, slice, &whole)?;
            slice = slice.saturating_add(1);
        }
    }
    Ok(())
}

#[test]
fn file_that_is_full_is_told(rt: HostRuntime) -> Result<(), Fail> {
    let params = settings(&rt, 2, 1);
    for room in [0, 10, 27, 28, 29, 40, 50] {
        let (answer, _) = cut(&rt, rt.alloc(), &params, room, 0)?;
        let told = match answer {
            Err(CutError::Write(_)) => true,
            _ => false,
        };
        assert!(&rt; told, "{room}");
    }
    Ok(())
}

#[test]
fn reader_that_fails_is_told(rt: HostRuntime) -> Result<(), Fail> {
    let params = settings(&rt, 2, 1);
    for failing in [1, 2, 5] {
        let (answer, _) = cut(&rt, rt.alloc(), &params, 1 << 20, failing)?;
        assert!(&rt; answer == Err(CutError::Read), "{failing}");
    }
    Ok(())
}
