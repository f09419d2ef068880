use kmc_base::Strands;
use kmc_count::Limits;
use kmc_options::Params;
use kmc_reads::Format;

fn sized(k: usize, p: usize, n: usize, sp: usize, sr: usize) -> Option<Params> {
    let limits = Limits::new(1, 2, 3)?;
    Params::new(Format::Fasta, k, p, n, sp, sr, limits)
}

/// The numbers of k, p, n, sp and sr.
fn sizes_of(params: &Params) -> [usize; 5] {
    [
        params.k,
        params.asked_signature_length,
        params.bins,
        params.splitters,
        params.counters,
    ]
}

/// The numbers of readers, of parts a writer and of reads a splitter.
fn queue_of(params: &Params) -> [usize; 3] {
    [params.readers, params.per_writer, params.batch]
}

#[test]
fn settings_in_range_are_kept(rt: HostRuntime) {
    let made = sized(64, 11, 2000, 16, 15).expect(&rt, "in range");
    let told = (made.format, made.strands);
    assert!(rt; matches!(told, (Format::Fasta, Strands::Joined)));
    assert_eq!(rt; sizes_of(&made), [64, 11, 2000, 16, 15]);
    let limits = [made.limits.ci, made.limits.cx, made.limits.cs];
    assert_eq!(rt; (limits, queue_of(&made)), ([1, 2, 3], [1, 8, 1024]));
}

/// The symbols of the signatures of words of k symbols, as p asks for them and as they fit best.
fn lengths_of(k: usize, p: usize) -> Option<(usize, usize)> {
    let asked = sized(k, p, 512, 2, 2)?;
    let fitting = asked.with_fitting_signatures();
    Some((asked.shape().m(), fitting.shape().m()))
}

#[test]
fn signatures_are_as_long_as_is_asked_or_as_fits(rt: HostRuntime) {
    for (k, p, lengths) in [
        (1, 5, (1, 0)),
        (10, 9, (9, 0)),
        (11, 9, (9, 5)),
        (14, 5, (5, 5)),
        (15, 9, (9, 6)),
        (16, 9, (9, 7)),
        (17, 9, (9, 8)),
        (25, 10, (10, 8)),
        (64, 11, (11, 8)),
    ] {
        assert_eq!(rt; lengths_of(k, p), Some(lengths), "{k}, {p}");
    }
    assert_eq!(rt; Params::default().shape().m(), 9);
}

#[test]
fn settings_out_of_range_are_refused(rt: HostRuntime) {
    assert!(rt; sized(1, 5, 1, 1, 1).is_some());
    let wrong = [
        [0, 5, 1, 1, 1],
        [65, 5, 1, 1, 1],
        [1, 4, 1, 1, 1],
        [1, 12, 1, 1, 1],
        [1, 5, 0, 1, 1],
        [1, 5, 2001, 1, 1],
        [1, 5, 1, 0, 1],
        [1, 5, 1, 17, 1],
        [1, 5, 1, 1, 0],
        [1, 5, 1, 1, 17],
    ];
    for [k, p, n, sp, sr] in wrong {
        assert!(rt; sized(k, p, n, sp, sr).is_none());
    }
}

/// The sizes and the queue of the usual settings with a queue of this size.
fn queued(readers: usize, per_writer: usize, batch: usize) -> Option<([usize; 5], [usize; 3])> {
    let params = Params::default().with_queue(readers, per_writer, batch)?;
    Some((sizes_of(&params), queue_of(&params)))
}

#[test]
fn a_queue_in_its_ranges_is_kept(rt: HostRuntime) {
    let usual = [25, 9, 512, 2, 2];
    assert_eq!(rt; queued(1, 1, 1), Some((usual, [1, 1, 1])));
    assert_eq!(rt; queued(8, 64, 65536), Some((usual, [8, 64, 65536])));
}

#[test]
fn a_queue_out_of_its_ranges_is_refused(rt: HostRuntime) {
    for [readers, per_writer, batch] in [
        [0, 1, 1],
        [9, 1, 1],
        [1, 0, 1],
        [1, 65, 1],
        [1, 1, 0],
        [1, 1, 65537],
    ] {
        assert!(rt; queued(readers, per_writer, batch).is_none());
    }
}

#[test]
fn strands_alone_are_changed(rt: HostRuntime) {
    let apart = sized(31, 7, 64, 3, 4)
        .expect(&rt, "in range")
        .with_strands(Strands::Apart);
    let told = (apart.format, apart.strands);
    assert!(rt; matches!(told, (Format::Fasta, Strands::Apart)));
    assert_eq!(rt; sizes_of(&apart), [31, 7, 64, 3, 4]);
}
