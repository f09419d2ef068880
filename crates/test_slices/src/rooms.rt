//! Bytes that are read behind others.
use kmc_device::{Counted, ReadFault, fill_behind, read_behind};
use test_support::BlockReader;

#[test]
fn reads_fill_a_room(rt: HostRuntime) {
    let mut room = *b"ab.......";
    let mut reader = Counted::new(BlockReader::new(b"cdefghij", 3, 0));
    assert!(&rt; read_behind(&mut reader, &mut room, 2) == Ok(5) && reader.reads() == 1);
    assert_eq!(&rt; &room, b"abcde....");
    assert!(&rt; fill_behind(&mut reader, &mut room, 5) == Ok(9) && reader.reads() == 3);
    assert_eq!(&rt; &room, b"abcdefghi");
    assert!(&rt; fill_behind(&mut reader, &mut room, 3) == Ok(4));
    assert_eq!(&rt; &room, b"abcjefghi");
}

#[test]
fn a_failed_read_is_told(rt: HostRuntime) {
    let mut room = *b"ab.......";
    let mut reader = Counted::new(BlockReader::new(b"cdefghij", 3, 2));
    assert!(&rt; fill_behind(&mut reader, &mut room, 2) == Err(ReadFault));
    assert_eq!(&rt; (&room, reader.failures()), (b"abcde....", 1));
}
