//! Sources and sinks, in memory and over std's streams, and a source that is read to its end.

use cosim_io::{Failed, MemSink, MemSource, ReadEnd, Sink, Source, StdSink, StdSource, read_all};
use std::alloc::{AllocError, Global};
use std::test::Fail;

fn source(alloc: Global, text: &[u8], failing: &[u64]) -> Result<MemSource, AllocError> {
    Ok(MemSource::new(text.to_vec(alloc)?, failing.to_vec(alloc)?))
}

#[test]
fn a_reader_of_std_is_read_to_its_end(rt: HostRuntime) -> Result<(), Fail> {
    let mut source = StdSource::new(b"unit\nend\n".as_slice());
    let mut into = [0; 6];
    assert_eq!(rt; source.read(&mut into), Ok(6));
    assert_eq!(rt; into.as_slice(), b"unit\ne".as_slice());
    assert_eq!(rt; source.read(&mut into), Ok(3));
    assert_eq!(rt; into[..3], b"nd\n"[..]);
    assert_eq!(rt; source.read(&mut into), Ok(0));
    Ok(())
}

#[test]
fn a_writer_of_std_fails_where_it_takes_nothing(rt: HostRuntime) -> Result<(), Fail> {
    let mut room = [b'.'; 7];
    let mut sink = StdSink::new(room.as_mut_slice());
    assert_eq!(rt; sink.put(b"1,0\n"), Ok(()));
    assert_eq!(rt; sink.put(b""), Ok(()));
    assert_eq!(rt; sink.put(b"2,5\n"), Err(Failed));
    assert_eq!(rt; room.as_slice(), b"1,0\n2,5".as_slice());
    Ok(())
}

#[test]
fn a_source_over_memory_fails_at_its_listed_reads(rt: HostRuntime) -> Result<(), Fail> {
    let mut source = source(rt.alloc(), b"abcdef", &[2, 5])?;
    let mut into = [0; 4];
    let answers = [
        (4, Ok(4), b"abcd"),
        (4, Err(Failed), b"abcd"),
        (0, Ok(0), b"abcd"),
        (1, Ok(1), b"ebcd"),
        (2, Err(Failed), b"ebcd"),
        (2, Ok(1), b"fbcd"),
        (4, Ok(0), b"fbcd"),
    ];
    for (room, answer, bytes) in answers {
        let room: usize = room;
        assert_eq!(rt; source.read(&mut into[..room.min(4)]), answer);
        assert_eq!(rt; into.as_slice(), bytes.as_slice());
    }
    Ok(())
}

#[test]
fn a_failed_put_appends_the_first_half_as_far_as_there_is_room(
    rt: HostRuntime,
) -> Result<(), Fail> {
    let alloc = rt.alloc();
    let mut rows = MemSink::new(alloc, 4096, [3].to_vec(alloc)?)?;
    let mut small = MemSink::new(alloc, 9, [2].to_vec(alloc)?)?;
    let cases = [
        (
            b"t,n,x\n",
            Ok(()),
            b"t,n,x\n".as_slice(),
            Ok(()),
            b"t,n,x\n".as_slice(),
        ),
        (
            b"0,0,0\n",
            Ok(()),
            b"t,n,x\n0,0,0\n",
            Err(Failed),
            b"t,n,x\n0,0",
        ),
        (
            b"1,0,1\n",
            Err(Failed),
            b"t,n,x\n0,0,0\n1,0",
            Err(Failed),
            b"t,n,x\n0,0",
        ),
    ];
    for (piece, answer, held, small_answer, small_held) in cases {
        assert_eq!(rt; rows.put(piece), answer);
        assert_eq!(rt; rows.bytes(), held);
        assert_eq!(rt; small.put(piece), small_answer);
        assert_eq!(rt; small.bytes(), small_held);
    }
    Ok(())
}

#[test]
fn a_source_is_read_whole_within_the_limit(rt: HostRuntime) -> Result<(), Fail> {
    let alloc = rt.alloc();
    let cases = [
        (b"".as_slice(), [].as_slice(), 0, Ok(())),
        (b"abc", &[], 3, Ok(())),
        (b"abc", &[], usize::MAX, Ok(())),
        (b"abc", &[3], 3, Ok(())),
        (b"abcd", &[], 3, Err(ReadEnd::TooLong)),
        (b"a", &[2], 0, Err(ReadEnd::TooLong)),
        (b"abc", &[1], 3, Err(ReadEnd::Fault)),
        (b"abc", &[2], 3, Err(ReadEnd::Fault)),
        (b"", &[1], 0, Err(ReadEnd::Fault)),
    ];
    for (text, failing, limit, answer) in cases {
        match read_all(alloc, &mut source(alloc, text, failing)?, limit) {
            Ok(bytes) => {
                assert_eq!(rt; answer, Ok(()));
                assert_eq!(rt; bytes.as_slice(), text);
            }
            Err(end) => assert_eq!(rt; answer, Err(end), "at {text:?} with the limit {limit}"),
        }
    }
    Ok(())
}

#[test]
fn a_text_longer_than_one_read_is_read_whole(rt: HostRuntime) -> Result<(), Fail> {
    let alloc = rt.alloc();
    let mut text = vec![in alloc; b'a'; 4096]?;
    text.extend_from_slice(b"the rest")?;
    let mut source = source(alloc, &text, &[])?;
    assert_eq!(rt;
        read_all(alloc, &mut source, 5000)?.as_slice(),
        text.as_slice()
    );
    Ok(())
}
