// What no clause says: that the calls succeed while there is memory, what the system answers the
// standard streams, and that histories take no memory.
ghost use Rattle.std.specs.Prelude.{◌≤◌, IfOk};

use shake_streams::{
    Failed, History, MemSink, MemSource, ReadAllError, Sink, Source, StdErr, StdSink, StdSource,
    SureSink, SureSource, read_all, write_all,
};
use std::alloc::Alloc;
use std::io;
use std::io::{ErrorKind, Read, Write};
use std::test::Fail;

#[test]
fn reads_to_the_end_or_says_why_not(rt: HostRuntime) -> Result<(), Fail> {
    let cases: [(&[u8], &[u64], u64, Option<ReadAllError>); 8] = [
        (b"", &[], 0, None),
        (b"abc", &[], 3, None),
        (b"abc", &[0, 3], 4, None),
        (b"abc", &[], u64::MAX, None),
        (b"abcd", &[], 3, Some(ReadAllError::TooLong)),
        (b"a", &[], 0, Some(ReadAllError::TooLong)),
        (b"abc", &[1], 3, Some(ReadAllError::Fault)),
        (b"abc", &[5, 2], 3, Some(ReadAllError::Fault)),
    ];
    for (bytes, failing, limit, want) in cases {
        let mut source = MemSource::new(rt.alloc(), bytes, failing)?;
        match read_all(rt.alloc(), &mut source, limit) {
            Ok(got) => {
                assert_eq!(rt; want, None, "{bytes:?} within {limit}");
                assert_eq!(rt; got.as_slice(), bytes);
            }
            Err(why) => assert_eq!(rt; Some(why), want, "{bytes:?} within {limit}"),
        }
    }
    Ok(())
}

#[test]
fn a_fault_in_mid_stream_ends_the_reading(rt: HostRuntime) -> Result<(), Fail> {
    let mut bytes = vec![in rt.alloc(); b'a'; 70_000]?;
    bytes.push(b'z')?;
    let cases: [(&[u64], bool); 5] = [
        (&[], true),
        (&[1], false),
        (&[2], false),
        (&[3], false),
        (&[4], true),
    ];
    for (failing, is_read) in cases {
        let mut source = MemSource::new(rt.alloc(), bytes.as_slice(), failing)?;
        match read_all(rt.alloc(), &mut source, 70_001) {
            Ok(got) => {
                assert!(rt; is_read, "failing at {failing:?}");
                assert_eq!(rt; got.as_slice(), bytes.as_slice());
            }
            Err(why) => {
                assert!(rt; !is_read, "failing at {failing:?}");
                assert_eq!(rt; why, ReadAllError::Fault);
            }
        }
    }
    Ok(())
}

#[test]
fn a_pull_fails_at_its_number_alone(rt: HostRuntime) -> Result<(), Fail> {
    let mut source = MemSource::new(rt.alloc(), b"abcde", &[2])?;
    let mut piece = [b'-'; 3];
    let wanted: [(Result<usize, Failed>, &[u8]); 4] = [
        (Ok(3), b"abc"),
        (Err(Failed), b"abc"),
        (Ok(2), b"dec"),
        (Ok(0), b"dec"),
    ];
    for (answer, left_there) in wanted {
        assert_eq!(rt; source.pull(&mut piece), answer);
        assert_eq!(rt; piece.as_slice(), left_there);
    }
    Ok(())
}

#[test]
fn writes_all_or_a_front(rt: HostRuntime) -> Result<(), Fail> {
    let cases: [(usize, &[u64], [Result<(), Failed>; 3], &[u8]); 6] = [
        (6, &[], [Ok(()), Ok(()), Ok(())], b"abcdef"),
        (9, &[0, 4], [Ok(()), Ok(()), Ok(())], b"abcdef"),
        (5, &[], [Ok(()), Ok(()), Err(Failed)], b"abcde"),
        (0, &[], [Err(Failed), Err(Failed), Err(Failed)], b""),
        (6, &[1], [Err(Failed), Ok(()), Ok(())], b"cdef"),
        (6, &[2], [Ok(()), Err(Failed), Ok(())], b"abef"),
    ];
    for (room, failing, answers, written) in cases {
        let mut sink = MemSink::new(rt.alloc(), room, failing)?;
        assert_eq!(rt;
            write_all(&mut sink, b"ab"),
            answers[0],
            "room {room} {failing:?}"
        );
        assert_eq!(rt;
            write_all(&mut sink, b"cd"),
            answers[1],
            "room {room} {failing:?}"
        );
        assert_eq!(rt;
            write_all(&mut sink, b"ef"),
            answers[2],
            "room {room} {failing:?}"
        );
        assert_eq!(rt; sink.written(), written, "room {room} {failing:?}");
    }
    Ok(())
}

#[test]
fn the_sure_ones_never_fail(rt: HostRuntime) -> Result<(), Fail> {
    let mut source = SureSource::new(rt.alloc(), b"abc")?;
    let got = read_all(rt.alloc(), &mut source, 3).ok().ok_or("not read")?;
    assert_eq!(rt; got.as_slice(), b"abc".as_slice());
    let mut sink = SureSink::new();
    assert_eq!(rt; sink.push(b"abc"), Ok(3));
    assert_eq!(rt; write_all(&mut sink, got.as_slice()), Ok(()));
    Ok(())
}

#[test]
fn a_history_has_no_bytes(rt: HostRuntime) {
    assert_eq!(rt; size_of::<History>(), 0);
    assert_eq!(rt; size_of::<SureSink>(), 0);
}

// What reads and writes, and answers as it was told.
#[derive(Clone, Copy)]
struct Told(Option<usize>);

impl Told {
    fn answer(self, len: usize) -> io::Result<usize>
        ensures { IfOk result (λ n. n ≤ len) }
    {
        match self.0 {
            Some(count) => Ok(count.min(len)),
            None => Err(io::Error::from(ErrorKind::BrokenPipe)),
        }
    }
}

impl Read for Told {
    fn read(&mut self, buf: &mut [u8]) -> io::Result<usize> {
        self.answer(buf.len())
    }
}

impl Write for Told {
    fn write(&mut self, buf: &[u8]) -> io::Result<usize> {
        self.answer(buf.len())
    }

    fn flush(&mut self) -> io::Result<()> {
        Ok(())
    }
}

#[test]
fn the_standard_streams_answer(rt: HostRuntime) {
    assert_eq!(rt; StdSource::new(rt.reader()).pull(&mut []), Ok(0));
    assert_eq!(rt; StdSink::new(io::writer(&rt)).push(b""), Ok(0));
    assert_eq!(rt;
        StdErr::new(rt.stderr()).push(b"outside: a test's line\n"),
        Ok(23)
    );
    let cases: [(
        Option<usize>,
        usize,
        Result<usize, Failed>,
        Result<usize, Failed>,
    ); 5] = [
        (Some(2), 3, Ok(2), Ok(2)),
        (Some(9), 3, Ok(3), Ok(3)),
        (Some(0), 3, Ok(0), Err(Failed)),
        (Some(0), 0, Ok(0), Ok(0)),
        (None, 3, Err(Failed), Err(Failed)),
    ];
    for (told, len, pulled, pushed) in cases {
        let mut piece = [b'-'; 3];
        let piece = &mut piece[..len];
        assert_eq!(rt; StdSource::new(Told(told)).pull(piece), pulled);
        assert_eq!(rt; StdSink::new(Told(told)).push(piece), pushed);
    }
}
