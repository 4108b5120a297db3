//! What sources, sinks and clocks do, over std's readers, writers and clocks and in memory.

use std::alloc::Global;
use std::io::{Cursor, ErrorKind, Read, Write};
use std::test::Fail;
use std::time::Duration;
use std::{io, rt};
use wk_base::{
    Clock, Failed, ListClock, MemSink, MemSource, ReadSource, Sink, Source, SystemClock, WriteSink,
    write_all,
};
use wk_memory::Memory;

/// Gives one byte at each call, and an error at the second.
#[derive(Drop)]
struct FlakyReader {
    calls: u8,
}

impl Read for FlakyReader {
    fn read(&mut self, buf: &mut [u8]) -> io::Result<usize> {
        self.calls = self.calls.saturating_add(1);
        if self.calls == 2 || buf.is_empty() {
            return Err(ErrorKind::Interrupted.into());
        }
        buf[0] = b'a';
        Ok(1)
    }
}

/// Takes one byte at each call, nothing at the second, and gives an error at the third.
#[derive(Drop)]
struct FlakyWriter {
    calls: u8,
}

impl Write for FlakyWriter {
    fn write(&mut self, buf: &[u8]) -> io::Result<usize> {
        self.calls = self.calls.saturating_add(1);
        match self.calls {
            2 => Ok(0),
            3 => Err(ErrorKind::BrokenPipe.into()),
            _ => Ok(buf.len().min(1)),
        }
    }

    fn flush(&mut self) -> io::Result<()> {
        Ok(())
    }
}

/// A clock that reads this time, or can't be read.
#[derive(Drop)]
struct FixedTime(Option<Duration>);

impl rt::Clock for FixedTime {
    fn monotonic(&self) -> io::Result<Duration> {
        self.since_1970()
    }

    fn since_1970(&self) -> io::Result<Duration> {
        match self.0 {
            Some(time) => Ok(time),
            None => Err(ErrorKind::Unsupported.into()),
        }
    }
}

/// What four reads of three bytes each answer, with the bytes that stand in the room then.
fn reads<S: Source>(alloc: Global, source: &mut S) -> Result<String, Memory> {
    let mut told = String::new(alloc);
    let mut room = [b'-'; 3];
    'reads: for _ in 0..4 {
        let answer = source.read(&mut room);
        let text = str::from_utf8(&room).unwrap_or("no text");
        told.push_str(&format!(in alloc; "{answer:?} {text}, ")?)?;
    }
    Ok(told)
}

/// What a write of three bytes answers, three times, and then one of the whole of a text.
fn writes<O: Sink>(sink: &mut O) -> ([Result<usize, Failed>; 3], Result<(), Failed>) {
    let answers = [sink.write(b"abc"), sink.write(b"def"), sink.write(b"ghi")];
    (answers, write_all(sink, b"jkl"))
}

/// What a source in memory tells whose second read fails.
fn memory_reads(alloc: Global) -> Result<String, Memory> {
    let (bytes, fail) = (b"abcde".to_vec(alloc)?, [2].to_vec(alloc)?);
    reads(alloc, &mut MemSource::new(bytes, fail))
}

#[test]
fn a_source_in_memory(rt: HostRuntime) -> Result<(), Fail> {
    let told = memory_reads(rt.alloc())?;
    assert_eq!(rt;
        told.as_str(),
        "Ok(3) abc, Err(Failed) abc, Ok(2) dec, Ok(0) dec, "
    );
    Ok(())
}

#[test]
fn readers_of_std(rt: HostRuntime) -> Result<(), Fail> {
    let mut reader = ReadSource::new(Cursor::new(b"abcde".as_slice()));
    let told = reads(rt.alloc(), &mut reader)?;
    assert_eq!(rt;
        told.as_str(),
        "Ok(3) abc, Ok(2) dec, Ok(0) dec, Ok(0) dec, "
    );
    Ok(())
}

#[test]
fn readers_that_fail(rt: HostRuntime) -> Result<(), Fail> {
    let mut flaky = ReadSource::new(FlakyReader { calls: 0 });
    let told = reads(rt.alloc(), &mut flaky)?;
    assert_eq!(rt;
        told.as_str(),
        "Ok(1) a--, Err(Failed) a--, Ok(1) a--, Ok(1) a--, "
    );
    assert_eq!(rt; flaky.faults(), 1);
    Ok(())
}

#[test]
fn a_sink_in_memory(rt: HostRuntime) -> Result<(), Fail> {
    let mut sink = MemSink::new(rt.alloc(), 8, [2].to_vec(rt.alloc())?)?;
    let wanted = ([Ok(3), Err(Failed), Ok(3)], Err(Failed));
    assert_eq!(rt; writes(&mut sink), wanted);
    assert_eq!(rt; sink.bytes(), b"abcghijk".as_slice());
    Ok(())
}

#[test]
fn writers_of_std(rt: HostRuntime) {
    let mut bytes = Vec::new(rt.alloc());
    let told = writes(&mut WriteSink::new(&mut bytes));
    assert_eq!(rt; told, ([Ok(3), Ok(3), Ok(3)], Ok(())));
    assert_eq!(rt; bytes.as_slice(), b"abcdefghijkl".as_slice());
}

#[test]
fn writers_that_fail(rt: HostRuntime) {
    let mut flaky = WriteSink::new(FlakyWriter { calls: 0 });
    let wanted = ([Ok(1), Err(Failed), Err(Failed)], Ok(()));
    assert_eq!(rt; writes(&mut flaky), wanted);
    assert_eq!(rt; flaky.faults(), 2);
}

#[test]
fn a_list_of_moments(rt: HostRuntime) -> Result<(), Fail> {
    let mut list = ListClock::new([3, 5].to_vec(rt.alloc())?);
    assert_eq!(rt; [list.now(), list.now(), list.now()], [3, 5, 5]);
    Ok(())
}

#[test]
fn the_clock_of_the_system(rt: HostRuntime) {
    let late = Duration::from_millis(5_900);
    let read = SystemClock::new(FixedTime(Some(late))).now();
    let unread = SystemClock::new(FixedTime(None)).now();
    assert_eq!(rt; [read, unread], [5, 0]);
    assert!(rt; SystemClock::new(&rt).now() > 1_600_000_000);
}

#[test]
fn no_room_for_so_many_bytes(rt: HostRuntime) {
    let refused = MemSink::new(rt.alloc(), usize::MAX, Vec::new(rt.alloc()));
    assert!(rt; matches!(refused, Err(Memory)));
}
