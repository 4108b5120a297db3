//! A door over a network whose accepts fail, and a connection whose peer says nothing for a while.

use std::io;
use std::io::{ErrorKind, Read, Write};
use std::net::{Net, OpenListener, OpenStream, SocketAddr};
use std::os::fd::{AsRawFd, RawFd};
use std::rt::Clock;
use std::sync::atomic::{AtomicU64, Ordering};
use std::time::Duration;
use wk_base::{Failed, Sink, Source};
use wk_net::{Door, TcpDoor, TcpLink};

/// The numbers with which accepts fail, one after the other, before one succeeds; how many accepts were tried, and how often
/// it was waited for 100 ms.
#[derive(Drop)]
struct Accepts {
    numbers: [i32; 3],
    tried: AtomicU64,
    waited: AtomicU64,
}

/// A stream that ends at once, and takes just the options that each connection is to have.
#[derive(Drop)]
struct Quiet;

/// Nothing where it is so; else an error.
fn ok_where(is_so: bool) -> io::Result<()> {
    if is_so {
        Ok(())
    } else {
        Err(ErrorKind::InvalidInput.into())
    }
}

impl Read for Quiet {
    fn read(&mut self, _buf: &mut [u8]) -> io::Result<usize> {
        Ok(0)
    }
}

impl Write for Quiet {
    fn write(&mut self, _buf: &[u8]) -> io::Result<usize> {
        Ok(0)
    }

    fn flush(&mut self) -> io::Result<()> {
        Ok(())
    }
}

impl AsRawFd for Quiet {
    fn as_raw_fd(&self) -> RawFd {
        -1
    }
}

impl OpenStream for Quiet {
    fn set_nodelay(&self, nodelay: bool) -> io::Result<()> {
        ok_where(nodelay)
    }

    fn set_read_timeout(&self, dur: Option<Duration>) -> io::Result<()> {
        ok_where(dur == Some(Duration::from_secs(5)))
    }

    fn set_write_timeout(&self, dur: Option<Duration>) -> io::Result<()> {
        ok_where(dur == Some(Duration::from_secs(60)))
    }
}

/// A listener whose accepts fail so; behind ten of them each one fails.
#[derive(Drop)]
struct Flaky<'a> {
    accepts: &'a Accepts,
}

impl OpenListener for Flaky<'_> {
    type Stream = Quiet;

    fn accept(&self) -> io::Result<(Quiet, SocketAddr)> {
        let numbers = self.accepts.numbers;
        match self.accepts.tried.fetch_add(1, Ordering::SeqCst) {
            0 => Err(io::Error::from_raw_os_error(numbers[0])),
            1 => Err(io::Error::from_raw_os_error(numbers[1])),
            2 => Err(io::Error::from_raw_os_error(numbers[2])),
            count if count >= 10 => Err(io::Error::from_raw_os_error(9)),
            _ => Ok((Quiet, SocketAddr::from(([127, 0, 0, 1], 1)))),
        }
    }
}

impl AsRawFd for Flaky<'_> {
    fn as_raw_fd(&self) -> RawFd {
        -1
    }
}

/// A network of such listeners, and a clock that counts the waits of 100 ms.
#[derive(Drop)]
struct FlakyNet<'a> {
    accepts: &'a Accepts,
}

impl<'a> Net for FlakyNet<'a> {
    type Stream = Quiet;

    type Listener = Flaky<'a>;

    fn bind(&self, _addr: SocketAddr) -> io::Result<Flaky<'a>> {
        Ok(Flaky {
            accepts: self.accepts,
        })
    }

    fn connect(&self, _addr: SocketAddr) -> io::Result<Quiet> {
        Err(ErrorKind::Unsupported.into())
    }
}

impl Clock for FlakyNet<'_> {
    fn monotonic(&self) -> io::Result<Duration> {
        Err(ErrorKind::Unsupported.into())
    }

    fn since_1970(&self) -> io::Result<Duration> {
        Err(ErrorKind::Unsupported.into())
    }

    fn sleep(&self, duration: Duration) {
        if duration == Duration::from_millis(100) {
            self.accepts.waited.fetch_add(1, Ordering::SeqCst);
        }
    }
}

/// Whether a connection came of accepts that fail so, how many were tried, how often it was waited, and the door's faults:
/// one of them is that it was asked before it listened.
fn accepted(numbers: [i32; 3]) -> (Result<bool, Failed>, u64, u64, u64) {
    let accepts = Accepts {
        numbers,
        tried: AtomicU64::new(0),
        waited: AtomicU64::new(0),
    };
    let mut door = TcpDoor::new(FlakyNet { accepts: &accepts });
    let early = door.accept().is_ok();
    let listens = door.listen("127.0.0.1:1").is_ok();
    let came = match door.accept() {
        Ok(link) => Ok(link.is_some() && listens && !early),
        Err(Failed) => Err(Failed),
    };
    let faults = door.faults();
    (
        came,
        accepts.tried.load(Ordering::SeqCst),
        accepts.waited.load(Ordering::SeqCst),
        faults,
    )
}

#[test]
fn some_errors_of_an_accept_are_passed_over(rt: HostRuntime) {
    // Interrupted, aborted, a protocol error; descriptors and memory that are wanting; a bad descriptor.
    for (numbers, wanted) in [
        ([4, 103, 71], (Ok(true), 4, 0, 1)),
        ([24, 23, 105], (Ok(true), 4, 3, 1)),
        ([103, 9, 103], (Err(Failed), 2, 0, 2)),
    ] {
        assert_eq!(rt; accepted(numbers), wanted);
    }
}

/// A stream that takes a byte of each write, and gives one at each read behind so many that waited in vain.
#[derive(Drop)]
struct Slow<'a> {
    waits: &'a AtomicU64,
}

impl Read for Slow<'_> {
    fn read(&mut self, buf: &mut [u8]) -> io::Result<usize> {
        if self.waits.load(Ordering::SeqCst) > 0 {
            self.waits.fetch_sub(1, Ordering::SeqCst);
            return Err(ErrorKind::WouldBlock.into());
        }
        Ok(buf.len().min(1))
    }
}

impl Write for Slow<'_> {
    fn write(&mut self, buf: &[u8]) -> io::Result<usize> {
        Ok(buf.len().min(1))
    }

    fn flush(&mut self) -> io::Result<()> {
        Ok(())
    }
}

/// Whether a read gives a byte that comes behind so many waits.
fn hears(link: &mut TcpLink<Slow<'_>>, waits: &AtomicU64, count: u64) -> bool {
    waits.store(count, Ordering::SeqCst);
    let mut room = [0; 1];
    link.read(&mut room).is_ok()
}

#[test]
fn a_silent_peer_is_waited_for_less_behind_a_reply(rt: HostRuntime) {
    let waits = AtomicU64::new(0);
    let mut link = TcpLink::new(Slow { waits: &waits });
    // Before the first reply.
    assert!(rt; hears(&mut link, &waits, 11));
    assert!(rt; !hears(&mut link, &waits, 12));
    // Behind a reply.
    assert!(rt; link.write(b"x").is_ok());
    assert!(rt; !hears(&mut link, &waits, 1));
    assert!(rt; hears(&mut link, &waits, 0));
    // Within the next message.
    assert!(rt; hears(&mut link, &waits, 11));
    assert!(rt; !hears(&mut link, &waits, 12));
}
