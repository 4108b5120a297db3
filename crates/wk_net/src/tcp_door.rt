// What connections over TCP come in by.
ghost use Rattle.std.specs.Prelude.{◌≡◌, ◌≤◌, None};
ghost use Rattle.wk_base.specs.Faults.{one_more};
ghost use Rattle.wk_net.specs.Doors.{door_faults_of};

use crate::TcpLink;
use crate::tcp_link::WAITS;
use std::io::{ErrorKind, Read, Write};
use std::net::{Net, OpenListener, OpenStream, TcpListener};
use std::rt::Clock;
use std::time::Duration;
use std::{io, thread};
use wk_base::Failed;
use wk_door::Door;

/// How long a read of a connection waits for a peer that may be done, in seconds: behind a reply (Apache's KeepAliveTimeout).
const KEEP_ALIVE_TIMEOUT: u64 = 5;

/// How long a read waits for a peer that is expected to send, and a write for one that is to take, in seconds (Apache's TimeOut).
const TIMEOUT: u64 = KEEP_ALIVE_TIMEOUT * WAITS as u64;

/// How many times an accept waits for descriptors to come free before it fails.
const MOST_WAITS: u32 = 700;

/// How long it waits each time, in milliseconds. All waits together are longer than the timeout of a connection.
const WAIT: u64 = 100;

/// What connections over TCP come in by, over a network. It tells nothing.
#[derive(Drop)]
pub struct TcpDoor<R, L> {
    net: R,
    listener: Option<L>,
    faults: u64,
    error: Option<io::Error>,
}

impl<R: Net> TcpDoor<R, R::Listener> {
    /// A door over this network, which listens nowhere yet. No memory is taken.
    pub fn new(net: R) -> TcpDoor<R, R::Listener>
        ensures { door_faults_of result ≡ 0 }
    {
        TcpDoor {
            net,
            listener: None,
            faults: 0,
            error: None,
        }
    }
}

impl<R, L> TcpDoor<R, L> {
    /// How many calls have failed.
    pub fn faults(&self) -> u64
        ensures { result ≡ door_faults_of self.now }
    {
        self.faults
    }

    /// Why the last call that failed did, and None where none has.
    pub fn error(&self) -> Option<io::Error> {
        self.error
    }
}

/// Why no connection was accepted.
enum Trouble {
    /// It is the connection's own: it was gone before it was accepted.
    Gone,
    /// Descriptors, or the system's memory for them, are wanting.
    Crowded,
    /// It is the door's.
    Broken,
}

/// What an error of an accept says, by its number on Linux (accept(2)).
fn trouble_of(error: &io::Error) -> Trouble {
    if error.kind() == ErrorKind::Interrupted {
        return Trouble::Gone;
    }
    match error.raw_os_error() {
        // ENFILE, EMFILE, ENOBUFS, ENOMEM
        Some(23 | 24 | 105 | 12) => Trouble::Crowded,
        // EPERM, EPROTO, ENONET, ENETDOWN, ENETUNREACH, ENOPROTOOPT, EOPNOTSUPP, ECONNABORTED, EHOSTDOWN, EHOSTUNREACH
        Some(1 | 71 | 64 | 100 | 101 | 92 | 95 | 103 | 112 | 113) => Trouble::Gone,
        _ => Trouble::Broken,
    }
}

/// Sets what each connection has: no small reply is held back, and each wait of a read, and a write, lasts for so long at most.
pub(crate) fn prepare<S: OpenStream>(stream: &S) -> io::Result<()> {
    stream.set_nodelay(true)?;
    stream.set_read_timeout(Some(Duration::from_secs(KEEP_ALIVE_TIMEOUT)))?;
    stream.set_write_timeout(Some(Duration::from_secs(TIMEOUT)))
}

/// Accepts until a connection comes that isn't gone. Where descriptors are wanting it waits a little, so many times at most.
pub(crate) fn next_stream<R: Clock, L: OpenListener>(
    clock: &R,
    listener: &L,
) -> io::Result<L::Stream>
where
    L::Stream: OpenStream,
{
    let mut waits = 0;
    'accepts: for _ in 0..u64::MAX {
        match listener.accept() {
            Ok((stream, _)) => {
                if prepare(&stream).is_ok() {
                    return Ok(stream);
                }
            }
            Err(error) => match trouble_of(&error) {
                Trouble::Gone => {}
                Trouble::Crowded if waits < MOST_WAITS => {
                    waits += 1;
                    thread::sleep(clock, Duration::from_millis(WAIT));
                }
                Trouble::Crowded | Trouble::Broken => return Err(error),
            },
        }
    }
    Err(ErrorKind::Other.into())
}

impl<R: Net + Clock> Door for TcpDoor<R, R::Listener>
where
    R::Stream: OpenStream + Read + Write + Drop,
    R: Drop,
{
    type Link = TcpLink<R::Stream>;

    ghost told = { λ _. None };

    ghost faults = { door_faults_of };

    /// Binds the address, an IP address or a host's name with a port. Each error is a fault.
    fn listen(&mut self, address: &str) -> Result<(), Failed> {
        match TcpListener::bind(&self.net, address) {
            Ok(listener) => {
                self.listener = Some(listener);
                Ok(())
            }
            Err(error) => {
                self.error = Some(error);
                Err(count_fault(&mut self.faults))
            }
        }
    }

    /// Waits for a connection. One that is gone before it is accepted is passed over. Where descriptors are wanting it waits
    /// 100 ms and tries again, 700 times at most; then, and at any other error, and where it listens nowhere, it fails.
    fn accept(&mut self) -> Result<Option<TcpLink<R::Stream>>, Failed> {
        let Some(listener) = &self.listener else {
            return Err(count_fault(&mut self.faults));
        };
        match next_stream(&self.net, listener) {
            Ok(stream) => Ok(Some(TcpLink::new(stream))),
            Err(error) => {
                self.error = Some(error);
                Err(count_fault(&mut self.faults))
            }
        }
    }
}

// Counts a fault, and answers it.
fn count_fault(faults: &mut u64) -> Failed
    ensures counted { faults.new ≡ one_more faults.old }
    ensures never_falls { faults.old ≤ faults.new }
{
    *faults = faults.saturating_add(1);
    Failed
}
