// A connection over TCP.
ghost use Rattle.std.specs.Prelude.{◌≡◌, ◌<◌, ◌≤◌, IfOk, OnErr, OnOk, None, length};
ghost use Rattle.std.specs.Io.KnownBytes.{ReadConsumes, WriteAppends};
ghost use Rattle.wk_base.specs.Faults.{Rose, one_more};
ghost use Rattle.wk_net.specs.Links.{read_faults_of, write_faults_of};

use std::io;
use std::io::{ErrorKind, Read, Write};
use wk_base::{Failed, Sink, Source};
use wk_link::Link;

/// How many waits of a read, each as long as the stream lets a read wait, make up the timeout of a peer that is expected to send:
/// before the first reply, and within a message.
pub(crate) const WAITS: u32 = 12;

/// A connection over a stream of std. It tells nothing of its bytes.
#[derive(Drop)]
pub struct TcpLink<S> {
    stream: S,
    read_faults: u64,
    write_faults: u64,
    // Whether what it did last was to send: then the peer has had its reply, and may be done.
    has_sent: bool,
}

impl<S> TcpLink<S> {
    /// A connection over this stream. No read and no write has failed yet. No memory is taken.
    pub fn new(stream: S) -> TcpLink<S>
        ensures reads { read_faults_of result ≡ 0 }
        ensures writes { write_faults_of result ≡ 0 }
    {
        TcpLink {
            stream,
            read_faults: 0,
            write_faults: 0,
            has_sent: false,
        }
    }

    /// How many reads have failed.
    pub fn read_faults(&self) -> u64
        ensures { result ≡ read_faults_of self.now }
    {
        self.read_faults
    }

    /// How many writes have failed.
    pub fn write_faults(&self) -> u64
        ensures { result ≡ write_faults_of self.now }
    {
        self.write_faults
    }
}

impl<S: Read + Write + Drop> Source for TcpLink<S> {
    ghost rest = { λ _. None };

    ghost faults = { read_faults_of };

    /// Reads once, and again where the stream waited in vain, 12 waits in all; where what the connection did last was to send,
    /// one wait is all. A last wait in vain is a fault, and so is each other error of the stream.
    fn read(&mut self, room: &mut [u8]) -> Result<usize, Failed>
        requires { 0 < length room.old }

        ensures bytes { ReadConsumes None None result room.new }
        ensures count { IfOk result (λ n. n ≤ length room.old) }
        ensures never_falls { read_faults_of self.old ≤ read_faults_of self.new }
        ensures no_fault { OnOk result (read_faults_of self.new ≡ read_faults_of self.old) }
        ensures cause { OnErr result (Rose (read_faults_of self.old) (read_faults_of self.new)) }

        ensures counted { OnErr result (read_faults_of self.new ≡ one_more (read_faults_of self.old)) }
        ensures writes { write_faults_of self.new ≡ write_faults_of self.old }
    {
        let waits = if self.has_sent { 1 } else { WAITS };
        match read_within(&mut self.stream, room, waits) {
            Ok(n) => {
                self.has_sent = false;
                Ok(n)
            }
            Err(_) => {
                self.read_faults = self.read_faults.saturating_add(1);
                Err(Failed)
            }
        }
    }
}

impl<S: Read + Write + Drop> Sink for TcpLink<S> {
    ghost taken = { λ _. None };

    ghost faults = { write_faults_of };

    /// Writes once. Each error of the stream is a fault, one for a write that waited too long too, and so is a write that takes
    /// nothing.
    fn write(&mut self, piece: &[u8]) -> Result<usize, Failed>
        requires { 0 < length piece.now }

        ensures bytes { WriteAppends None None result piece.now }
        ensures count { IfOk result (λ n. (0 < n) × (n ≤ length piece.now)) }
        ensures never_falls { write_faults_of self.old ≤ write_faults_of self.new }
        ensures no_fault { OnOk result (write_faults_of self.new ≡ write_faults_of self.old) }
        ensures cause { OnErr result (Rose (write_faults_of self.old) (write_faults_of self.new)) }

        ensures counted { OnErr result (write_faults_of self.new ≡ one_more (write_faults_of self.old)) }
        ensures reads { read_faults_of self.new ≡ read_faults_of self.old }
    {
        match self.stream.write(piece) {
            Ok(0) | Err(_) => {
                self.write_faults = self.write_faults.saturating_add(1);
                Err(Failed)
            }
            Ok(n) => {
                self.has_sent = true;
                Ok(n)
            }
        }
    }
}

/// Whether a read ended because the peer sent nothing as long as the stream lets it wait.
fn has_waited(error: &io::Error) -> bool {
    matches!(error.kind(), ErrorKind::WouldBlock | ErrorKind::TimedOut)
}

/// Reads once, and again behind a wait in vain, so many waits in all.
fn read_within<S: Read>(stream: &mut S, room: &mut [u8], waits: u32) -> io::Result<usize>
    ensures count { IfOk result (λ n. n ≤ length room.old) }
    ensures room { length room.new ≡ length room.old }
{
    for _ in 1..waits {
        match stream.read(room) {
            Err(error) if has_waited(&error) => {}
            done => return done,
        }
    }
    stream.read(room)
}

impl<S: Read + Write + Drop> Link for TcpLink<S> {
    fn receive(&mut self, room: &mut [u8]) -> Result<usize, Failed> {
        self.read(room)
    }

    fn send(&mut self, piece: &[u8]) -> Result<usize, Failed> {
        self.write(piece)
    }
}
