// What comes in and goes out over a connection of a port. It waits for its client for a limited time, so that whoever is silent,
// slow or gone holds nobody else up.
ghost use Rattle.std.specs.Prelude.{◌<◌, length, IfOk};
ghost use Rattle.std.specs.Io.{ReadsAtMost, WritesAtMost};

use request_lines::{Failed, Sink, Source};
use std::io::{self, ErrorKind, Read, Write};
use std::net::{Shutdown, TcpStream};
use std::time::{Clock, Duration, Instant};

/// How many milliseconds a connection waits at once for its client to send or to take something.
const LONGEST_WAIT: u64 = 10_000;

/// How many milliseconds a connection lasts.
const LONGEST_LINK: u64 = 60_000;

/// For how many milliseconds what a client still sends is read away at the end of its connection.
const LONGEST_END: u64 = 200;

/// In how many pieces, of up to 4,096 bytes.
const MOST_PIECES: u32 = 16_384;

/// How often a signal may break off one waiting.
const MOST_SIGNALS: u32 = 1_000;

/// The time up to which a connection lasts that begins now.
pub fn link_end<R: Clock>(rt: &R) -> io::Result<Instant> {
    end_in(rt, LONGEST_LINK)
}

// The time in so many milliseconds.
fn end_in<R: Clock>(rt: &R, millis: u64) -> io::Result<Instant> {
    match Instant::now(rt)?.checked_add(Duration::from_millis(millis)) {
        Some(end) => Ok(end),
        None => Err(io::Error::from(ErrorKind::InvalidData)),
    }
}

// What is left of a time that ends then, but so many milliseconds at most. There is none behind the end, or where the clock can't be read.
fn left_until<R: Clock>(rt: &R, end: Instant, most: u64) -> Option<Duration> {
    let Ok(now) = Instant::now(rt) else {
        return None;
    };
    let left = end.duration_since(now);
    if left.is_zero() {
        return None;
    }
    Some(left.min(Duration::from_millis(most)))
}

/// What comes in over a connection. It fails where its client sends nothing for ten seconds, and a minute after it began.
pub struct PortSource<'a, R: Clock> {
    rt: &'a R,
    stream: TcpStream,
    end: Instant,
    faults: u64,
}

impl<'a, R: Clock> PortSource<'a, R> {
    /// What comes in over this stream, up to that time.
    pub fn new(rt: &'a R, stream: TcpStream, end: Instant) -> Self {
        PortSource {
            rt,
            stream,
            end,
            faults: 0,
        }
    }
}

// Reads, once more where a signal broke off the waiting.
fn read_in_time<R: Clock>(
    rt: &R,
    stream: &mut TcpStream,
    end: Instant,
    room: &mut [u8],
) -> Result<usize, Failed>
    ensures { ReadsAtMost result room.new }
{
    for _ in 0..MOST_SIGNALS {
        let Some(wait) = left_until(rt, end, LONGEST_WAIT) else {
            return Err(Failed);
        };
        if stream.set_read_timeout(Some(wait)).is_err() {
            return Err(Failed);
        }
        match stream.read(room) {
            Ok(count) => return Ok(count),
            Err(error) => {
                if error.kind() != ErrorKind::Interrupted {
                    return Err(Failed);
                }
            }
        }
    }
    Err(Failed)
}

impl<'a, R: Clock> Source for PortSource<'a, R> {
    ghost use Rattle.std.specs.Prelude.{None};

    ghost left = { λ s. None };

    ghost faults = { λ s. s.faults };

    fn read(&mut self, room: &mut [u8]) -> Result<usize, Failed> {
        match read_in_time(self.rt, &mut self.stream, self.end, room) {
            Ok(count) => Ok(count),
            Err(Failed) => {
                self.faults = self.faults.saturating_add(1);
                Err(Failed)
            }
        }
    }
}

// The connection ends with what comes in over it, whatever still goes out.
impl<'a, R: Clock> Drop for PortSource<'a, R> {
    fn drop(self) {
        let PortSource {
            rt,
            stream,
            end: _,
            faults: _,
        } = self;
        let _ = finish(rt, stream);
    }
}

// Ends a connection: what was written goes out, and for a moment what its client still sends is read away. A socket that is closed
// while something is unread resets the connection, and a client may lose the response then.
fn finish<R: Clock>(rt: &R, stream: TcpStream) -> io::Result<()> {
    stream.shutdown(Shutdown::Write)?;
    let end = end_in(rt, LONGEST_END)?;
    let mut stream = stream;
    let mut room = [0u8; 4_096];
    for _ in 0..MOST_PIECES {
        let Some(wait) = left_until(rt, end, LONGEST_END) else {
            return Ok(());
        };
        stream.set_read_timeout(Some(wait))?;
        if stream.read(&mut room)? == 0 {
            return Ok(());
        }
    }
    Ok(())
}

/// What goes out over a connection. It fails where its client takes nothing for ten seconds, and a minute after it began.
#[derive(Drop)]
pub struct PortSink<'a, R: Clock> {
    rt: &'a R,
    stream: TcpStream,
    end: Instant,
    faults: u64,
}

impl<'a, R: Clock> PortSink<'a, R> {
    /// What goes out over this stream, up to that time.
    pub fn new(rt: &'a R, stream: TcpStream, end: Instant) -> Self {
        PortSink {
            rt,
            stream,
            end,
            faults: 0,
        }
    }
}

// Writes, once more where a signal broke off the waiting.
fn write_in_time<R: Clock>(
    rt: &R,
    stream: &mut TcpStream,
    end: Instant,
    piece: &[u8],
) -> Result<usize, Failed>
    ensures some { IfOk result (λ n. 0 < n) }
    ensures bound { WritesAtMost result piece.now }
{
    for _ in 0..MOST_SIGNALS {
        let Some(wait) = left_until(rt, end, LONGEST_WAIT) else {
            return Err(Failed);
        };
        if stream.set_write_timeout(Some(wait)).is_err() {
            return Err(Failed);
        }
        match stream.write(piece) {
            Ok(count) if count > 0 => return Ok(count),
            Ok(_) => return Err(Failed),
            Err(error) => {
                if error.kind() != ErrorKind::Interrupted {
                    return Err(Failed);
                }
            }
        }
    }
    Err(Failed)
}

impl<'a, R: Clock> Sink for PortSink<'a, R> {
    ghost use Rattle.std.specs.Prelude.{None};

    ghost taken = { λ s. None };

    ghost faults = { λ s. s.faults };

    fn write(&mut self, piece: &[u8]) -> Result<usize, Failed> {
        match write_in_time(self.rt, &mut self.stream, self.end, piece) {
            Ok(count) => Ok(count),
            Err(Failed) => {
                self.faults = self.faults.saturating_add(1);
                Err(Failed)
            }
        }
    }
}
