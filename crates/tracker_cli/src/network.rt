// The machine's own network and clock, which tell nothing of what is to come.
ghost use Rattle.std.specs.Prelude.{◌≡◌, ◌<◌, ◌≤◌};
ghost use Rattle.request_lines.specs.Causes.{Rose};

use crate::number::port_of;
use crate::port_streams::{PortSink, PortSource, link_end};
use request_lines::Clock;
use std::net::{Net, TcpListener, TcpStream};
use std::time::{Clock as SystemClock, Duration, SystemTime, UNIX_EPOCH};
use std::{io, thread};
use tracker_server::{Links, NextLink};

/// The last second of the year 2099.
const LAST: u64 = 4_102_444_799;

/// How often in a row taking a connection may fail.
const MOST_TRIES: u64 = 100;

/// By how many milliseconds each pause behind such a failure is longer than the one before. All of them together outlast every
/// connection that is served beside.
const PAUSE: u64 = 20;

/// The machine's clock. Where it can't be read, or is set before 1970, it stands where it stood.
#[derive(Drop)]
pub struct MachineClock<'a, R: SystemClock> {
    rt: &'a R,
    last: u64,
}

impl<'a, R: SystemClock> MachineClock<'a, R> {
    /// The clock of this machine.
    pub fn new(rt: &'a R) -> Self {
        MachineClock { rt, last: 0 }
    }
}

impl<R: SystemClock> Clock for MachineClock<'_, R> {
    ghost use Rattle.std.specs.Prelude.{None};

    ghost ahead = { λ c. None };

    fn now(&mut self) -> u64 {
        if let Ok(now) = SystemTime::now(self.rt) {
            if let Ok(since) = now.duration_since(UNIX_EPOCH) {
                self.last = since.as_secs();
            }
        }
        self.last.min(LAST)
    }
}

/// The connections of a port of this machine, on 127.0.0.1 alone. The port is bound to when the first connection is asked for.
/// They fail where it can't be, where the word names no port, and where taking a connection fails again and again.
#[derive(Drop)]
pub struct PortLinks<'a, R: Net<Listener = TcpListener, Stream = TcpStream> + SystemClock> {
    rt: &'a R,
    port: &'a str,
    listener: Option<TcpListener>,
    faults: u64,
}

impl<'a, R: Net<Listener = TcpListener, Stream = TcpStream> + SystemClock> PortLinks<'a, R> {
    /// The connections of the port that this word names.
    pub fn new(rt: &'a R, port: &'a str) -> Self {
        PortLinks {
            rt,
            port,
            listener: None,
            faults: 0,
        }
    }

    // The listener, which is made where there is none yet.
    fn take_listener(&mut self) -> io::Result<TcpListener>
        ensures { self.new.faults ≡ self.old.faults }
    {
        match self.listener.take() {
            Some(listener) => Ok(listener),
            None => bound(self.rt, self.port),
        }
    }

    // So many failures more.
    fn count_faults(&mut self, failures: u64)
        ensures later { self.old.faults ≤ self.new.faults }
        ensures rose { 0 < failures → Rose self.old.faults self.new.faults }
    {
        self.faults = self.faults.saturating_add(failures);
    }
}

// Binds 127.0.0.1 at the port that this word names.
fn bound<R: Net<Listener = TcpListener, Stream = TcpStream>>(
    rt: &R,
    port: &str,
) -> io::Result<TcpListener> {
    match port_of(port) {
        Some(port) => TcpListener::bind(rt, ("127.0.0.1", port)),
        None => Err(io::Error::from(io::ErrorKind::InvalidInput)),
    }
}

// Takes the next connection, and says how often that failed before. What makes it fail passes: a client that was gone before its
// turn, or no descriptor or buffer that is free.
fn accept_in_turns<'a, R: SystemClock>(
    rt: &'a R,
    listener: &TcpListener,
) -> (Option<(PortSource<'a, R>, PortSink<'a, R>)>, u64) {
    for failures in 0..MOST_TRIES {
        if let Ok(streams) = accept(rt, listener) {
            return (Some(streams), failures);
        }
        thread::sleep(
            rt,
            Duration::from_millis(PAUSE.saturating_mul(failures.saturating_add(1))),
        );
    }
    (None, MOST_TRIES)
}

// Takes the next connection, as it is read and as it is written.
fn accept<'a, R: SystemClock>(
    rt: &'a R,
    listener: &TcpListener,
) -> io::Result<(PortSource<'a, R>, PortSink<'a, R>)> {
    let (stream, _) = listener.accept()?;
    // A response isn't to wait until the one before it has arrived.
    let _ = stream.set_nodelay(true);
    let other = stream.try_clone()?;
    let end = link_end(rt)?;
    Ok((
        PortSource::new(rt, stream, end),
        PortSink::new(rt, other, end),
    ))
}

impl<'a, R: Net<Listener = TcpListener, Stream = TcpStream> + SystemClock> Links
    for PortLinks<'a, R> {
    type In = PortSource<'a, R>;

    type Out = PortSink<'a, R>;

    type At = MachineClock<'a, R>;

    ghost use Rattle.std.specs.Prelude.{None};

    ghost ahead = { λ l. None };

    ghost faults = { λ l. l.faults };

    fn next(&mut self) -> NextLink<PortSource<'a, R>, PortSink<'a, R>, MachineClock<'a, R>> {
        let Ok(listener) = self.take_listener() else {
            self.count_faults(1);
            return NextLink::Failed;
        };
        let (accepted, failures) = accept_in_turns(self.rt, &listener);
        self.listener = Some(listener);
        self.count_faults(failures);
        match accepted {
            Some((source, sink)) => NextLink::Link {
                source,
                sink,
                clock: MachineClock::new(self.rt),
            },
            None => {
                self.count_faults(1);
                NextLink::Failed
            }
        }
    }
}
