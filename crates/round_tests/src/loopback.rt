// A connection of this machine's own network, to a server of two workers.
use crate::served::CREATE;
use std::alloc::Global;
use std::io::{self, Read, Write};
use std::net::{Ipv4Addr, Net, SocketAddr, TcpListener, TcpStream};
use std::sync::Wait;
use std::test::Fail;
use std::thread::{self, Threads, join};
use std::time::{Clock, Duration};
use tracker_cli::PortLinks;
use tracker_keeper::MemoryKeeper;
use tracker_serve::serve;
use tracker_server::{Links, NextLink};
use turn_workers::OpenGate;

/// How often a client tries to connect.
const TRIES: u32 = 1_000;

/// How many milliseconds it waits between two tries.
const PAUSE: u64 = 10;

/// What it is answered to.
const OK_LINE: &[u8] = b"HTTP/1.1 200 OK\r\n";

const BODY: &[u8] = b"\r\n\r\n{\"ok\":{\"already\":false,\"change\":1,\"issue\":\"OPS-1\"}}";

/// The first connections of some.
#[derive(Drop)]
struct FirstLinks<K: Links + Drop> {
    links: K,
    left: u32,
}

impl<K: Links + Drop> Links for FirstLinks<K> {
    type In = K::In;

    type Out = K::Out;

    type At = K::At;

    ghost use Rattle.std.specs.Prelude.{None};

    ghost ahead = { λ l. None };

    ghost faults = { λ l. K.faults l.links };

    fn next(&mut self) -> NextLink<K::In, K::Out, K::At> {
        if self.left == 0 {
            return NextLink::End;
        }
        self.left = self.left.wrapping_sub(1);
        self.links.next()
    }
}

// Connects to that port as soon as somebody listens on it.
fn connected<R: Net<Listener = TcpListener, Stream = TcpStream> + Clock>(
    rt: &R,
    port: u16,
) -> io::Result<TcpStream> {
    for _ in 0..TRIES {
        if let Ok(stream) = TcpStream::connect(rt, SocketAddr::from((Ipv4Addr::LOCALHOST, port))) {
            return Ok(stream);
        }
        thread::sleep(rt, Duration::from_millis(PAUSE));
    }
    Err(io::Error::from(io::ErrorKind::TimedOut))
}

// What comes back on that port to these bytes, up to the end.
fn answered<R: Net<Listener = TcpListener, Stream = TcpStream> + Clock>(
    rt: &R,
    alloc: Global,
    port: u16,
    sent: &[u8],
) -> io::Result<Vec<u8>> {
    let mut stream = connected(rt, port)?;
    stream.write_all(sent)?;
    let mut came = Vec::new(alloc);
    stream.read_to_end(&mut came)?;
    Ok(came)
}

// A port that nobody listens on.
fn free_port<R: Net<Listener = TcpListener, Stream = TcpStream>>(rt: &R) -> io::Result<u16> {
    let listener = TcpListener::bind(rt, SocketAddr::from((Ipv4Addr::LOCALHOST, 0)))?;
    Ok(listener.local_addr()?.port())
}

// The status of a server by these words that serves one of these connections.
fn first_served<K, R>(rt: &R, alloc: Global, words: &[String], links: K) -> Option<u8>
where
    K: Links + Send + Drop,
    K::In: Send,
    K::Out: Send,
    K::At: Send,
    R: Threads + Wait + Sync,
{
    let Ok(keeper) = MemoryKeeper::new(alloc, &[], Vec::new(alloc)) else {
        return None;
    };
    let links = FirstLinks { links, left: 1 };
    let (status, _links, _keeper) = serve(alloc, rt, words, links, keeper, &OpenGate);
    Some(status)
}

// The status of a server of two workers that serves one connection of that port.
fn status<R>(rt: &R, alloc: Global, port: u16) -> Option<u8>
where
    R: Threads + Wait + Sync + Net<Listener = TcpListener, Stream = TcpStream> + Clock,
{
    let Ok(word) = format!(in alloc; "{port}") else {
        return None;
    };
    let mut words = Vec::new(alloc);
    for text in ["serve", word.as_str(), "2"] {
        let Ok(text) = String::from_str(alloc, text) else {
            return None;
        };
        if words.push(text).is_err() {
            return None;
        }
    }
    first_served(rt, alloc, &words, PortLinks::new(rt, word.as_str()))
}

#[test]
fn a_connection_of_this_machine_is_served(rt: HostRuntime) -> Result<(), Fail> {
    let port = free_port(&rt)?;
    let (rt, alloc) = (&rt, rt.alloc());
    let (came, status) = join(
        rt,
        move || answered(rt, alloc, port, CREATE),
        move || status(rt, alloc, port),
    );
    let came = came?;
    assert_eq!(rt; status, Some(0));
    assert!(rt; came.starts_with(OK_LINE) && came.ends_with(BODY));
    Ok(())
}
