// Servers over a file, and over memory.
ghost use Rattle.std.specs.Prelude.{◌≡◌, ◌≢◌, ◌≤◌, ℕ, map, string_bytes};
ghost use Rattle.store_servers.specs.Keepers.{FileKeeps, FileLeaves, FileTells, file_faults};
ghost use Rattle.store_servers.specs.Keepers.{MemoryKeeps, MemoryLeaves, MemoryTells, memory_faults};
ghost use Rattle.store_servers.specs.Serving.{ServesTracker};
ghost use Rattle.tracker_serve.specs.Serving.{IsServe};

use crate::file_keeper::FileKeeper;
use fields::BUILT_IN;
use std::alloc::Global;
use std::net::{Net, TcpListener, TcpStream};
use std::sync::Wait;
use std::thread::Threads;
use std::time::Clock;
use tracker_cli::PortLinks;
use tracker_keeper::{Keeper, MemoryKeeper};
use tracker_serve::serve;
use turn_workers::OpenGate;

/// Serves HTTP over the tracker of a file on the port that the words name, and hands the keeper back with the status, as
/// [`serve`](tracker_serve::serve) tells it.
pub fn serve_file<R>(rt: &R, words: &[String], keeper: FileKeeper) -> (u8, FileKeeper)
where
    R: Threads
        + Wait
        + Sync
        + Alloc<A = Global>
        + Net<Listener = TcpListener, Stream = TcpStream>
        + Clock,
    ensures usage { result.0 ≡ 1 → (port workers : ℕ)
        → ¬ IsServe (map string_bytes words.now) port workers }
    ensures words { ((port workers : ℕ) → ¬ IsServe (map string_bytes words.now) port workers)
        → result.0 ≡ 1 }
    ensures serves { ServesTracker FileKeeps FileTells file_faults FileLeaves
        (map string_bytes words.now) BUILT_IN.now result.0 keeper result.1 }
    ensures statuses { (result.0 ≤ 6) × (result.0 ≢ 3) }
{
    serve_port(rt, words, keeper)
}

/// The same over rows in memory.
pub fn serve_memory<R>(rt: &R, words: &[String], keeper: MemoryKeeper) -> (u8, MemoryKeeper)
where
    R: Threads
        + Wait
        + Sync
        + Alloc<A = Global>
        + Net<Listener = TcpListener, Stream = TcpStream>
        + Clock,
    ensures usage { result.0 ≡ 1 → (port workers : ℕ)
        → ¬ IsServe (map string_bytes words.now) port workers }
    ensures words { ((port workers : ℕ) → ¬ IsServe (map string_bytes words.now) port workers)
        → result.0 ≡ 1 }
    ensures serves { ServesTracker MemoryKeeps MemoryTells memory_faults MemoryLeaves
        (map string_bytes words.now) BUILT_IN.now result.0 keeper result.1 }
    ensures statuses { (result.0 ≤ 6) × (result.0 ≢ 3) }
{
    serve_port(rt, words, keeper)
}

// Serves HTTP on the port that the word behind `serve` names, until it is stopped, and hands the keeper back.
fn serve_port<R, P>(rt: &R, words: &[String], keeper: P) -> (u8, P)
where
    R: Threads
        + Wait
        + Sync
        + Alloc<A = Global>
        + Net<Listener = TcpListener, Stream = TcpStream>
        + Clock,
    P: Keeper + Send + Drop,
    ensures usage { result.0 ≡ 1 → (port workers : ℕ)
        → ¬ IsServe (map string_bytes words.now) port workers }
    ensures words { ((port workers : ℕ) → ¬ IsServe (map string_bytes words.now) port workers)
        → result.0 ≡ 1 }
    ensures serves { ServesTracker P.keeps P.tells P.faults P.leaves
        (map string_bytes words.now) BUILT_IN.now result.0 keeper result.1 }
    ensures statuses { (result.0 ≤ 6) × (result.0 ≢ 3) }
{
    let port = words.get(1).map_or("", |word| word.as_str());
    let links = PortLinks::new(rt, port);
    let (status, _links, keeper) = serve(rt.alloc(), rt, words, links, keeper, &OpenGate);
    (status, keeper)
}
