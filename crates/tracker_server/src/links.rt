// Connections that come one after another.
ghost use Rattle.std.specs.Prelude.{◌≡◌, ◌↔◌, List, ℕ, Option, Some};
ghost use Rattle.request_lines.specs.Causes.{FailsAt, next_call};
ghost use Rattle.tracker_server.specs.Links.{TakesLink, HasLinkCause, HasFailed};

use request_lines::{Clock, Sink, Source};

/// What comes next.
#[derive(Drop)]
pub enum NextLink<S: Source + Drop, T: Sink + Drop, C: Clock + Drop> {
    /// A connection: what comes in, what goes out, and the clock of its calls.
    Link { source: S, sink: T, clock: C },

    /// There is none any more.
    End,

    /// They failed.
    Failed,
}

/// Connections that come one after another.
pub trait Links {
    type In: Source + Drop;

    type Out: Sink + Drop;

    type At: Clock + Drop;

    /// The connections that are still to come, where they are told.
    ghost ahead: { Self → Option (List (Self.In × Self.Out × Self.At)) };

    /// How often they have failed.
    ghost faults: { Self → ℕ };

    /// The next connection, where one is left.
    fn next(&mut self) -> NextLink<Self::In, Self::Out, Self::At>
        ensures next { TakesLink (ahead self.old) (ahead self.new) result }
        ensures cause { HasLinkCause (faults self.old) (faults self.new) result };
}

/// Connections in memory, which fail at the calls that they are told.
#[derive(Drop)]
pub struct ListLinks<S: Source + Drop, T: Sink + Drop, C: Clock + Drop> {
    links: Vec<(S, T, C)>,
    failing: Vec<u64>,
    calls: u64,
    faults: u64,
}

impl<S: Source + Drop, T: Sink + Drop, C: Clock + Drop> ListLinks<S, T, C> {
    /// These connections. The calls of the numbers in `failing`, counted from 1, fail and take none.
    pub fn new(links: Vec<(S, T, C)>, failing: Vec<u64>) -> Self
        ensures links { result.links.items ≡ links.items }
        ensures failing { result.failing.items ≡ failing.items }
        ensures calls { result.calls ≡ 0 }
        ensures faults { result.faults ≡ 0 }
    {
        ListLinks {
            links,
            failing,
            calls: 0,
            faults: 0,
        }
    }
}

impl<S: Source + Drop, T: Sink + Drop, C: Clock + Drop> Links for ListLinks<S, T, C> {
    type In = S;

    type Out = T;

    type At = C;

    ghost ahead = { λ l. Some l.links.items };

    ghost faults = { λ l. l.faults };

    fn next(&mut self) -> NextLink<S, T, C>
        ensures next { TakesLink (Some self.old.links.items) (Some self.new.links.items) result }
        ensures cause { HasLinkCause self.old.faults self.new.faults result }

        // They fail exactly at the calls that they were told.
        ensures fails { HasFailed result
            ↔ FailsAt self.old.failing.items (next_call self.old.calls) }
        ensures counted { self.new.calls ≡ next_call self.old.calls }
        ensures failing { self.new.failing.items ≡ self.old.failing.items }
    {
        self.calls = self.calls.saturating_add(1);
        if self.failing.contains(&self.calls) {
            self.faults = self.faults.saturating_add(1);
            return NextLink::Failed;
        }
        if self.links.is_empty() {
            return NextLink::End;
        }
        let (source, sink, clock) = self.links.remove(0);
        NextLink::Link {
            source,
            sink,
            clock,
        }
    }
}
