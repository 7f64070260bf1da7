// The connections that the workers of a round share.
ghost use Rattle.std.specs.Prelude.{◌≡◌, ◌<◌, ◌≤◌, ℕ, Bool, true, false, [], Some, IsSome};
ghost use Rattle.request_lines.specs.Causes.{Rose};
ghost use Rattle.tracker_rounds.specs.Left.{none_left};
ghost use Rattle.tracker_rounds.specs.declared.link_desk.LinksCause.{LinksCause};

use std::marker::{Brand, PhantomData};
use std::sync::{Mutex, Wait};
use tracker_server::{Links, NextLink};

/// How many connections a round serves at most.
pub const MOST_LINKS: u32 = 64;

/// Why a round takes no further connection.
#[derive(Clone, Copy, PartialEq, Eq)]
pub enum LinksCause {
    /// It would take some more.
    Open,

    /// It has taken as many as it may.
    Full,

    /// There is none any more.
    Ended,

    /// They failed.
    Failed,
}

/// How the links were when the round began. A lock tells what its type says and nothing else, so this comes in by the type.
pub trait Begun {
    /// How often they had failed.
    ghost faults_before: { ℕ };

    /// Whether they told which ones were still to come.
    ghost were_told: { Bool };
}

impl Begun for Brand {
    ghost faults_before = { 0 };

    ghost were_told = { false };
}

/// The connections that the workers of a round take one after another, under a lock.
#[derive(Drop)]
pub struct LinkDesk<K: Links + Drop, N: Begun> {
    links: K,
    taken: u32,
    cause: LinksCause,
    of: PhantomData<N>,
    ghost later: { N.faults_before ≤ K.faults links },
    ghost failed: { cause ≡ LinksCause.Failed → Rose N.faults_before (K.faults links) },
    ghost told: { N.were_told ≡ true → IsSome (K.ahead links) },
    ghost ended: { cause ≡ LinksCause.Ended → N.were_told ≡ true → none_left (K.ahead links) ≡ true },
    ghost full: { cause ≡ LinksCause.Full → taken ≡ 64 },
    ghost ended_before: { cause ≡ LinksCause.Ended → taken < 64 },
    ghost failed_before: { cause ≡ LinksCause.Failed → taken < 64 },
    ghost most: { taken ≤ 64 },
}

impl<K: Links + Drop, N: Begun> LinkDesk<K, N> {
    /// These connections, of which none is taken yet.
    pub fn new(links: K) -> Self
        requires faults { N.faults_before ≡ K.faults links }
        requires told { N.were_told ≡ true → IsSome (K.ahead links) }
    {
        LinkDesk {
            links,
            taken: 0,
            cause: LinksCause::Open,
            of: PhantomData,
        }
    }

    // The next connection, where the round takes one more.
    #[tactic(auto, using(crate::proofs::Links::told_on, crate::proofs::Links::ended_told))]
    fn take(&mut self) -> NextLink<K::In, K::Out, K::At> {
        if self.cause != LinksCause::Open {
            return NextLink::End;
        }
        if self.taken == MOST_LINKS {
            self.cause = LinksCause::Full;
            return NextLink::End;
        }
        let next = self.links.next();
        match &next {
            NextLink::Link { .. } => self.taken += 1,
            NextLink::End => self.cause = LinksCause::Ended,
            NextLink::Failed => self.cause = LinksCause::Failed,
        }
        next
    }

    /// What is left of the connections, how many were taken, and why no more were.
    #[tactic(auto, using(crate::proofs::Links::none_left_is))]
    pub fn into_parts(self) -> (K, u32, LinksCause)
        ensures later { N.faults_before ≤ K.faults result.0 }
        ensures failed { result.2 ≡ LinksCause.Failed
            → Rose N.faults_before (K.faults result.0) }
        ensures told { N.were_told ≡ true → IsSome (K.ahead result.0) }
        ensures ended { result.2 ≡ LinksCause.Ended → N.were_told ≡ true
            → K.ahead result.0 ≡ Some [] }
        ensures full { result.2 ≡ LinksCause.Full → result.1 ≡ 64 }
        ensures ended_before { result.2 ≡ LinksCause.Ended → result.1 < 64 }
        ensures failed_before { result.2 ≡ LinksCause.Failed → result.1 < 64 }
        ensures most { result.1 ≤ 64 }
    {
        let LinkDesk {
            links,
            taken,
            cause,
            of: _,
        } = self;
        (links, taken, cause)
    }
}

/// The next connection, for whichever worker asks.
pub fn take_link<R: Wait, K: Links + Drop, N: Begun>(
    rt: &R,
    desk: &Mutex<LinkDesk<K, N>>,
) -> NextLink<K::In, K::Out, K::At> {
    desk.lock(rt).take()
}
