// What a round serves.
ghost use Rattle.std.specs.Prelude.{◌≡◌, ◌<◌, ◌≤◌, ◌+◌, ◌++◌, ◌∷◌, List, [], false, map, IfOk, IfSome, OnErr};
ghost use Rattle.desk_turn.specs.Answer.{IfTold, IfNothing};
ghost use Rattle.desk_turn.specs.declared.entry.Entry.{Entry};
ghost use Rattle.tracker_rounds.specs.Rounds.{HasLooked, IsLastLook};
ghost use Rattle.tracker_rounds.specs.declared.ask.Ask.{Ask};
ghost use Rattle.tracker_rounds.specs.declared.ask.Ask.TheVariants as ask;
ghost use Rattle.tracker_rounds.specs.declared.ask.Told.{Told};
ghost use Rattle.tracker_rounds.specs.Trail.{entry_of, events_in, made_of};
ghost use Rattle.tracker_rounds.specs.Serving.{IsServed, IsSettled, MayMake};

use crate::ask::{Ask, Entered, Told, UserCall};
use crate::watched::Watched;
use desk_turn::{Kept, Memory};
use std::alloc::Global;
use std::marker::Model;
use std::snapshot::Snapshot;

/// The first caller number that is a worker's who serves connections.
const FIRST_SERVER: u32 = 2;

/// The caller number of whoever looks.
const LOOKER: u32 = 1;

/// What makes calls, with each call that was made through it, and for contracts alone as it was before them. Contracts see these three:
/// as it was, the calls, and as it is.
#[derive(Drop)]
pub struct Served<M: Watched + Drop> {
    maker: M,
    trail: Vec<Entered>,
    // By how many calls whoever looks is behind the others.
    behind: u32,
    origin: Snapshot<M>,
}

impl<M: Watched + Drop> Model for Served<M> {
    ghost use Rattle.std.specs.Prelude.{◌≡◌, ◌+◌, List, map};
    ghost use Rattle.desk_turn.specs.declared.entry.Entry.{Entry};
    ghost use Rattle.tracker_rounds.specs.declared.ask.Ask.{Ask};
    ghost use Rattle.tracker_rounds.specs.declared.ask.Told.{Told};
    ghost use Rattle.tracker_rounds.specs.Trail.{entry_of, events_in, looks_in, others_in};
    ghost use Rattle.tracker_rounds.specs.Serving.{IsServed};

    ghost Value = { M × List (Entry Ask Told) × M };

    ghost view = { λ s. (s.origin.value, map entry_of s.trail.items, s.maker) };

    ghost invariant = { λ s. IsServed M.tells M.makes M.due s.origin.value
        (events_in (map entry_of s.trail.items)) s.maker
        × (s.behind + looks_in (events_in (map entry_of s.trail.items))
        ≡ others_in (events_in (map entry_of s.trail.items))) };
}

impl<M: Watched + Drop> Served<M> {
    /// What makes calls, before the first one.
    pub fn over(alloc: Global, maker: M) -> Served<M>
        ensures { result ≡ (maker, [], maker) }
    {
        let origin = Snapshot::of(&maker);
        Served {
            maker,
            trail: Vec::new(alloc),
            behind: 0,
            origin,
        }
    }

    /// What makes the calls, as it is, and the calls that were made.
    pub fn into_parts(self) -> (M, Vec<Entered>)
        ensures maker { result.0 ≡ self.2 }
        ensures trail { map entry_of result.1.items ≡ self.1 }
        ensures served { IsServed M.tells M.makes M.due self.0 (events_in self.1) result.0 }
    {
        let Served {
            maker,
            trail,
            behind: _,
            origin: _,
        } = self;
        (maker, trail)
    }

    // Makes a call and enters it under that number.
    fn make(&mut self, by: u32, ask: &Ask, asked: &UserCall) -> Result<Told, Memory>
        requires asks { (told : Told) → told.made.value ≡ asked.now → made_of ask.now told ≡ asked.now }
        requires may { MayMake M.tells M.due self.old.2 by asked.now }
        ensures origin { self.new.0 ≡ self.old.0 }
        ensures told { IfOk result (λ told. self.new.1
            ≡ self.old.1 ++ record { by = by; ask = ask.now; told = told } ∷ []) }
        ensures memory { OnErr result (self.new ≡ self.old) }
    {
        let Some(behind) = behind_after(self.behind, by) else {
            return Err(Memory);
        };
        let Ok(()) = self.trail.reserve(1) else {
            return Err(Memory);
        };
        let reply = self.maker.call(&asked.user, &asked.call);
        let is_due = may_be_due(&self.maker);
        let told = Told {
            made: Snapshot::of(asked),
            reply,
            is_due,
        };
        self.trail.push_reserved(entered(by, ask, &told));
        self.behind = behind;
        Ok(told)
    }

    /// Makes the call that is due, where the looks are fewer than the other calls, and enters it under that number.
    #[tactic(auto, using(crate::proofs::Looks::settled_level, crate::proofs::Looks::settled_none))]
    pub fn look(&mut self, by: u32) -> Result<Option<Told>, Memory>
        requires { by < 2 }
        ensures origin { self.new.0 ≡ self.old.0 }
        ensures told { IfTold result (λ told. self.new.1
            ≡ self.old.1 ++ record { by = by; ask = ask.Look; told = told } ∷ []) }
        ensures nothing { IfNothing result ((self.new ≡ self.old)
            × IsSettled M.tells M.due self.old.1 self.old.2) }
        ensures memory { OnErr result (self.new ≡ self.old) }
    {
        if self.behind == 0 {
            return Ok(None);
        }
        match self.maker.due_now() {
            Ok(Some(asked)) => match self.make(by, &Ask::Look, &asked) {
                Ok(told) => Ok(Some(told)),
                Err(memory) => Err(memory),
            },
            Ok(None) => Ok(None),
            Err(_) => Err(Memory),
        }
    }

    /// The last look, whatever it comes to, and whether there was no memory for what was due.
    #[tactic(auto, using(crate::proofs::Looks::look_told, crate::proofs::Looks::look_nothing, crate::proofs::Looks::ends_told))]
    pub fn look_at_last(&mut self) -> bool
        ensures origin { self.new.0 ≡ self.old.0 }
        ensures last { (last : List (Entry Ask Told)) × (self.new.1 ≡ self.old.1 ++ last)
            × IsLastLook last }
        ensures looked { result ≡ false → HasLooked M.tells M.due self.new.1 self.new.2 }
    {
        match self.look(LOOKER) {
            Ok(Some(_)) => false,
            Ok(None) => false,
            Err(_) => true,
        }
    }
}

// Whether something may be due, which whoever looks is to be woken for. Where that can't be told, who looks finds out.
//
// It is asked behind each call, and nothing but a call changes what is due. So the answers tell all that becomes due: what was due
// when the round began, once the first call is made; what was found too early, while no call was ahead of the looks, and what memory
// lacked for, with the next call. What no further call follows is found as the workers end.
fn may_be_due<M: Watched>(maker: &M) -> bool {
    match maker.due_now() {
        Ok(None) => false,
        Ok(Some(_)) => true,
        Err(_) => true,
    }
}

// By how many calls whoever looks is behind after a call under that number, where it may make one.
fn behind_after(behind: u32, by: u32) -> Option<u32>
    ensures look { by < 2 → IfSome result (λ next. next + 1 ≡ behind) }
    ensures other { 2 ≤ by → IfSome result (λ next. next ≡ behind + 1) }
{
    if by < FIRST_SERVER {
        behind.checked_sub(1)
    } else {
        behind.checked_add(1)
    }
}

// A call of the trail.
fn entered(by: u32, ask: &Ask, told: &Told) -> Entered
    ensures { entry_of result ≡ record { by = by; ask = ask.now; told = told.now } }
{
    Entered {
        by,
        ask: Snapshot::of(ask),
        told: Snapshot::of(told),
    }
}

impl<M: Watched + Drop> Kept for Served<M> {
    ghost use Rattle.tracker_rounds.specs.Trail.{is_look};

    type Ask = Ask;

    type Told = Told;

    type Origin = M;

    type State = M;

    ghost origin = { λ s. s.0 };

    ghost state = { λ s. s.2 };

    ghost history = { λ s. s.1 };

    ghost is_look = { is_look };

    // The numbers below the servers' are of whoever looks, who asks for nothing else, and nobody else looks.
    fn enter(&mut self, caller: u32, ask: &Ask) -> Result<Option<Told>, Memory> {
        match ask {
            Ask::Call(asked) => {
                if caller < FIRST_SERVER {
                    return Err(Memory);
                }
                match self.make(caller, ask, asked) {
                    Ok(told) => Ok(Some(told)),
                    Err(memory) => Err(memory),
                }
            }
            Ask::Look => {
                if caller >= FIRST_SERVER {
                    return Ok(None);
                }
                self.look(caller)
            }
        }
    }
}
