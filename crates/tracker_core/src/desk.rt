// What makes the calls, one at a time, and has kept what they leave.
ghost use Rattle.std.specs.Prelude.{◌≡◌, ◌≢◌, ◌≤◌, ◌+◌, ◌⊎◌, [], true, false, IfOk, IfErr, OnOk, OnErr};
ghost use Rattle.fields.specs.SetupParts.{parts};
ghost use Rattle.request_lines.specs.Causes.{Rose};
ghost use Rattle.tracker_keeper.specs.Rows.{Rows, no_rows};
ghost use Rattle.tracker_machine.specs.Machine.{opening};
ghost use Rattle.tracker_machine.specs.Tracker.{IsTracker};
ghost use Rattle.tracker_machine.specs.Effect.{IsAllowed, applied};
ghost use Rattle.tracker_machine.specs.Meaning.{Performs, HasEffect};
ghost use Rattle.tracker_machine.specs.Meaning.Meaning.{Makes};
ghost use Rattle.tracker_machine.specs.Kept.{rows_of, ops_of};
ghost use Rattle.tracker_machine.specs.Step.{IsStep, evaluations, meaning};
ghost use Rattle.tracker_core.specs.Counts.{searches, IsCounted};
ghost use Rattle.tracker_core.specs.Desk.{IsOwed, IsKeepersOwn, IsCreateFault, HasRow, HasNoRow, due_in};
ghost use Rattle.tracker_calls.specs.declared.reply.Answer.{Answer};
ghost use Rattle.tracker_core.specs.Left.{IsWithCall, LeavesOn, LeavesJustIts, LeavesCreated};
ghost use Rattle.tracker_state.specs.Plan.{effect_of, cost_of, Fits};

use crate::preparing::prepare;
use fields::{Setup, Steps};
use std::alloc::Global;
use std::marker::Model;
use std::mem;
use std::sync::ledger::Ledger;
use tracker_calls::{Answer, Call, Refusal, Reply, UserName};
use tracker_keeper::{KeepFault, Keeper, Row, RowOp};
use tracker_state::{Plan, Prepared, State, opening_ops};

/// What makes the calls, one at a time, and has kept what they leave. Contracts see it as the abstract tracker, the verdicts
/// of its filters, and what keeps its rows.
#[derive(Drop)]
pub struct Desk<P: Keeper> {
    alloc: Global,
    state: State,
    keeper: P,
}

impl<P: Keeper> Model for Desk<P> {
    ghost use Rattle.tracker_core.specs.Desk.{DeskParts};

    ghost Value = { DeskParts P };

    ghost view = { λ d. record {
      machine = d.state.machine;
      cells = d.state.watched.views.table;
      keeper = d.keeper;
    } };
}

/// Why no desk was made.
#[derive(Clone, Copy, PartialEq, Eq)]
pub enum OpenFault {
    /// The keeper failed.
    Keeper,
    /// The keeper has a row already.
    Held,
    /// The keeper's row of this kind and number is the first bad one, or has to be there and isn't.
    BadRow { kind: u8, no: u64 },
    Memory,
}

impl OpenFault {
    pub(crate) fn of(fault: KeepFault) -> OpenFault
        ensures { (result ≡ OpenFault.Keeper → fault ≡ KeepFault.Failed) × IsKeepersOwn result }
    {
        match fault {
            KeepFault::Failed => OpenFault::Keeper,
            KeepFault::Memory => OpenFault::Memory,
        }
    }
}

impl<P: Keeper + Drop> Desk<P> {
    /// The desk of a new tracker, whose opening rows are kept. A keeper that has a row already, or that fails, is handed back
    /// with its rows as they were.
    pub fn create(alloc: Global, keeper: P, setup: Setup) -> Result<Desk<P>, (OpenFault, P)>
        // A new tracker of the setup begins, whose opening rows are kept by a keeper that had none.
        ensures state { IfOk result (λ desk. desk.machine ≡ opening setup.text (parts setup)) }
        ensures rows { P.keeps keeper no_rows →
            IfOk result (λ desk. P.keeps desk.keeper (rows_of (opening setup.text (parts setup)))) }
        ensures none { (rows : Rows) → P.keeps keeper rows →
            IfOk result (λ desk. P.tells desk.keeper → HasNoRow rows) }
        // Where none begins the keeper has its rows as they were, and some where it's said to hold
        // any.
        ensures same { (rows : Rows) → P.keeps keeper rows → IfErr result (λ e. P.keeps e.1 rows) }
        ensures held { (rows : Rows) → P.keeps keeper rows →
            IfErr result (λ e. e.0 ≡ OpenFault.Held → P.tells e.1 → HasRow rows) }
        // No row is called bad. A keeper that is blamed has failed, and its count of that never
        // falls.
        ensures fault { IfErr result (λ e. IsCreateFault e.0) }
        ensures cause { IfErr result
            (λ e. e.0 ≡ OpenFault.Keeper → Rose (P.faults keeper) (P.faults e.1)) }
        ensures later_ok { IfOk result (λ desk. P.faults keeper ≤ P.faults desk.keeper) }
        ensures later_err { IfErr result (λ e. P.faults keeper ≤ P.faults e.1) }
        // Once it has begun a crash leaves just its rows, and else those that were there, or its
        // rows where there were none.
        ensures left_ok { P.keeps keeper no_rows → IfOk result
            (λ desk. LeavesJustIts P.leaves desk.keeper (opening setup.text (parts setup))) }
        ensures left_err { (rows : Rows) → P.keeps keeper rows → P.leaves keeper rows rows →
            IfErr result (λ e. P.tells e.1
            → LeavesCreated P.leaves (opening setup.text (parts setup)) e.1 rows) }
    {
        let mut keeper = keeper;
        if let Err(fault) = look(&mut keeper) {
            return Err((fault, keeper));
        }
        let opened = begun(alloc, &mut keeper, setup);
        match opened {
            Ok(state) => Ok(Desk::over(alloc, state, keeper)),
            Err(fault) => Err((fault, keeper)),
        }
    }

    // The desk of this state over this keeper.
    pub(crate) fn over(alloc: Global, state: State, keeper: P) -> Desk<P>
        ensures machine { result.machine ≡ state.machine }
        ensures keeper { result.keeper ≡ keeper }
    {
        Desk {
            alloc,
            state,
            keeper,
        }
    }

    /// Makes one call by that user, as the abstract tracker makes it: either the call is carried out and answered, or it is
    /// refused for the first cause that there is, or there was not enough memory, or the keeper failed where something was to be
    /// kept. After a refusal all is as before, and the rows that are kept are always the tracker's. The keeper isn't asked where
    /// there is nothing to keep. A crash leaves the rows of the tracker, or what it might leave before, or those of the tracker with this
    /// call.
    #[tactic(auto, unfolding(tracker_machine::specs::Step::IsStep, tracker_machine::specs::Step::evaluations), using(crate::proofs::Steps::told_step, crate::proofs::Steps::refused_step))]
    pub fn call<L: Ledger>(&mut self, caller: &UserName, call: &Call, steps: &mut Steps<L>) -> Reply
        // The call is made as the abstract tracker makes it, and what is kept are the rows after
        // it.
        ensures step { IsStep self.old.machine caller.now call.now result self.new.machine }
        ensures rows { P.keeps self.old.keeper (rows_of self.old.machine) →
            P.keeps self.new.keeper (rows_of self.new.machine) }
        // A keeper that can't tell what it keeps can't later; it's blamed only where it failed, and
        // isn't asked where there is nothing to keep.
        ensures told { P.tells self.new.keeper → P.tells self.old.keeper }
        ensures cause { IsOwed result (P.faults self.old.keeper) (P.faults self.new.keeper) }
        ensures unasked { ¬ (HasEffect (meaning self.old.machine caller.now call.now)) →
            self.new.keeper ≡ self.old.keeper }
        // A crash leaves the rows of the tracker, or what it could leave before, or those with this
        // call.
        ensures left { P.keeps self.old.keeper (rows_of self.old.machine) →
            LeavesOn P.leaves (IsWithCall caller.now call.now)
            self.old.keeper self.old.machine self.new.keeper self.new.machine }
        // It asks queries no more often than the abstract tracker allows, and as often as such a
        // call asks where it's answered and neither a search nor a list.
        ensures steps { steps.new
            ≤ steps.old + evaluations (due_in self.old.cells) self.old.machine caller.now call.now }
        ensures exact { (answer : Answer) → result ≡ Reply.Ok answer → searches call.now ≡ false
            → IsCounted (due_in self.old.cells) self.old.machine call.now
            (meaning self.old.machine caller.now call.now) steps.old steps.new }
    {
        self.state.have_seen();
        match prepare(self.alloc, &mut self.state, caller, call, steps) {
            Err(refusal) => Reply::Refused(refusal),
            Ok(Prepared::Tell(answer)) => Reply::Ok(answer),
            Ok(Prepared::Make { plan, answer, rows }) => {
                make(&mut self.state, &mut self.keeper, plan, answer, rows, steps)
            }
        }
    }

    /// Its state is a tracker's: contracts may cite what holds of each.
    pub fn is_tracker(&self)
        ensures { IsTracker self.now.machine }
    {
        self.state.is_tracker();
    }

    /// The state, lent, with the verdicts of its filters.
    pub fn state(&self) -> &State
        ensures machine { result.now.machine ≡ self.now.machine }
        ensures cells { result.now.watched.views.table ≡ self.now.cells }
    {
        &self.state
    }

    /// Ends the desk and hands its keeper back, with its rows as they are.
    pub fn close(self) -> P
        ensures { result ≡ self.keeper }
    {
        let Desk {
            alloc: _,
            state: _,
            keeper,
        } = self;
        keeper
    }

    /// The same where the process is to end: the memory of the state isn't given back, since it goes with the process. Giving it back
    /// issue by issue takes a twentieth of the time of a run of edits.
    pub fn leave(self) -> P
        ensures { result ≡ self.keeper }
    {
        let Desk {
            alloc: _,
            state,
            keeper,
        } = self;
        mem::forget(state);
        keeper
    }
}

// The keeper has no row.
fn look<P: Keeper>(keeper: &mut P) -> Result<(), OpenFault>
    // It passes where there is no row, and says that some are held only where one is.
    ensures none { (rows : Rows) → P.keeps keeper.old rows →
        OnOk result (P.tells keeper.new → HasNoRow rows) }
    ensures held { (rows : Rows) → P.keeps keeper.old rows →
        result ≡ Err OpenFault.Held → P.tells keeper.new → HasRow rows }
    // Looking changes nothing: the rows stay, and so does what a crash leaves.
    ensures told { P.tells keeper.new → P.tells keeper.old }
    ensures same { (rows : Rows) → P.keeps keeper.old rows → P.keeps keeper.new rows }
    ensures left { (rows : Rows) → P.keeps keeper.old rows → P.leaves keeper.old rows rows →
        P.leaves keeper.new rows rows }
    // No row is called bad. A keeper that is blamed has failed, and its count of that never falls.
    ensures fault { IfErr result IsCreateFault }
    ensures cause { result ≡ Err OpenFault.Keeper →
        Rose (P.faults keeper.old) (P.faults keeper.new) }
    ensures later { P.faults keeper.old ≤ P.faults keeper.new }
{
    match keeper.rows() {
        Ok(list) => {
            if has_none(&list) {
                Ok(())
            } else {
                Err(OpenFault::Held)
            }
        }
        Err(fault) => Err(OpenFault::of(fault)),
    }
}

pub(crate) fn has_none(list: &[Row]) -> bool
    ensures none { result ≡ true → list.now ≡ [] }
    ensures some { result ≡ false → list.now ≢ [] }
{
    list.is_empty()
}

// Keeps the opening rows, and makes the state of a new tracker.
pub(crate) fn begun<P: Keeper>(
    alloc: Global,
    keeper: &mut P,
    setup: Setup,
) -> Result<State, OpenFault>
    // A new tracker of the setup begins, and a keeper that had no row keeps its opening rows.
    ensures state { IfOk result (λ state. state.machine ≡ opening setup.text (parts setup)) }
    ensures rows { P.keeps keeper.old no_rows →
        OnOk result (P.keeps keeper.new (rows_of (opening setup.text (parts setup)))) }
    // A keeper that can't tell what it keeps can't later, and where none begins its rows stay.
    ensures told { P.tells keeper.new → P.tells keeper.old }
    ensures same { (rows : Rows) → P.keeps keeper.old rows →
        OnErr result (P.keeps keeper.new rows) }
    // Once it has begun a crash leaves just its rows, and else no row or these.
    ensures left_ok { P.keeps keeper.old no_rows →
        OnOk result (LeavesJustIts P.leaves keeper.new (opening setup.text (parts setup))) }
    ensures left_err { P.keeps keeper.old no_rows → P.leaves keeper.old no_rows no_rows →
        OnErr result (P.leaves keeper.new no_rows no_rows
        ⊎ P.leaves keeper.new no_rows (rows_of (opening setup.text (parts setup)))) }
    // The rows have no part in a fault. A keeper that is blamed has failed, and its count of that
    // never falls.
    ensures own { IfErr result IsKeepersOwn }
    ensures cause { result ≡ Err OpenFault.Keeper →
        Rose (P.faults keeper.old) (P.faults keeper.new) }
    ensures later { P.faults keeper.old ≤ P.faults keeper.new }
{
    let Ok(ops) = opening_ops(alloc, &setup) else {
        return Err(OpenFault::Memory);
    };
    let Ok(state) = State::opening(alloc, setup) else {
        return Err(OpenFault::Memory);
    };
    state.is_tracker();
    match keeper.commit(&ops) {
        Ok(()) => Ok(state),
        Err(fault) => Err(OpenFault::of(fault)),
    }
}

// Has kept what a plan does, and then does it.
fn make<P: Keeper, L: Ledger>(
    state: &mut State,
    keeper: &mut P,
    plan: Plan,
    answer: Answer,
    rows: Vec<RowOp>,
    steps: &mut Steps<L>,
) -> Reply
    // There is room for what the plan does, the tracker allows it, and the rows keep just that.
    requires fits { Fits state.old plan }
    requires allowed { IsAllowed (effect_of plan) state.old.machine }
    requires keeps { rows.items ≡ ops_of (effect_of plan) state.old.machine }
    // It's done and answered, or refused and not done; what is kept are the rows after it.
    ensures step { Performs (Makes answer (effect_of plan))
        state.old.machine result state.new.machine }
    ensures rows { P.keeps keeper.old (rows_of state.old.machine) →
        P.keeps keeper.new (rows_of state.new.machine) }
    // A keeper that can't tell what it keeps can't later, and it's blamed only where it failed.
    ensures told { P.tells keeper.new → P.tells keeper.old }
    ensures cause { IsOwed result (P.faults keeper.old) (P.faults keeper.new) }
    // A crash leaves the rows of the tracker, or what it could leave before, or those with this
    // plan.
    ensures left { P.keeps keeper.old (rows_of state.old.machine) → LeavesOn P.leaves
        (λ m later. (m ≡ state.old.machine) × (later ≡ applied (effect_of plan) state.old.machine))
        keeper.old state.old.machine keeper.new state.new.machine }
    // It asks queries no more often than the plan costs, and just so often where it's done.
    ensures steps { steps.new ≤ steps.old + cost_of plan state.old }
    ensures exact { (told : Answer) → result ≡ Reply.Ok told
        → steps.new ≡ steps.old + cost_of plan state.old }
{
    state.is_tracker();
    match keeper.commit(rows.as_slice()) {
        Ok(()) => {
            state.install(plan, steps);
            state.keep_row_room(rows);
            Reply::Ok(answer)
        }
        Err(KeepFault::Failed) => Reply::Refused(Refusal::Keeper),
        Err(KeepFault::Memory) => Reply::Refused(Refusal::Memory),
    }
}
