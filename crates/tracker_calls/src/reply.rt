ghost use Rattle.std.specs.Prelude.{◌≡◌, ◌∷◌, ◌++◌, [], OnOk, OnErr};
ghost use Rattle.tracker_calls.specs.declared.reply.Refusal.TheVariants.{Memory as OutOfMemory};

use crate::cause::Cause;
use crate::described::Description;
use crate::listed::{ListedIssues, ToldBoards, ToldFilters, ToldSprints};
use crate::told_text::ToldText;
use field_values::{BoardNo, FilterNo, Memory, Moment, Names, Sequence, SprintNo, Text};
use std::alloc::Global;
use std::marker::Model;

/// What a line is answered.
pub enum Reply {
    Ok(Answer),
    Refused(Refusal),
}

// Written by hand, so that whoever lets one go makes one call, and its proof takes one step there.
impl Drop for Reply {
    fn drop(self) {
        match self {
            Reply::Ok(_) | Reply::Refused(_) => {}
        }
    }
}

/// What a call that was made tells.
#[derive(Drop)]
pub enum Answer {
    /// The new issue's key and its change number. `already` where an issue of the same external id was there before.
    Create {
        already: bool,
        change: u64,
        issue: ToldText,
    },

    /// The number of the change group, where the edit changed anything.
    Edit {
        change: Option<u64>,
        issue: ToldText,
    },

    /// The number of the change group, where the transition changed anything.
    Transition {
        change: Option<u64>,
        issue: ToldText,
    },

    /// The present moment, as it is now.
    Tick {
        moment: Moment,
    },

    /// The fields that aren't empty, and the moments of the creation and of the last change.
    Show {
        created: Moment,
        fields: ShownFields,
        issue: ToldText,
        updated: Moment,
    },

    /// Some of the issue's entries, and how many it has.
    History {
        entries: ToldEntries,
        total: u64,
    },

    /// The keys of some of the issues that were found, and how many were found.
    Search {
        issues: Names,
        total: u64,
    },

    /// The rank that the issue has now.
    Move {
        issue: ToldText,
        rank: ToldText,
    },

    /// Some of the issues with their ranks, and how many issues there are.
    Ranks {
        ranks: RankedKeys,
        total: u64,
    },

    /// The bucket that the ranks are to leave, and the one that they go to.
    RebalanceStart {
        from: u8,
        to: u8,
    },

    /// How many ranks are left to go on, and how many went on.
    RebalanceStep {
        left: u64,
        moved: u64,
    },

    /// How the balance stands, the length of the longest rank, and whether a rebalancing is offered.
    Balance {
        state: BalanceState,
        longest: u64,
        offer: bool,
    },

    /// The filter's number, and of how many issues its query holds.
    SaveFilter {
        filter: FilterNo,
        members: u64,
    },

    /// The number that the filter had.
    DropFilter {
        filter: FilterNo,
    },

    /// The keys of some of the issues of which the filter's query holds, and of how many it holds.
    Filter {
        issues: Names,
        total: u64,
    },

    /// The board's number.
    MakeBoard {
        board: BoardNo,
    },

    /// The number that the board had.
    DropBoard {
        board: BoardNo,
    },

    /// Some of the board's issues in their columns, and how many issues it has.
    Board {
        columns: Columns,
        total: u64,
    },

    /// The new sprint's number.
    MakeSprint {
        sprint: SprintNo,
    },

    /// The group's name as the setup spells it, and how many members it has now.
    SetGroup {
        group: Text,
        members: u64,
    },

    /// How far a sprint is once it was started or closed.
    SprintPhase {
        sprint: SprintNo,
        state: SprintPhase,
    },

    /// What the sprint has left and what it had when it was started, in thousandths of points; some of the changes of it
    /// while the sprint was active, and how many there are. Of a sprint that wasn't started `start` is what it has left.
    Burndown {
        left: i64,
        rows: BurnedRows,
        start: i64,
        state: SprintPhase,
        total: u64,
    },

    /// Some of the issues that were found, with fields that they have, and how many were found.
    List {
        issues: ListedIssues,
        total: u64,
    },

    /// Some of the filters that the caller is told, and how many these are.
    Filters {
        filters: ToldFilters,
        total: u64,
    },

    /// Some of the boards, and how many there are.
    Boards {
        boards: ToldBoards,
        total: u64,
    },

    /// Some of the sprints, and how many there are.
    Sprints {
        sprints: ToldSprints,
        total: u64,
    },

    /// What the setup and the present say to the caller.
    Describe {
        told: Description,
    },
}

/// A column of a board: a status, and the keys of issues that have it.
#[derive(Drop)]
pub struct Column {
    pub issues: Names,
    pub status: Text,
}

/// The columns that an answer tells.
pub type Columns = Sequence<Column>;

/// How far a sprint is.
#[derive(Clone, Copy, PartialEq, Eq)]
pub enum SprintPhase {
    Future,
    Active,
    Closed,
}

/// A change group that changed what a sprint has left, in thousandths of points.
#[derive(Drop)]
pub struct BurnedRow {
    pub at: Moment,
    /// The difference.
    pub by: i64,
    /// The change group's number.
    pub change: u64,
    /// The issue's key.
    pub issue: ToldText,
    /// What is left after the group.
    pub left: i64,
}

/// The rows of a burndown that an answer tells.
pub type BurnedRows = Sequence<BurnedRow>;

/// An issue's key and its rank.
#[derive(Drop)]
pub struct RankedKey {
    pub issue: ToldText,
    pub rank: ToldText,
}

/// The ranks that an answer tells.
pub type RankedKeys = Sequence<RankedKey>;

/// How the balance stands.
#[derive(Clone, Copy, PartialEq, Eq)]
pub enum BalanceState {
    /// All ranks are in this bucket.
    Idle { bucket: u8 },

    /// Ranks are on the way, and so many of them are left in the bucket that they leave.
    Moving { from: u8, left: u64, to: u8 },
}

/// An entry of a history; `None` for a value that is empty.
#[derive(Drop)]
pub struct ToldEntry {
    pub at: Moment,
    pub by: ToldText,
    pub change: u64,
    pub field: ToldText,
    pub from: Option<Shown>,
    pub to: Option<Shown>,
}

/// The entries that an answer tells.
pub type ToldEntries = Sequence<ToldEntry>;

/// A field that isn't empty, by its name.
#[derive(Drop)]
pub struct ShownField {
    pub name: ToldText,
    pub value: Shown,
}

/// A field's value as an answer tells it.
pub enum Shown {
    Text(ToldText),
    /// The names of a set, or labels.
    List(Names),
    /// A sprint.
    Number(u32),
}

// Written by hand, so that whoever lets one go makes one call, and its proof takes one step there.
impl Drop for Shown {
    fn drop(self) {
        match self {
            Shown::Text(_) | Shown::List(_) | Shown::Number(_) => {}
        }
    }
}

// The fields that most issues have at most.
const ROOM: usize = 12;

/// The fields that an answer tells, which contracts see as a list.
#[derive(Drop)]
pub struct ShownFields {
    list: Vec<ShownField>,
}

impl Model for ShownFields {
    ghost use Rattle.std.specs.Prelude.{List};
    ghost use Rattle.tracker_calls.specs.declared.reply.ShownField.{ShownField};

    ghost Value = { List ShownField };

    ghost view = { λ f. f.list.items };
}

impl ShownFields {
    /// No field.
    pub fn new(alloc: Global) -> Self
        ensures { result ≡ [] }
    {
        ShownFields {
            list: Vec::new(alloc),
        }
    }

    /// Puts one more at the end, or leaves all as it is.
    pub fn push(&mut self, field: ShownField) -> Result<(), Memory>
        ensures ok { OnOk result (self.new ≡ self.old ++ field ∷ []) }
        ensures err { OnErr result (self.new ≡ self.old) }
    {
        if self.list.is_empty() {
            self.list.reserve(ROOM)?;
        }
        self.list.push(field)?;
        Ok(())
    }

    /// The fields in order, lent.
    pub fn as_slice(&self) -> &[ShownField]
        ensures { result.now ≡ self.now }
    {
        self.list.as_slice()
    }
}

/// Why a call changed nothing.
#[derive(Drop)]
pub enum Refusal {
    /// Numbers 1 to 13: the tracker refuses it.
    Cause(Cause),

    /// Number 14: what keeps the rows failed, and nothing was kept.
    Keeper,

    /// Number 15: there was not enough memory.
    Memory,
}

impl From<Memory> for Refusal {
    ghost from_gives = { λ _ refusal. refusal ≡ OutOfMemory };

    fn from(_: Memory) -> Refusal {
        Refusal::Memory
    }
}
