// The issues, found by place and by key, with running totals of their entries and text bytes, with how many each project has, and with
// the project of each.
ghost use Rattle.std.specs.Prelude.{◌≡◌, ◌≤◌, ◌<◌, ◌+◌, ◌-◌, ◌^◌, ◌∷◌, ◌++◌, [], length, slice_get, slice_set, option_copied, string_bytes, IfOk, OnOk, OnErr, IfSome, vec_len, vec_capacity, List, ℕ, Some, None, if◌then◌else◌, sum_by};
ghost use Rattle.std.specs.Option.{option_or};
ghost use Rattle.std.specs.Str.{bytes_eq};
ghost use Rattle.std.specs.HashMap.{spare, get_by_text};
ghost use Rattle.change_history.specs.History.{MayAdd, histories_of};
ghost use Rattle.tracker_machine.specs.Known.{place_of_issue};
ghost use Rattle.tracker_machine.specs.Checks.{entries_kept, bytes_kept, entry_bytes, history_bytes};
ghost use Rattle.tracker_issues.specs.Counts.{counts_of};
ghost use Rattle.tracker_issues.specs.Issues.{with_entries};

use change_history::{Group, Issue};
use fields::{Memory, Project, ProjectNo};
use std::alloc::Global;
use std::collections::HashMap;
use std::marker::Model;

/// The issues by place from 0. Contracts see them as a list, and beside it how many more there is room for, how many each project
/// has, and which project each is of.
#[derive(Drop)]
pub struct Issues {
    list: Vec<Issue>,
    by_key: HashMap<String, usize>,
    // By the projects' places.
    counts: Vec<u32>,
    // By the issues' places.
    projects: Vec<ProjectNo>,
    entries: usize,
    bytes: u64,
    room: usize,
}

impl Model for Issues {
    ghost use Rattle.std.specs.Prelude.{vec_len, vec_capacity};
    ghost use Rattle.change_history.specs.History.{histories_of};
    ghost use Rattle.tracker_issues.specs.Issues.{Shelf, AreIndexed};

    ghost Value = { Shelf };

    ghost view = { λ i. record {
      kept = i.list.items;
      room = i.room;
      tally = record { counts = i.counts.items; projects = i.projects.items };
    } };

    ghost invariant = { λ i. AreIndexed
        (histories_of i.list.items) i.by_key i.entries i.bytes i.room
        (vec_len i.list) (vec_capacity i.list) (vec_len i.projects) (vec_capacity i.projects) };
}

impl Issues {
    /// No issue of these projects.
    pub fn new(alloc: Global, projects: &[Project]) -> Result<Issues, Memory>
        ensures { IfOk result (λ issues. issues ≡ record {
          kept = [];
          room = 0;
          tally = record { counts = counts_of projects.now []; projects = [] };
        }) }
    {
        let counts = no_counts(alloc, projects)?;
        Ok(Issues {
            list: Vec::new(alloc),
            by_key: HashMap::new(alloc),
            counts,
            projects: Vec::new(alloc),
            entries: 0,
            bytes: 0,
            room: 0,
        })
    }

    /// How many issues there are.
    pub fn len(&self) -> usize
        ensures { result ≡ length self.now.kept }
    {
        self.list.len()
    }

    /// How many issues the project at a place has.
    pub fn count_in(&self, project: ProjectNo) -> u32
        requires { project.0 < length self.now.tally.counts }
        ensures { Some result ≡ slice_get self.now.tally.counts project.0 }
    {
        self.counts[usize::from(project.0)]
    }

    /// The project of the issue at a place.
    pub fn project_at(&self, place: usize) -> Option<ProjectNo>
        ensures { result ≡ slice_get self.now.tally.projects place }
    {
        self.projects.get(place).copied()
    }

    /// How many entries all of them have.
    pub fn entries(&self) -> usize
        ensures { result ≡ entries_kept (histories_of self.now.kept) }
    {
        self.entries
    }

    /// How many text bytes all of them have.
    pub fn bytes(&self) -> u64
        ensures { result ≡ bytes_kept (histories_of self.now.kept) }
    {
        self.bytes
    }

    /// The issues by place, lent.
    pub fn as_slice(&self) -> &[Issue]
        ensures { result.now ≡ self.now.kept }
    {
        self.list.as_slice()
    }

    /// The list of issues by place, lent.
    pub fn as_vec(&self) -> &Vec<Issue>
        ensures { result.now.items ≡ self.now.kept }
    {
        &self.list
    }

    /// The issue at a place.
    pub fn get(&self, place: usize) -> Option<&Issue>
        ensures { option_copied result ≡ slice_get self.now.kept place }
    {
        self.list.get(place)
    }

    /// The issue at a place where one is.
    pub fn at(&self, place: usize) -> &Issue
        requires { place < length self.now.kept }
        ensures { slice_get self.now.kept place ≡ Some result.now }
    {
        &self.list[place]
    }

    /// The place of the issue of that key, in exact letters.
    pub fn place_of(&self, key: &str) -> Option<usize>
        ensures place { result ≡ place_of_issue key.now (histories_of self.now.kept) }
        ensures there { IfSome result (λ place. place < length self.now.kept) }
    {
        self.by_key.get(key).copied()
    }

    /// Makes room for one more issue, or leaves all as it is.
    pub fn reserve(&mut self) -> Result<(), Memory>
        ensures kept { self.new.kept ≡ self.old.kept }
        ensures tally { self.new.tally ≡ self.old.tally }
        ensures ok { OnOk result (self.new ≡ record self.old { room = 1 }) }
        ensures err { OnErr result (self.new ≡ self.old) }
    {
        self.list.reserve(1)?;
        self.projects.reserve(1)?;
        self.by_key.reserve(1)?;
        self.room = 1;
        Ok(())
    }

    /// Puts an issue of a project at the end, whose key's text and text bytes are given too. It takes no memory.
    pub fn push(&mut self, project: ProjectNo, key: String, issue: Issue, bytes: u64)
        // Room was made, and the project is there and can count one issue more.
        requires room { 1 ≤ self.old.room }
        requires there { project.0 < length self.old.tally.counts }
        requires countable { IfSome (slice_get self.old.tally.counts project.0)
            (λ n. n + 1 < 2 ^ 32) }
        // The key's text and the bytes are those of the issue.
        requires key { string_bytes key ≡ issue.history.key }
        requires bytes { bytes ≡ history_bytes issue.history }
        // Entries and bytes of all issues can still be counted.
        requires few { entries_kept (histories_of self.old.kept) + length issue.history.entries
            < 2 ^ 64 }
        requires light { bytes_kept (histories_of self.old.kept) + bytes < 2 ^ 64 }
        // The issue stands last, its project counts one more, and there is room for one less.
        ensures kept { self.new.kept ≡ self.old.kept ++ issue ∷ [] }
        ensures counts { IfSome (slice_get self.old.tally.counts project.0) (λ n.
            self.new.tally.counts ≡ slice_set self.old.tally.counts project.0 (n + 1)) }
        ensures projects { self.new.tally.projects ≡ self.old.tally.projects ++ project ∷ [] }
        ensures room { self.new.room ≡ self.old.room - 1 }
    {
        let place = self.list.len();
        index_key(&mut self.by_key, key, place);
        count_one(&mut self.counts, project);
        self.projects.push_reserved(project);
        self.room -= 1;
        self.entries += issue.entries();
        self.bytes += bytes;
        self.list.push_reserved(issue);
    }

    /// Makes room for n entries more of the issue at a place, or leaves all as it is.
    pub fn reserve_entries(&mut self, place: usize, n: usize) -> Result<(), Memory>
        requires { place < length self.old.kept }
        ensures ok { OnOk result (IfSome (slice_get self.old.kept place) (λ i.
            self.new ≡ record self.old {
              kept = slice_set self.old.kept place
                  (record i { room = n });
            })) }
        ensures err { OnErr result (self.new ≡ self.old) }
        ensures room { self.new.room ≡ self.old.room }
        ensures tally { self.new.tally ≡ self.old.tally }
        ensures histories { histories_of self.new.kept ≡ histories_of self.old.kept }
    {
        self.list[place].reserve(n)
    }

    /// Adds a group, whose text bytes are given too, to the issue at a place. It takes no memory.
    pub fn add(&mut self, place: usize, group: Group, bytes: u64)
        // The issue is there. The bytes are those of the group, and with it all entries and bytes
        // can still be counted.
        requires there { place < length self.old.kept }
        requires few { entries_kept (histories_of self.old.kept) + length group.entries < 2 ^ 64 }
        requires bytes { bytes ≡ sum_by entry_bytes group.entries }
        requires light { bytes_kept (histories_of self.old.kept) + bytes < 2 ^ 64 }
        // Room was made for the group, and it may follow on what the issue has.
        requires group { IfSome (slice_get self.old.kept place) (λ i.
            (length group.entries ≤ i.room)
            × MayAdd i.history group.change group.at group.author group.entries) }
        // The issue has it at its end, and nothing else changes.
        ensures kept { IfSome (slice_get self.old.kept place) (λ i.
            self.new.kept ≡ slice_set self.old.kept place (with_entries i group.entries)) }
        ensures room { self.new.room ≡ self.old.room }
        ensures tally { self.new.tally ≡ self.old.tally }
    {
        self.entries += group.entries.as_slice().len();
        self.bytes += bytes;
        self.list[place].add(group);
    }
}

// How many issues each project has at first.
fn no_counts(alloc: Global, projects: &[Project]) -> Result<Vec<u32>, Memory>
    ensures { IfOk result (λ counts. counts.items ≡ counts_of projects.now []) }
{
    let mut counts = Vec::new(alloc);
    for _ in projects {
        counts.push(0)?;
    }
    Ok(counts)
}

// One issue more of the project at a place.
fn count_one(counts: &mut [u32], project: ProjectNo)
    requires there { project.0 < length counts.old }
    requires countable { IfSome (slice_get counts.old project.0) (λ n. n + 1 < 2 ^ 32) }
    ensures { IfSome (slice_get counts.old project.0)
        (λ n. counts.new ≡ slice_set counts.old project.0 (n + 1)) }
{
    counts[usize::from(project.0)] += 1;
}

// Has the key lead to a place, unless it leads to one before.
fn index_key(by_key: &mut HashMap<String, usize>, key: String, place: usize)
    requires { 1 ≤ spare by_key.old }
    ensures found { (name : List ℕ) → get_by_text by_key.new name
        ≡ option_or (get_by_text by_key.old name)
        (if bytes_eq (string_bytes key) name then Some place else None) }
    ensures spare { spare by_key.old ≤ spare by_key.new + 1 }
{
    if by_key.contains_key(key.as_str()) {
        return;
    }
    let Ok(_) = by_key.insert(key, place) else {
        unreachable!()
    };
}
