use crate::fakes::{Ended, NOTHING, are_same, text_of, tried};
use std::alloc::{AllocError, Global};
use tracker_keeper::Row;

/// No line is left out.
pub(crate) const NONE: usize = usize::MAX;

/// Words with an input of lines, of which the first so many have no reply, and the replies to the others.
#[derive(Clone, Copy)]
pub(crate) struct Story {
    pub(crate) words: &'static [&'static str],
    pub(crate) lines: &'static [&'static str],
    pub(crate) heads: usize,
    pub(crate) replies: &'static [&'static str],
}

/// An ordinary day of a team.
pub(crate) const DAY: Story = Story {
    words: &["exec"],
    lines: &[
        r#"{"user":"anna","call":"tick","to":1709251200}"#,
        r#"{"user":"anna","call":"create","project":"OPS","type":"Task","summary":"Fix login","set":{"points":"3"}}"#,
        r#"{"user":"anna","call":"create","project":"OPS","type":"Task","summary":"Write guide","set":{"points":"2"}}"#,
        r#"{"user":"anna","call":"create","project":"OPS","type":"Bug","summary":"Crash on start","set":{"points":"1.5"}}"#,
        r#"{"user":"anna","call":"create","project":"OPS","type":"Task","summary":"Tidy up"}"#,
        r#"{"user":"anna","call":"make_sprint","name":"March"}"#,
        r#"{"user":"anna","call":"edit","issue":"OPS-1","set":{"sprint":1}}"#,
        r#"{"user":"anna","call":"edit","issue":"OPS-3","set":{"sprint":1}}"#,
        r#"{"user":"anna","call":"start_sprint","sprint":1}"#,
        r#"{"user":"anna","call":"save_filter","name":"open work","jql":"resolution = Unresolved AND sprint IN openSprints() ORDER BY key DESC"}"#,
        r#"{"user":"anna","call":"make_board","name":"team","filter":1}"#,
        r#"{"user":"anna","call":"tick","to":1709254800}"#,
        r#"{"user":"anna","call":"transition","issue":"OPS-1","transition":"Start"}"#,
        r#"{"user":"anna","call":"transition","issue":"OPS-1","transition":"Finish"}"#,
        r#"{"user":"anna","call":"move_before","issue":"OPS-3","other":"OPS-1"}"#,
        r#"{"user":"anna","call":"filter","filter":1}"#,
        r#"{"user":"anna","call":"board","board":1}"#,
        r#"{"user":"anna","call":"burndown","sprint":1}"#,
    ],
    heads: 0,
    replies: &[
        r#"{"ok":{"moment":1709251200}}"#,
        r#"{"ok":{"already":false,"change":1,"issue":"OPS-1"}}"#,
        r#"{"ok":{"already":false,"change":2,"issue":"OPS-2"}}"#,
        r#"{"ok":{"already":false,"change":3,"issue":"OPS-3"}}"#,
        r#"{"ok":{"already":false,"change":4,"issue":"OPS-4"}}"#,
        r#"{"ok":{"sprint":1}}"#,
        r#"{"ok":{"change":5,"issue":"OPS-1"}}"#,
        r#"{"ok":{"change":6,"issue":"OPS-3"}}"#,
        r#"{"ok":{"sprint":1,"state":"active"}}"#,
        r#"{"ok":{"filter":1,"members":2}}"#,
        r#"{"ok":{"board":1}}"#,
        r#"{"ok":{"moment":1709254800}}"#,
        r#"{"ok":{"change":7,"issue":"OPS-1"}}"#,
        r#"{"ok":{"change":8,"issue":"OPS-1"}}"#,
        r#"{"ok":{"issue":"OPS-3","rank":"0|hzztog:"}}"#,
        r#"{"ok":{"issues":["OPS-3"],"total":1}}"#,
        r#"{"ok":{"columns":[{"issues":["OPS-3"],"status":"Open"},{"issues":[],"status":"In Progress"},{"issues":[],"status":"In Review"},{"issues":[],"status":"Done"}],"total":1}}"#,
        r#"{"ok":{"left":1500,"rows":[{"at":1709254800,"by":-3000,"change":8,"issue":"OPS-1","left":1500}],"start":4500,"state":"active","total":1}}"#,
    ],
};

/// An import with a record that comes twice.
pub(crate) const IMPORT: Story = Story {
    words: &["import", "anna"],
    lines: &[
        "external,project,type,summary,assignee,reporter,priority,points,due",
        "X-1,OPS,Task,Move desks,bo,,High,1,2024-04-01",
        "X-2,OPS,Bug,Crash on start,,,,,",
        "X-1,OPS,Task,Move desks,bo,,High,1,2024-04-01",
    ],
    heads: 1,
    replies: &[
        r#"{"ok":{"already":false,"change":1,"issue":"OPS-1"}}"#,
        r#"{"ok":{"already":false,"change":2,"issue":"OPS-2"}}"#,
        r#"{"ok":{"already":true,"change":1,"issue":"OPS-1"}}"#,
    ],
};

/// The line of the reply at which the keeper failed.
pub(crate) const FAILED: &[u8] = b"{\"refused\":{\"no\":14}}\n";

/// A run over the first lines that have replies, but for the one at a place among them, in which nothing fails.
pub(crate) fn first_of(
    alloc: Global,
    story: Story,
    most: usize,
    skipped: usize,
) -> Result<Ended, AllocError> {
    let lines = story.heads.saturating_add(most);
    let left_out = story.heads.saturating_add(skipped);
    let input = text_of(alloc, story.lines, lines, left_out)?;
    tried(alloc, story.words, &input, &[], NOTHING)
}

/// Whether all was replied and nothing failed.
pub(crate) fn is_done(alloc: Global, story: Story, ended: &Ended) -> Result<bool, AllocError> {
    let replies = text_of(alloc, story.replies, NONE, NONE)?;
    Ok(ended.status == 0 && ended.out.as_slice() == replies.as_slice())
}

/// The rows behind so many lines that have replies, and behind one more.
#[derive(Drop)]
pub(crate) struct RowsDue {
    rows: Vec<Row>,
    later: Vec<Row>,
}

pub(crate) fn behind(alloc: Global, story: Story, whole: usize) -> Result<RowsDue, AllocError> {
    let Ended {
        status: _,
        out: _,
        rows,
    } = first_of(alloc, story, whole, NONE)?;
    let Ended {
        status: _,
        out: _,
        rows: later,
    } = first_of(alloc, story, whole.saturating_add(1), NONE)?;
    Ok(RowsDue { rows, later })
}

/// Whether a run that the sink cut short wrote a front of the replies, and has the rows behind the last line that has its whole reply, or
/// behind the next one.
pub(crate) fn is_cut_short(replies: &[u8], ended: &Ended, due: &RowsDue) -> bool {
    let are_kept = are_same(&ended.rows, &due.rows) || are_same(&ended.rows, &due.later);
    ended.status == 3 && replies.starts_with(&ended.out) && are_kept
}

/// Whether just the line at a place was replied that the keeper failed, and all others as if it weren't there; and whether the rows are
/// those of the others.
pub(crate) fn is_failed_at(
    alloc: Global,
    story: Story,
    ended: &Ended,
    place: usize,
) -> Result<bool, AllocError> {
    let others = first_of(alloc, story, NONE, place)?;
    let wanted = with_failed(alloc, &others.out, place)?;
    Ok(
        ended.status == 0
            && others.status == 0
            && ended.out.as_slice() == wanted.as_slice()
            && are_same(&ended.rows, &others.rows),
    )
}

// These lines with one more in front of that of a place, which tells that the keeper failed.
fn with_failed(alloc: Global, lines: &[u8], place: usize) -> Result<Vec<u8>, AllocError> {
    let mut text = Vec::new(alloc);
    let mut at: usize = 0;
    if place == 0 {
        text.extend_from_slice(FAILED)?;
    }
    for byte in lines {
        text.push(*byte)?;
        if *byte == b'\n' {
            at = at.saturating_add(1);
            if at == place {
                text.extend_from_slice(FAILED)?;
            }
        }
    }
    Ok(text)
}
