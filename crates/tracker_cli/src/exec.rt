// Request lines that a desk answers.
ghost use Rattle.std.specs.Prelude.{◌≡◌, ◌++◌, ◌∷◌, [], List, ℕ, Ok, IfOk, OnOk};
ghost use Rattle.tracker_runs.specs.Run.{is_blank, is_blank_byte};
ghost use Rattle.tracker_machine.specs.Tracker.{IsTracker};
ghost use Rattle.request_lines.specs.Run.{IsLooked};
ghost use Rattle.call_lines.specs.Asked.{line_of};
ghost use Rattle.tracker_cli.specs.Answering.{AnswersKept, AsksFor, HasLine, IsAsked, IsReadReply};
ghost use Rattle.tracker_cli.specs.Serving.{MakesCall};

use call_lines::{AskedLine, Scratch, read_line_in};
use fields::{Names, Steps};
use request_lines::{Looked, Responder};
use std::alloc::{AllocError, Global};
use std::marker::Model;
use std::sync::ledger::Ledger;
use tracker_calls::{Call, Part, Reply, UserName};
use tracker_core::Desk;
use tracker_import::put_reply_line;
use tracker_keeper::Keeper;
use tracker_server::Maker;
use written_shows::{write_list, write_show};

/// A call that a line asks for, and the name of who asks.
#[derive(Drop)]
pub struct Asked {
    user: UserName,
    call: Call,
}

/// A desk that answers request lines and makes the calls of requests, and counts its steps. Contracts see it as the desk.
#[derive(Drop)]
pub struct RequestLines<L: Ledger, P: Keeper + Drop> {
    alloc: Global,
    desk: Desk<P>,
    steps: Steps<L>,
    // Kept from line to line.
    scratch: Scratch,
}

impl<L: Ledger, P: Keeper + Drop> Model for RequestLines<L, P> {
    ghost use Rattle.tracker_core.specs.Desk.{DeskParts};

    ghost Value = { DeskParts P };

    ghost view = { λ r. r.desk };
}

impl<L: Ledger, P: Keeper + Drop> RequestLines<L, P> {
    pub fn new(alloc: Global, desk: Desk<P>, steps: Steps<L>) -> Self
        ensures { result ≡ desk }
    {
        RequestLines {
            alloc,
            desk,
            steps,
            scratch: Scratch::new(alloc),
        }
    }

    /// Its state is a tracker's: contracts may cite what holds of each.
    pub fn is_tracker(&self)
        ensures { IsTracker self.now.machine }
    {
        self.desk.is_tracker();
    }

    /// Ends it and hands the keeper back, with its rows as they are.
    pub fn close(self) -> P
        ensures { result ≡ self.keeper }
    {
        self.into_desk().close()
    }

    /// The same where the process is to end, to which the memory of the desk's state is left.
    pub fn leave(self) -> P
        ensures { result ≡ self.keeper }
    {
        self.into_desk().leave()
    }

    // The desk, without what is kept for answering lines.
    fn into_desk(self) -> Desk<P>
        ensures { result ≡ self }
    {
        let RequestLines {
            alloc: _,
            desk,
            steps: _,
            scratch: _,
        } = self;
        desk
    }

    // Puts the line of the reply to a line in place of what the answer held, if it changes nothing, or says what the line asks for.
    fn look_at(&mut self, line: &[u8], answer: &mut Vec<u8>) -> Result<Looked<Asked>, AllocError>
        ensures looked { IfOk result (IsLooked (IsReadReply self.old.machine line.now
            answer.new.items (P.faults self.old.keeper)) (IsAsked line.now)) }
        ensures same { self.new ≡ self.old }
    {
        match read_line_in(self.alloc, &mut self.scratch, line) {
            Ok(AskedLine::Show { user, issue }) => {
                put_show(self.alloc, &self.desk, user, issue, answer)?;
                Ok(Looked::Answered)
            }
            Ok(AskedLine::Call { user, call }) => Ok(Looked::Asks(Asked { user, call })),
            Err(refusal) => {
                put_reply_line(self.alloc, &Reply::Refused(refusal), answer)?;
                Ok(Looked::Answered)
            }
        }
    }

    // Makes a call, and puts the line of its reply in place of what the answer held.
    fn answer_call(
        &mut self,
        caller: &UserName,
        call: &Call,
        answer: &mut Vec<u8>,
    ) -> Result<(), AllocError>
        ensures { HasLine (λ reply. MakesCall P.keeps P.tells P.faults P.leaves self.old
            caller.now call.now reply self.new) result answer.new.items }
    {
        match call {
            Call::List { jql, fields, part } => put_list(
                self.alloc,
                &self.desk,
                caller.as_str(),
                jql.as_str(),
                fields,
                *part,
                &mut self.steps,
                answer,
            ),
            _ => self.answer_by_reply(caller, call, answer),
        }
    }

    // The same, by a reply.
    fn answer_by_reply(
        &mut self,
        caller: &UserName,
        call: &Call,
        answer: &mut Vec<u8>,
    ) -> Result<(), AllocError>
        ensures { HasLine (λ reply. MakesCall P.keeps P.tells P.faults P.leaves self.old
            caller.now call.now reply self.new) result answer.new.items }
    {
        let reply = self.desk.call(caller, call, &mut self.steps);
        put_reply_line(self.alloc, &reply, answer)
    }
}

// Puts the line of the reply to a show in place of what the answer held. No reply is made: its text is written from the state.
fn put_show<P: Keeper + Drop>(
    alloc: Global,
    desk: &Desk<P>,
    caller: &str,
    issue: &str,
    answer: &mut Vec<u8>,
) -> Result<(), AllocError>
    ensures { HasLine (λ reply. MakesCall P.keeps P.tells P.faults P.leaves desk.now
        caller.now (Call.Show issue.now) reply desk.now) result answer.new.items }
{
    match write_show(alloc, desk, caller, issue, answer) {
        Ok(()) => end_line(answer),
        Err(refusal) => put_reply_line(alloc, &Reply::Refused(refusal), answer),
    }
}

// Puts the line of the reply to a list in place of what the answer held, in the same way.
fn put_list<L: Ledger, P: Keeper + Drop>(
    alloc: Global,
    desk: &Desk<P>,
    caller: &str,
    jql: &str,
    fields: &Option<Names>,
    part: Part,
    steps: &mut Steps<L>,
    answer: &mut Vec<u8>,
) -> Result<(), AllocError>
    ensures { HasLine (λ reply. MakesCall P.keeps P.tells P.faults P.leaves desk.now
        caller.now (Call.List jql.now fields.now part) reply desk.now) result answer.new.items }
{
    match write_list(alloc, desk, caller, jql, fields, part, steps, answer) {
        Ok(()) => end_line(answer),
        Err(refusal) => put_reply_line(alloc, &Reply::Refused(refusal), answer),
    }
}

impl<L: Ledger, P: Keeper + Drop> Responder for RequestLines<L, P> {
    type Change = Asked;

    ghost answers = { AnswersKept P.keeps P.tells P.faults P.leaves };

    ghost asks = { AsksFor };

    fn look(&mut self, line: &[u8], answer: &mut Vec<u8>) -> Result<Looked<Asked>, AllocError> {
        answer.clear();
        if is_blank(line) {
            return Ok(Looked::Answered);
        }
        self.look_at(line, answer)
    }

    fn make(&mut self, change: Asked, answer: &mut Vec<u8>) -> Result<(), AllocError> {
        self.answer_call(&change.user, &change.call, answer)
    }
}

impl<L: Ledger, P: Keeper + Drop> Maker for RequestLines<L, P> {
    ghost use Rattle.tracker_core.specs.Desk.{DeskParts};
    ghost use Rattle.tracker_cli.specs.Serving.{MakesCall, tells_parts};

    ghost State = { DeskParts P };

    ghost tells = { tells_parts };

    ghost makes = { MakesCall P.keeps P.tells P.faults P.leaves };

    fn call(&mut self, caller: &UserName, call: &Call) -> Reply {
        self.desk.call(caller, call, &mut self.steps)
    }
}

fn end_line(answer: &mut Vec<u8>) -> Result<(), AllocError>
    ensures { OnOk result (answer.new.items ≡ answer.old.items ++ 10 ∷ []) }
{
    answer.push(b'\n')?;
    Ok(())
}

fn is_blank(line: &[u8]) -> bool
    ensures { result ≡ is_blank line.now }
{
    line.iter().all(|byte| is_blank_byte(*byte))
}

fn is_blank_byte(byte: u8) -> bool
    ensures { result ≡ is_blank_byte byte }
{
    byte == b' ' || byte == b'\t' || byte == b'\r'
}
