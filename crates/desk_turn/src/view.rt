use crate::entry::Entry;
use std::collections::LinkedList;

/// What a seat at the table knows. It is for proofs, and no value of it is ever made.
pub struct View<A, T, O> {
    // The number under which the seat makes calls.
    pub caller: u32,
    // The origin of the value with which the turn was opened.
    pub origin: Option<O>,
    // Its parts of the right to know the whole.
    pub parts: u64,
    // The calls that it may still make.
    pub left: u32,
    // The last caller number that was given out. Only the first pass gives them out.
    pub made: u32,
    // The calls that are to go over to the next pass that is split off.
    pub named: u64,
    // The history, as far as it was seen.
    pub seen: LinkedList<Entry<A, T>>,
    // The history, as far as a pass that was joined last had seen it.
    pub heard: LinkedList<Entry<A, T>>,
    // The calls that were entered for it.
    pub mine: LinkedList<Entry<A, T>>,
    // The calls of each joined pass, under its number.
    pub joined: LinkedList<(u32, LinkedList<Entry<A, T>>)>,
    // What a receipt lists.
    pub noted: LinkedList<Entry<A, T>>,
    // The ticket that was drawn.
    pub ticket: Option<u64>,
    // 1 from the drawing of a ticket to the entry of its call.
    pub fresh: u64,
    // Whether it is its turn and it has the value.
    pub holds: bool,
    // The history that the value had when it was taken, and then with the call that was entered.
    pub held: LinkedList<Entry<A, T>>,
}
