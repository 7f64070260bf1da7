//! Changes that wait, in blocks.
ghost use Rattle.std.specs.Prelude.{◌≡◌, ◌≤◌, ◌<◌, ◌+◌, ◌-◌, ◌^◌, ◌++◌, ◌∷◌, [], drop, take, length, min, OnOk, vec_len, vec_capacity};
ghost use Rattle.move_feeds.specs.Block.{first_len, goes_whole, items_of, room_of};
ghost use Rattle.move_feeds.specs.Changes.{numbered};

use crate::block::Block;
use crate::least::least;
use crate::moves::{Change, Move};
use field_values::Memory;
use std::alloc::Global;
use std::marker::Model;

/// A block has room for so many changes at least.
const BLOCK: usize = 256;

/// Changes in the order in which they came, with one allocation a block.
#[derive(Drop)]
pub(crate) struct Queue {
    blocks: Vec<Block>,
    // How many changes there are.
    len: usize,
    alloc: Global,
}

impl Model for Queue {
    ghost use Rattle.std.specs.Prelude.{◌≡◌, length};
    ghost use Rattle.move_feeds.specs.Block.{Queued, items_of, room_of};

    ghost Value = { Queued };

    ghost view = { λ q. record {
      items = items_of q.blocks.items;
      room = room_of q.blocks.items;
    } };

    ghost invariant = { λ q. q.len ≡ length (items_of q.blocks.items) };
}

impl Queue {
    /// Without a change.
    pub(crate) fn new(alloc: Global) -> Queue
        ensures { result ≡ record { items = []; room = 0 } }
    {
        Queue {
            blocks: Vec::new(alloc),
            len: 0,
            alloc,
        }
    }

    /// How many changes there are.
    pub(crate) fn len(&self) -> usize
        ensures { result ≡ length self.now.items }
    {
        self.len
    }

    /// Makes room for so many changes more, or leaves all as it is.
    pub(crate) fn reserve(&mut self, more: usize) -> Result<(), Memory>
        ensures room { OnOk result (more ≤ self.new.room) }
        ensures same { self.new ≡ record self.old { room = self.new.room } }
    {
        if more <= room_in(&self.blocks) {
            return Ok(());
        }
        let block = Block::with_room(self.alloc, block_room(more))?;
        self.blocks.push(block)?;
        Ok(())
    }

    /// Adds a change. It takes no memory.
    pub(crate) fn push(&mut self, change: Change)
        requires room { 0 < self.old.room }
        requires few { length self.old.items < 2 ^ 40 }
        ensures { self.new ≡ record {
          items = self.old.items ++ change ∷ [];
          room = self.old.room - 1;
        } }
    {
        push_to_last(&mut self.blocks, change);
        self.len += 1;
    }

    /// Lets the first ones go, and gives their blocks back.
    pub(crate) fn drop_front(&mut self, n: usize)
        requires { n ≤ length self.old.items }
        ensures { self.new.items ≡ drop n self.old.items }
    {
        drop_from(&mut self.blocks, n);
        self.len -= n;
    }

    /// Lets all go, and gives their blocks back.
    pub(crate) fn clear(&mut self)
        ensures { self.new.items ≡ [] }
    {
        self.blocks = Vec::new(self.alloc);
        self.len = 0;
    }

    /// Adds the changes behind the first ones, so many at most, to what `room` contains, numbered from this number on.
    pub(crate) fn put_part(&self, skip: usize, count: usize, first: u64, room: &mut Vec<Move>)
        requires slots { vec_len room.old + count ≤ vec_capacity room.old }
        requires numbers { first + count < 2 ^ 64 }
        ensures { room.new.items
            ≡ room.old.items ++ numbered first (take count (drop skip self.now.items)) }
    {
        put_blocks(&self.blocks, skip, count, first, room);
    }
}

// The room of a block for so many changes at least.
fn block_room(more: usize) -> usize
    ensures { more ≤ result }
{
    if more < BLOCK { BLOCK } else { more }
}

// The room of the last block.
fn room_in(blocks: &[Block]) -> usize
    ensures { result ≡ room_of blocks.now }
{
    if blocks.is_empty() {
        return 0;
    }
    let at = blocks.len() - 1;
    blocks[at].room()
}

// Adds a change to the last block.
fn push_to_last(blocks: &mut [Block], change: Change)
    requires { 0 < room_of blocks.old }
    ensures items { items_of blocks.new ≡ items_of blocks.old ++ change ∷ [] }
    ensures room { room_of blocks.new ≡ room_of blocks.old - 1 }
{
    let at = blocks.len() - 1;
    let last = &mut blocks[at];
    last.push(change);
}

// Lets the first changes go, with blocks of which nothing is left.
fn drop_from(blocks: &mut Vec<Block>, n: usize)
    requires { n ≤ length (items_of blocks.old.items) }
    ensures { items_of blocks.new.items ≡ drop n (items_of blocks.old.items) }
{
    let mut left = n;
    while goes_whole(blocks, left) {
        left -= first_len(blocks);
        let _block = blocks.remove(0);
    }
    if left > 0 {
        let first = &mut blocks[0];
        first.drop_front(left);
    }
}

// Whether the first block has at most so many changes.
fn goes_whole(blocks: &[Block], most: usize) -> bool
    ensures { result ≡ goes_whole blocks.now most }
{
    match blocks.first() {
        Some(first) => first.len() <= most,
        None => false,
    }
}

// How many changes the first block has.
fn first_len(blocks: &[Block]) -> usize
    ensures { result ≡ first_len blocks.now }
{
    match blocks.first() {
        Some(first) => first.len(),
        None => 0,
    }
}

// Adds changes of blocks behind the first ones.
fn put_blocks(blocks: &[Block], skip: usize, count: usize, first: u64, room: &mut Vec<Move>)
    requires slots { vec_len room.old + count ≤ vec_capacity room.old }
    requires numbers { first + count < 2 ^ 64 }
    ensures { room.new.items
        ≡ room.old.items ++ numbered first (take count (drop skip (items_of blocks.now))) }
{
    let mut skip = skip;
    let mut left = count;
    let mut number = first;
    for block in blocks {
        let changes = block.as_slice();
        let passed = least(skip, changes.len());
        let (_, behind) = changes.split_at(passed);
        let put = put_some(behind, left, number, room);
        skip -= passed;
        left -= put;
        number += put as u64;
    }
}

// Adds the first of these changes, so many at most, and says how many these are.
fn put_some(changes: &[Change], count: usize, first: u64, room: &mut Vec<Move>) -> usize
    requires slots { vec_len room.old + count ≤ vec_capacity room.old }
    requires numbers { first + count < 2 ^ 64 }
    ensures items { room.new.items
        ≡ room.old.items ++ numbered first (take count changes.now) }
    ensures put { result ≡ min count (length changes.now) }
    ensures len { vec_len room.new ≡ vec_len room.old + result }
    ensures capacity { vec_capacity room.new ≡ vec_capacity room.old }
{
    let put = least(count, changes.len());
    for at in 0..put {
        let change = changes[at];
        room.push_reserved(Move {
            number: first + at as u64,
            issue: change.issue,
            entered: change.entered,
        });
    }
    put
}
