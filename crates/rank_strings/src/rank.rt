//! A rank, its order and its text.
ghost use Rattle.std.specs.Prelude.{◌≡◌, ◌↔◌, List, [], IfOk, IsOk, MatchOption, IsTrue, length, replicate, ◌<◌};
ghost use Rattle.rank_strings.specs.Rank.{RankParts, AreDigits, IsRank, last_or};
ghost use Rattle.rank_strings.specs.Text.{rank_text};

use crate::digit::push_digits;
use crate::text::{Memory, Text};
use std::alloc::Global;
use std::marker::Model;

/// The most further digits that a rank may have: its text then has 254 bytes.
pub(crate) const MAX_FURTHER: usize = 245;

/// A rank: a bucket, six digits in front and up to 245 further digits.
///
/// Most ranks have no further digits; those take no memory beside the value itself, which has 32 bytes.
#[derive(Drop)]
pub struct Rank {
    bucket: u8,
    front: [u8; 6],
    further: Vec<u8>,
}

const _: () = prove!(size_of::<Rank>() == 32);

impl Model for Rank {
    ghost use Rattle.rank_strings.specs.Rank.{RankParts, IsRank};

    ghost Value = { RankParts };

    ghost view = { λ r. record { bucket = r.bucket; front = r.front; further = r.further.items } };

    ghost invariant = { λ r. IsRank
        (record { bucket = r.bucket; front = r.front; further = r.further.items }) };
}

/// Whether the last digit, if there is one, is not 0.
fn has_no_last_zero(further: &[u8]) -> bool
    ensures { IsTrue result ↔ (0 < last_or 1 further.now) }
{
    match further.last() {
        Some(digit) => *digit != 0,
        None => true,
    }
}

fn is_all_zero(front: &[u8; 6]) -> bool
    ensures { IsTrue result ↔ (front.now ≡ replicate 6 0) }
{
    *front == [0; 6]
}

/// Whether a rank may have these digits.
fn is_rank(bucket: u8, front: &[u8; 6], further: &[u8]) -> bool
    requires front_digits { AreDigits front.now }
    requires further_digits { AreDigits further.now }
    ensures { IsTrue result
        ↔ IsRank (record { bucket = bucket; front = front.now; further = further.now }) }
{
    if bucket > 2 || further.len() > MAX_FURTHER {
        return false;
    }
    if further.is_empty() {
        return !is_all_zero(front);
    }
    has_no_last_zero(further)
}

impl Rank {
    /// The rank of these digits, where they are a rank's.
    pub(crate) fn new(bucket: u8, front: [u8; 6], further: Vec<u8>) -> Option<Rank>
        requires front_digits { AreDigits front }
        requires further_digits { AreDigits further.items }
        ensures { let parts : RankParts = record
            { bucket = bucket; front = front; further = further.items } in MatchOption result
            (¬ IsRank parts) (λ r. IsRank r × (r ≡ parts)) }
    {
        if !is_rank(bucket, &front, &further) {
            return None;
        }
        Some(Rank {
            bucket,
            front,
            further,
        })
    }

    /// The rank of six digits alone, each below 36 and not all 0. It takes no memory.
    pub fn of_six_digits(alloc: Global, bucket: u8, front: [u8; 6]) -> Rank
        requires { IsRank (record { bucket = bucket; front = front; further = [] }) }
        ensures { result ≡ record { bucket = bucket; front = front; further = [] } }
    {
        Rank {
            bucket,
            front,
            further: Vec::new(alloc),
        }
    }

    /// The rank of these digits.
    pub(crate) fn of_digits(bucket: u8, front: [u8; 6], further: Vec<u8>) -> Rank
        requires { IsRank (record { bucket = bucket; front = front; further = further.items }) }
        ensures { result ≡ record { bucket = bucket; front = front; further = further.items } }
    {
        Rank {
            bucket,
            front,
            further,
        }
    }

    pub(crate) fn front(&self) -> &[u8; 6]
        ensures is_rank { IsRank self.now }
        ensures value { result.now ≡ self.now.front }
    {
        &self.front
    }

    pub(crate) fn further(&self) -> &[u8]
        ensures is_rank { IsRank self.now }
        ensures value { result.now ≡ self.now.further }
    {
        &self.further
    }

    /// The bucket: 0, 1 or 2.
    pub fn bucket(&self) -> u8
        ensures is_rank { IsRank self.now }
        ensures bucket { result ≡ self.now.bucket }
    {
        self.bucket
    }

    /// The number of bytes of the text: 9 to 254.
    pub fn len(&self) -> usize
        ensures { result ≡ length (rank_text self.now) }
    {
        9 + self.further.len()
    }

    /// The text, as `0|i00000:` or `2|i00000:0i`.
    pub fn text(&self, alloc: Global) -> Result<Text, Memory>
        ensures { IfOk result (λ t. t ≡ rank_text self.now) }
    {
        let mut text = String::with_capacity(alloc, self.len())?;
        text.push(char::from(b'0' + self.bucket))?;
        text.push('|')?;
        push_digits(&mut text, &self.front)?;
        text.push(':')?;
        push_digits(&mut text, &self.further)?;
        Ok(Text::new(text))
    }

    /// An equal rank. No memory is taken where there are no further digits.
    pub fn copy(&self, alloc: Global) -> Result<Rank, Memory>
        ensures copy { IfOk result (λ r. r ≡ self.now) }
        ensures six_digits { self.now.further ≡ [] → IsOk result }
    {
        let mut further = Vec::with_capacity(alloc, self.further.len())?;
        further.extend_from_slice(&self.further)?;
        Ok(Rank {
            bucket: self.bucket,
            front: self.front,
            further,
        })
    }
}
