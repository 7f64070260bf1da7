//! The kinds of rows that are told apart before their bodies are read.

pub(crate) const SETUP: u8 = 1;

pub(crate) const PRESENT: u8 = 2;

pub(crate) const ISSUE: u8 = 3;

pub(crate) const GROUP: u8 = 4;

pub(crate) const RANK: u8 = 5;

pub(crate) const SPRINT: u8 = 7;

pub(crate) const MEMBERS: u8 = 10;
