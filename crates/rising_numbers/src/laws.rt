//! What is proved of rising numbers. These functions do nothing: each clause is a law.
ghost use Rattle.rising_numbers.specs.Laws.{FreeNumbersAreLeast};

use crate::numbered::Numbered;

/// The number that is given is the least one from 1 on that none has.
pub fn free_numbers<T: Numbered>()
    ensures { FreeNumbersAreLeast T.number }
{}
