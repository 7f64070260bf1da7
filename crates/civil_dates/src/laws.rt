//! What is proved of all days and texts. These functions do nothing: each clause is a law.
ghost use Rattle.civil_dates.specs.Laws.{PartsNameTheDay, TextIsReadBack, EachDayHasOneText};
ghost use Rattle.civil_dates.specs.Rows.{WorkedDays};

/// The year, the month and the day of the month that are counted name a date of the calendar.
pub fn parts_of_days()
    ensures { PartsNameTheDay }
{}

/// Each day is read back from its text, and has no other text.
pub fn texts_of_days()
    ensures read_back { TextIsReadBack }
    ensures one { EachDayHasOneText }
{}

/// The first day, the last one, a leap day and the end of a year in words of the definitions.
pub fn worked_days()
    ensures { WorkedDays }
{}
