//! Laws of the definition of dates.
ghost use Rattle.civil_dates.specs.Calendars.{AreOfTheCalendar};
ghost use Rattle.civil_dates.specs.Examples.{WorkedDates};

/// The days that are counted off are those of the calendar.
pub fn days_are_of_the_calendar()
    ensures { AreOfTheCalendar }
{}

/// Dates that the definition gives: the first, and those around the ends of Februaries.
pub fn worked_dates()
    ensures { WorkedDates }
{}
