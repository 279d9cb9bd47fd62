//! What follows from the definitions alone. Each function has an empty body: its clause is the law.
ghost use Rattle.std.specs.Prelude.{◌≡◌, ℕ, ◌+◌, ◌≤◌, ◌+ℤ◌, ℤ, pos, neg_ℤ, List, Ok};
ghost use Rattle.std.specs.Int.{IsInRange};
ghost use Rattle.jiff_core.specs.Calendar.{days_from_civil};
ghost use Rattle.sc_time.specs.Calendar.{IsDate, days_of_month, day_number};
ghost use Rattle.sc_time.specs.Instant.{IsInstant, IsInYear, IsInMonth, month_key, month_start, year_start, midnight};
ghost use Rattle.sc_time.specs.Reading.{instant_reading};
ghost use Rattle.sc_time.specs.Written.{IsWritten};

/// 1 January 1970 is day 0, and the day numbers of a month follow one another.
pub fn day_numbers()
    ensures epoch { day_number 1970 1 1 ≡ pos 0 }
    ensures days { (year month day : ℕ) → 1 ≤ day → day_number year month (day + 1) ≡ day_number year month day +ℤ pos 1 }
    ensures months { (year month : ℕ) → IsInRange 1 11 month → day_number year (month + 1) 1 ≡ day_number year month (days_of_month year month) +ℤ pos 1 }
    ensures years { (year : ℕ) → day_number (year + 1) 1 1 ≡ day_number year 12 31 +ℤ pos 1 }
{}

/// The day numbers are those of the date library.
pub fn same_calendar()
    ensures { (year month day : ℕ) → 1 ≤ day → day_number year month day ≡ days_from_civil (pos year) month day }
{}

/// The instants are the nanoseconds of the years 0000 to 9999.
pub fn all_instants()
    ensures first { year_start 0 ≡ neg_ℤ (pos 62_167_219_200_000_000_000) }
    ensures end { year_start 10000 ≡ pos 253_402_300_800_000_000_000 }
{}

/// A month begins at midnight of its first day, and January with its year.
pub fn month_starts()
    ensures first_day { (year month : ℕ) → IsInRange 1 12 month → month_start (month_key year month) ≡ midnight (day_number year month 1) }
    ensures january { (year : ℕ) → month_start (month_key year 1) ≡ year_start year }
{}

/// An instant lies in one year and in one month alone.
pub fn one_year_and_month()
    ensures year { (one other : ℕ) (at : ℤ) → IsInYear one at → IsInYear other at → one ≡ other }
    ensures month { (one other : ℕ) (at : ℤ) → IsInMonth one at → IsInMonth other at → one ≡ other }
{}

/// What is the text of an instant is read as that instant, so that no two instants have one text.
pub fn written_and_read()
    ensures { (at : ℤ) (text : List ℕ) → IsInstant at → IsWritten at text → instant_reading text ≡ Ok at }
{}
