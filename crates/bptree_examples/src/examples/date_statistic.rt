//! The number of keys of a calendar in a year, by summaries with the first and the last date below
//! a node.
ghost use Rattle.std.specs.Prelude.{◌≡◌, Some, IfOk, IfErr};
ghost use Rattle.bptree_arguments.specs.declared.visit.DescendError.TheVariants.{OutOfMemory};
ghost use Rattle.std.specs.Map.{keys_of};
ghost use Rattle.std.proofs.Common.{rules};
ghost use Rattle.bptree_examples.specs.Dates.{day_with, in_year, month_with, year_with, IsEntry, IsStatistic, IsYearResult};

use crate::examples::calendar::day_count;
use crate::filling::{filled, removed};
use std::alloc::{AllocError, Global};
use sweep_bptree::{Argument, BPlusTreeMap, DescendError, DescendVisit, DescendVisitResult, Key};

/// A day of the calendar. Months and days are counted from 1.
#[derive(Clone, Copy, PartialEq, Eq, PartialOrd, Ord, Default)]
pub struct Date {
    pub year: u16,
    pub month: u8,
    pub day: u8,
}

impl Key for Date {
    ghost clone_is_equal = { Prim.search rules };
}

/// The numbers of keys that share the year, the month and the day of a date.
#[derive(Clone, Copy, Default)]
pub struct Counter {
    pub year: usize,
    pub month: usize,
    pub day: usize,
}

/// A date, with its counters.
#[derive(Clone, Copy, Default)]
pub struct DateStatisticEntry {
    pub date: Date,
    pub counter: Counter,
}

/// The first and the last date below a node, each with its counters. The default has counted
/// nothing.
#[derive(Clone, Copy, Default)]
pub struct DateStatisticArgument {
    pub min: DateStatisticEntry,
    pub max: DateStatisticEntry,
}

impl Counter {
    // Returns the counters with those of an entry added, as far as the entry's date shares the
    // year, the month and the day of `date`.
    fn with(self, date: Date, entry: &DateStatisticEntry) -> Counter
        ensures year { result.year ≡ year_with self date entry.now }
        ensures month { result.month ≡ month_with self date entry.now }
        ensures day { result.day ≡ day_with self date entry.now }
    {
        let other = entry.date;
        if date.year != other.year {
            return self;
        }
        let year = self.year.saturating_add(entry.counter.year);
        if date.month != other.month {
            return Counter {
                year,
                month: self.month,
                day: self.day,
            };
        }
        let month = self.month.saturating_add(entry.counter.month);
        if date.day != other.day {
            return Counter {
                year,
                month,
                day: self.day,
            };
        }
        let day = self.day.saturating_add(entry.counter.day);
        Counter { year, month, day }
    }
}

// Returns a date with its counters over some dates.
fn counted(date: Date, dates: &[Date]) -> DateStatisticEntry
    ensures date { result.date ≡ date }
    ensures entry { IsEntry dates.now result }
{
    let mut counter = Counter::default();
    for other in dates {
        let one = DateStatisticEntry {
            date: *other,
            counter: Counter {
                year: 1,
                month: 1,
                day: 1,
            },
        };
        counter = counter.with(date, &one);
    }
    DateStatisticEntry { date, counter }
}

/// Nothing allocates, so that no call fails. Each sum saturates at the greatest `usize`, and no
/// list of keys is longer than that.
impl Argument<Date> for DateStatisticArgument {
    ghost is_summary = { IsStatistic };

    /// Makes two passes over the keys. The summary of no keys is the default.
    fn from_leaf(keys: &[Date]) -> Result<Self, AllocError> {
        if keys.is_empty() {
            return Ok(DateStatisticArgument::default());
        }
        Ok(DateStatisticArgument {
            min: counted(keys[0], keys),
            max: counted(keys[keys.len() - 1], keys),
        })
    }

    /// Makes one pass over the summaries. The summary of no summaries is the default.
    fn from_inner(_keys: &[Date], arguments: &[Self]) -> Result<Self, AllocError> {
        if arguments.is_empty() {
            return Ok(DateStatisticArgument::default());
        }
        let first = arguments[0].min.date;
        let last = arguments[arguments.len() - 1].max.date;
        let mut least = Counter::default();
        let mut greatest = Counter::default();
        for argument in arguments {
            least = least.with(first, &argument.min);
            greatest = greatest.with(last, &argument.max);
        }
        Ok(DateStatisticArgument {
            min: DateStatisticEntry {
                date: first,
                counter: least,
            },
            max: DateStatisticEntry {
                date: last,
                counter: greatest,
            },
        })
    }

    ghost default_is_summary = { λ a h. Prim.search rules };
}

/// Counts the keys of one year. The count is 0 if there is no key, and saturates at the greatest
/// `usize`.
#[derive(Drop)]
pub struct CountForYear {
    pub year: u16,
    pub counted: usize,
}

impl CountForYear {
    /// Makes a visitor that has counted no key yet.
    pub fn new(year: u16) -> Self
        ensures year { result.year ≡ year }
        ensures counted { result.counted ≡ 0 }
    {
        CountForYear { year, counted: 0 }
    }
}

// Returns the number of dates in a year.
fn dates_in(year: u16, dates: &[Date]) -> usize
    ensures { result ≡ in_year year dates.now }
{
    dates.iter().filter(|date| year == date.year).count()
}

impl<V> DescendVisit<Date, V, DateStatisticArgument> for CountForYear {
    type Result = usize;

    ghost outcomes = { λ v pairs outcome. IsYearResult v.year v.counted (keys_of pairs) outcome };

    /// Makes at most four comparisons of years for each child, up to the year. The visitor goes
    /// down only into a child that has keys on both sides of the year's beginning or of its end. If
    /// the last date of a summary is before its first, it cancels the visit.
    fn visit_inner(
        &mut self,
        _keys: &[Date],
        arguments: &[DateStatisticArgument],
    ) -> Result<DescendVisitResult<usize>, AllocError> {
        let year = self.year;
        let mut counted = self.counted;
        for (i, argument) in arguments.iter().enumerate() {
            let first = argument.min.date.year;
            let last = argument.max.date.year;
            if first > year {
                return Ok(DescendVisitResult::Complete(counted));
            }
            if last == year {
                counted = counted.saturating_add(argument.max.counter.year);
            } else if last > year {
                if first == year {
                    counted = counted.saturating_add(argument.min.counter.year);
                    return Ok(DescendVisitResult::Complete(counted));
                }
                self.counted = counted;
                return Ok(DescendVisitResult::GoDown(i));
            } else if first == year {
                return Ok(DescendVisitResult::Cancel);
            }
        }
        Ok(DescendVisitResult::Complete(counted))
    }

    /// Makes one pass over the keys.
    fn visit_leaf(&mut self, keys: &[Date], _values: &[V]) -> Result<Option<usize>, AllocError> {
        let here = dates_in(self.year, keys);
        Ok(Some(self.counted.saturating_add(here)))
    }
}

/// Dates as keys, without values.
pub type Calendar = BPlusTreeMap<Date, (), DateStatisticArgument>;

/// Returns a calendar with each day from year `from` on, up to year `to`.
pub fn each_day(alloc: Global, from: u16, to: u16) -> Result<Calendar, AllocError> {
    let mut days = Vec::new(alloc);
    for year in from..to {
        for month in 1..13 {
            for day in 1..day_count(year, month) + 1 {
                days.push((Date { year, month, day }, ()))?;
            }
        }
    }
    filled(alloc, &days)
}

/// Returns the number of dates of a year.
///
/// The map keeps `DateStatisticArgument`, and `descend_visit` reads one node on each level, in
/// O(log n). It allocates nothing, and no call fails.
pub fn days_of(calendar: &Calendar, year: u16) -> Result<Option<usize>, DescendError>
    ensures counted { IfOk result (λ days. days ≡ Some (in_year year (keys_of calendar.now))) }
    ensures unchanged { IfErr result (λ error. error ≡ OutOfMemory) }
{
    calendar.recall();
    calendar.descend_visit(CountForYear::new(year))
}

fn counted_days(calendar: &Calendar, year: u16) -> Result<usize, AllocError> {
    match days_of(calendar, year) {
        Ok(days) => Ok(days.unwrap_or(0)),
        Err(_) => Err(AllocError),
    }
}

/// Counts the days of 2011 to 2020: of all these years, of 2011, 2012, 2020 and 2021, and of 2011
/// after three days are removed.
pub fn run(alloc: Global) -> Result<(usize, [usize; 4], usize), AllocError> {
    let mut calendar = each_day(alloc, 2011, 2021)?;
    counts(&mut calendar)
}

fn counts(calendar: &mut Calendar) -> Result<(usize, [usize; 4], usize), AllocError> {
    let len = calendar.len();
    let days = [
        counted_days(calendar, 2011)?,
        counted_days(calendar, 2012)?,
        counted_days(calendar, 2020)?,
        counted_days(calendar, 2021)?,
    ];
    for (month, day) in [(1, 3), (3, 3), (5, 30)] {
        let date = Date {
            year: 2011,
            month,
            day,
        };
        removed(calendar, &date)?;
    }
    Ok((len, days, counted_days(calendar, 2011)?))
}
