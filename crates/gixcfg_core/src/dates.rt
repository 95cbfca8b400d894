//! Dates as git reads them, in the forms that its page "DATE FORMATS" names, where what they mean depends neither on the present nor on the
//! local time zone.
ghost use Rattle.std.specs.Prelude.{◌≡◌, ◌≤◌, ◌<◌, ◌+◌, ◌*◌, ◌⊎◌, IfSome, MatchOption, Some};
ghost use Rattle.std.specs.Char.{digit_value};
ghost use Rattle.gixcfg_core.specs.Dates as spec;
ghost use Rattle.gixcfg_core.specs.Dates.{date_named};

use crate::numbers::{digit_of, digits_at_front};

/// The last second of 2099, with which git's calendar ends.
const LAST: u64 = 4_102_444_799;

/// What git takes as no end.
const NO_END: u64 = u64::MAX;

/// The first number that git takes as seconds without an `@`.
const LONG: u64 = 100_000_000;

const MINUTE: u64 = 60;

const HOUR: u64 = 3600;

const DAY: u64 = 86_400;

/// A day of git's calendar, from 1970 to 2099.
#[derive(Clone, Copy)]
struct Date {
    /// From 1970 on.
    year: u64,
    /// From 0 on.
    month: u64,
    /// From 1 to 31. One that the month lacks is in the month after it.
    day: u64,
    ghost ends: { year < 130 },
    ghost in_year: { month < 12 },
    ghost counts_from_one: { 1 ≤ day },
    ghost in_month: { day < 32 },
}

/// How far a time zone is ahead of UTC, in seconds, or behind it.
#[derive(Clone, Copy)]
enum Offset {
    Ahead(u64),
    Behind(u64),
}

static MONTHS: [&[u8; 3]; 12] = [
    b"jan", b"feb", b"mar", b"apr", b"may", b"jun", b"jul", b"aug", b"sep", b"oct", b"nov", b"dec",
];

static DAYS: [&[u8; 3]; 7] = [b"sun", b"mon", b"tue", b"wed", b"thu", b"fri", b"sat"];

/// The seconds since 1970 of a date before which all is to expire: 0 for `never` and `false`, `u64::MAX` for `all` and `now`, else of
///
/// - git's own form, as `@1112911993 +0200`, whose `@` may be missing from 9 digits on, and so may the zone;
/// - RFC 2822, as `Thu, 07 Apr 2005 22:13:13 +0200`, with or without the day of the week;
/// - ISO 8601, as `2005-04-07T22:13:13+0200`, with a space in place of `T`, or dots between the numbers of the day.
///
/// The last two need their time zone, and are from 1970 to 2099. `None` for any other text, as of a relative date. One pass, which takes
/// no memory.
pub fn fixed_date(text: &[u8]) -> Option<u64>
    ensures named { IfSome (date_named text.now) (λ seconds. result ≡ Some seconds) }
{
    match named_date(text) {
        Some(seconds) => Some(seconds),
        None => written_date(text),
    }
}

/// The seconds that a word means.
fn named_date(text: &[u8]) -> Option<u64>
    ensures { result ≡ date_named text.now }
{
    if text == b"never".as_slice() || text == b"false".as_slice() {
        Some(0)
    } else if text == b"all".as_slice() || text == b"now".as_slice() {
        Some(NO_END)
    } else {
        None
    }
}

/// The seconds of a date in one of the three forms.
fn written_date(text: &[u8]) -> Option<u64> {
    match text {
        [b'@', stamp @ ..] => written_stamp(stamp).or(long_stamp(stamp)),
        _ => long_stamp(text).or(moment(text)),
    }
}

/// The seconds that git's own form writes, in any number of digits and with a zone.
fn written_stamp(text: &[u8]) -> Option<u64> {
    let (seconds, zone) = digits_at_front(text, 10)?;
    if is_written_zone(zone) && seconds < NO_END {
        Some(seconds)
    } else {
        None
    }
}

/// The seconds that so many digits write that they can't be a day.
fn long_stamp(text: &[u8]) -> Option<u64> {
    let (seconds, zone) = digits_at_front(text, 10)?;
    if (LONG..=LAST).contains(&seconds) && (zone.is_empty() || is_written_zone(zone)) {
        Some(seconds)
    } else {
        None
    }
}

/// Whether a zone follows, in four digits. It isn't asked for, since seconds are the same in all of them.
fn is_written_zone(zone: &[u8]) -> bool {
    match zone {
        [b' ', b'+' | b'-', digits @ ..] if digits.len() == 4 => {
            digits.iter().all(|digit| digit.is_ascii_digit())
        }
        _ => false,
    }
}

/// The seconds of a day and a time in a zone.
fn moment(text: &[u8]) -> Option<u64> {
    let (date, rest) = iso_date(text).or(mail_date(text))?;
    let (time, zone) = time_of_day(rest)?;
    at_zone(days_before(&date) * DAY + time, zone)
}

/// The day that ISO 8601 writes, and what follows it and a `T` or a space.
fn iso_date(text: &[u8]) -> Option<(Date, &[u8])> {
    match text {
        [
            a,
            b,
            c,
            d,
            sign @ (b'-' | b'.'),
            m,
            n,
            other,
            e,
            f,
            b'T' | b' ',
            rest @ ..,
        ] if sign == other => {
            let date = day_of_calendar(
                year_of(&[*a, *b, *c, *d])?,
                two(*m, *n)?.checked_sub(1)?,
                two(*e, *f)?,
            )?;
            Some((date, rest))
        }
        _ => None,
    }
}

/// The day that RFC 2822 writes, and what follows it and a space.
fn mail_date(text: &[u8]) -> Option<(Date, &[u8])> {
    let (day, rest) = day_of_month(after_day_of_week(text))?;
    match rest {
        [b' ', i, j, k, b' ', a, b, c, d, b' ', rest @ ..] => {
            let month = place_in(&MONTHS, &[*i, *j, *k])?;
            Some((
                day_of_calendar(year_of(&[*a, *b, *c, *d])?, month, day)?,
                rest,
            ))
        }
        _ => None,
    }
}

/// A text without a day of the week at its front. Git doesn't ask whether it is the right one.
fn after_day_of_week(text: &[u8]) -> &[u8] {
    match text {
        [a, b, c, b',', b' ', rest @ ..] if place_in(&DAYS, &[*a, *b, *c]).is_some() => rest,
        _ => text,
    }
}

/// The number of one or two digits at the front, and what follows it.
fn day_of_month(text: &[u8]) -> Option<(u64, &[u8])> {
    match text {
        [a, b, rest @ ..] if b.is_ascii_digit() => Some((two(*a, *b)?, rest)),
        [a, rest @ ..] => Some((two(b'0', *a)?, rest)),
        _ => None,
    }
}

/// A day, if git's calendar has it.
fn day_of_calendar(year: u64, month: u64, day: u64) -> Option<Date> {
    if (1970..2100).contains(&year) && month < 12 && (1..32).contains(&day) {
        Some(Date {
            year: year - 1970,
            month,
            day,
        })
    } else {
        None
    }
}

/// The seconds of a day up to a time, and the zone that follows it. An hour 24 and a second 60 are taken as git does.
fn time_of_day(text: &[u8]) -> Option<(u64, &[u8])>
    ensures { IfSome result (λ p. p.0 ≤ 90000) }
{
    match text {
        [h, i, b':', m, n, b':', s, t, rest @ ..] => {
            let time = time(two(*h, *i)?, two(*m, *n)?, two(*s, *t)?)?;
            Some((time, after_fraction(rest)))
        }
        [h, i, b':', m, n, rest @ ..] => {
            Some((time(two(*h, *i)?, two(*m, *n)?, 0)?, after_fraction(rest)))
        }
        _ => None,
    }
}

/// The seconds of a day up to a time.
fn time(hours: u64, minutes: u64, seconds: u64) -> Option<u64>
    ensures value { result ≡ spec.time hours minutes seconds }
    ensures within { IfSome result (λ n. n ≤ 90000) }
{
    if hours <= 24 && minutes < 60 && seconds <= 60 {
        Some(hours * HOUR + minutes * MINUTE + seconds)
    } else {
        None
    }
}

/// A text without a fraction of a second at its front.
fn after_fraction(text: &[u8]) -> &[u8] {
    match text {
        [b'.', digit, rest @ ..] if digit.is_ascii_digit() => {
            let count = rest.iter().position(|byte| !byte.is_ascii_digit());
            rest.split_at(count.unwrap_or(rest.len())).1
        }
        _ => text,
    }
}

/// The seconds of a local time in a zone, from 1970 to 2099.
fn at_zone(local: u64, zone: &[u8]) -> Option<u64> {
    let seconds = match offset_of(zone)? {
        Offset::Ahead(seconds) => local.checked_sub(seconds)?,
        Offset::Behind(seconds) => local.checked_add(seconds)?,
    };
    if local <= LAST && seconds <= LAST {
        Some(seconds)
    } else {
        None
    }
}

/// How far a zone is ahead of UTC. One minute behind it means the local zone to git, so that is none.
fn offset_of(zone: &[u8]) -> Option<Offset> {
    match zone {
        [b' ', zone @ ..] | zone => match zone {
            b"Z" | b"UTC" | b"GMT" => Some(Offset::Ahead(0)),
            [b'+', digits @ ..] => Some(Offset::Ahead(zone_seconds(digits)?)),
            [b'-', digits @ ..] => match zone_seconds(digits)? {
                MINUTE => None,
                seconds => Some(Offset::Behind(seconds)),
            },
            _ => None,
        },
    }
}

/// The seconds of a zone's hours and minutes.
fn zone_seconds(digits: &[u8]) -> Option<u64> {
    let (hours, minutes) = match digits {
        [h, i] => (two(*h, *i)?, 0),
        [h, i, m, n] | [h, i, b':', m, n] => (two(*h, *i)?, two(*m, *n)?),
        _ => return None,
    };
    if hours < 24 && minutes < 60 {
        Some(hours * HOUR + minutes * MINUTE)
    } else {
        None
    }
}

/// How many days from 1970 on are before a day.
fn days_before(date: &Date) -> u64
    ensures days { result ≡ spec.days_before date.now.year date.now.month date.now.day }
    ensures within { result < 48000 }
{
    let leap_days = (date.year + 1) / 4 + is_behind_leap_day(date) as u64;
    date.year * 365 + leap_days + days_before_month(date.month) + date.day - 1
}

/// Whether a day is in a leap year's months from March on.
fn is_behind_leap_day(date: &Date) -> bool
    ensures { result ≡ spec.is_behind_leap_day date.now.year date.now.month }
{
    (date.year + 2) % 4 == 0 && date.month > 1
}

/// How many days of a year without a leap day are before a month.
fn days_before_month(month: u64) -> u64
    ensures days { result ≡ spec.days_before_month month }
    ensures within { result ≤ 334 }
{
    match month {
        0 => 0,
        1 => 31,
        2 => 59,
        3 => 90,
        4 => 120,
        5 => 151,
        6 => 181,
        7 => 212,
        8 => 243,
        9 => 273,
        10 => 304,
        _ => 334,
    }
}

/// The number of four digits.
fn year_of(digits: &[u8; 4]) -> Option<u64>
    ensures { IfSome result (λ n. n < 10000) }
{
    let [a, b, c, d] = digits;
    Some(two(*a, *b)? * 100 + two(*c, *d)?)
}

/// The number of two digits.
fn two(tens: u8, ones: u8) -> Option<u64>
    ensures value { MatchOption result ((10 ≤ digit_value tens) ⊎ (10 ≤ digit_value ones)) (λ n. n ≡ digit_value tens * 10 + digit_value ones) }
    ensures within { IfSome result (λ n. n < 100) }
{
    let (tens, ones) = (digit_of(tens), digit_of(ones));
    if tens < 10 && ones < 10 {
        Some(tens * 10 + ones)
    } else {
        None
    }
}

/// The place of a word of three letters, in either case.
fn place_in(words: &[&[u8; 3]], word: &[u8; 3]) -> Option<u64> {
    let place = words.iter().position(|it| word.eq_ignore_ascii_case(*it))?;
    Some(place as u64)
}
