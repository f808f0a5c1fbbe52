//! Cookie dates (RFC 6265, 5.1.1).
ghost use Rattle.std.specs.Prelude.{◌≡◌, ◌+◌, ◌≤◌, length, Some, option_map, position, IfSome, IfNone, [], ◌∷◌, ◌<◌};
ghost use Rattle.fed_cookie.specs.Date as spec;
ghost use Rattle.std.specs.Char.{to_ascii_lowercase, is_ascii_digit};
ghost use Rattle.std.specs.List.{prefix_len, slice_split};
ghost use Rattle.fed_cookie.specs.Bytes.{number_of};

use crate::bytes::number;
use jiff::civil::Date;

#[derive(Clone, Copy)]
struct Time {
    hour: u64,
    minute: u64,
    second: u64,
}

// What the tokens read so far have given.
#[derive(Clone, Copy)]
struct DateParts {
    time: Option<Time>,
    day: Option<u64>,
    month: Option<u64>,
    year: Option<u64>,
}

/// The moment that a cookie date names, in seconds since 1970; an earlier moment is 0. `None`
/// where the steps of RFC 6265, 5.1.1 fail or the calendar has no such day. It takes no memory.
#[tactic(auto, unfolding(crate::specs::Date::date_of))]
pub fn cookie_date(bytes: &[u8]) -> Option<u64>
    ensures { result ≡ spec.date_of bytes.now }
{
    moment_of(parts_of(bytes))
}

fn parts_of(bytes: &[u8]) -> DateParts
    ensures { result ≡ spec.parts_of bytes.now }
{
    let mut parts = DateParts {
        time: None,
        day: None,
        month: None,
        year: None,
    };
    let mut rest = bytes;
    while let Some((token, after)) = cut_at_delimiter(rest) {
        parts = parts.with_token(token);
        rest = after;
    }
    parts.with_token(rest)
}

// What stands before the first delimiter, and after it.
fn cut_at_delimiter(bytes: &[u8]) -> Option<(&[u8], &[u8])>
    ensures none { IfNone result (slice_split spec.is_delimiter bytes.now ≡ bytes.now ∷ []) }
    ensures some { IfSome result (λ r. slice_split spec.is_delimiter bytes.now ≡ r.0.now ∷ slice_split spec.is_delimiter r.1.now) }
    ensures shorter { IfSome result (λ r. length r.1.now < length bytes.now) }
{
    match delimiter_at(bytes) {
        Some(at) => Some((&bytes[..at], &bytes[at + 1..])),
        None => None,
    }
}

fn delimiter_at(bytes: &[u8]) -> Option<usize>
    ensures { result ≡ position spec.is_delimiter bytes.now }
{
    bytes.iter().position(|b| is_delimiter(*b))
}

fn is_delimiter(b: u8) -> bool
    ensures { result ≡ spec.is_delimiter b }
{
    b == 0x09
        || (0x20 <= b && b <= 0x2f)
        || (0x3b <= b && b <= 0x40)
        || (0x5b <= b && b <= 0x60)
        || (0x7b <= b && b <= 0x7e)
}

impl DateParts {
    // Tries a token as the time, then as the day, the month and the year, for what is not found yet.
    #[tactic(auto, unfolding(crate::specs::Date::with_token))]
    fn with_token(self, token: &[u8]) -> DateParts
        ensures { result ≡ spec.with_token self token.now }
    {
        if self.time.is_none()
            && let Some(time) = time_of(token)
        {
            return DateParts {
                time: Some(time),
                ..self
            };
        }
        self.with_day(token)
    }

    // The same from the day on.
    fn with_day(self, token: &[u8]) -> DateParts
        ensures { result ≡ spec.with_day self token.now }
    {
        if self.day.is_none()
            && let Some(day) = day_of(token)
        {
            return DateParts {
                day: Some(day),
                ..self
            };
        }
        self.with_month(token)
    }

    // The same from the month on.
    fn with_month(self, token: &[u8]) -> DateParts
        ensures { result ≡ spec.with_month self token.now }
    {
        if self.month.is_none()
            && let Some(month) = month_of(token)
        {
            return DateParts {
                month: Some(month),
                ..self
            };
        }
        self.with_year(token)
    }

    // The same with the year alone.
    fn with_year(self, token: &[u8]) -> DateParts
        ensures { result ≡ spec.with_year self token.now }
    {
        if self.year.is_none()
            && let Some(year) = year_of(token)
        {
            return DateParts {
                year: Some(year),
                ..self
            };
        }
        self
    }
}

// The number of the digits in front, at least so many and at most so many, and what follows them.
fn field(bytes: &[u8], least: usize, most: usize) -> Option<(u64, &[u8])>
    requires { most ≤ 4 }
    ensures { option_map (λ f. (f.0, f.1.now)) result ≡ spec.field least most bytes.now }
{
    let count = digit_count(bytes);
    if count < least || count > most {
        return None;
    }
    Some((short_number(&bytes[..count]), &bytes[count..]))
}

// The number that at most four digits write.
fn short_number(digits: &[u8]) -> u64
    requires { length digits.now ≤ 4 }
    ensures { result ≡ number_of digits.now }
{
    number(digits)
}

fn digit_count(bytes: &[u8]) -> usize
    ensures count { result ≡ prefix_len is_ascii_digit bytes.now }
    ensures within { result ≤ length bytes.now }
{
    for (at, b) in bytes.iter().enumerate() {
        if !b.is_ascii_digit() {
            return at;
        }
    }
    bytes.len()
}

// One or two digits and a colon.
fn field_colon(bytes: &[u8]) -> Option<(u64, &[u8])>
    ensures { option_map (λ f. (f.0, f.1.now)) result ≡ spec.field_colon bytes.now }
{
    let (value, rest) = field(bytes, 1, 2)?;
    match rest {
        [b':', after @ ..] => Some((value, after)),
        _ => None,
    }
}

fn time_of(token: &[u8]) -> Option<Time>
    ensures { result ≡ spec.time_of token.now }
{
    let (hour, rest) = field_colon(token)?;
    let (minute, rest) = field_colon(rest)?;
    let (second, _) = field(rest, 1, 2)?;
    Some(Time {
        hour,
        minute,
        second,
    })
}

fn day_of(token: &[u8]) -> Option<u64>
    ensures { result ≡ spec.day_of token.now }
{
    let (day, _) = field(token, 1, 2)?;
    Some(day)
}

fn year_of(token: &[u8]) -> Option<u64>
    ensures { result ≡ spec.year_of token.now }
{
    let (year, _) = field(token, 2, 4)?;
    Some(year)
}

// The month that the first three letters name, from 1.
fn month_of(token: &[u8]) -> Option<u64>
    ensures { result ≡ spec.month_of token.now }
{
    match token {
        [a, b, c, ..] => named_month([
            a.to_ascii_lowercase(),
            b.to_ascii_lowercase(),
            c.to_ascii_lowercase(),
        ]),
        _ => None,
    }
}

fn named_month(name: [u8; 3]) -> Option<u64>
    ensures { result ≡ spec.named_month name }
{
    match &name {
        b"jan" => Some(1),
        b"feb" => Some(2),
        b"mar" => Some(3),
        b"apr" => Some(4),
        b"may" => Some(5),
        b"jun" => Some(6),
        b"jul" => Some(7),
        b"aug" => Some(8),
        b"sep" => Some(9),
        b"oct" => Some(10),
        b"nov" => Some(11),
        b"dec" => Some(12),
        _ => None,
    }
}

fn full_year(year: u64) -> u64
    ensures { result ≡ spec.full_year year }
{
    match year {
        0..=69 => year + 2000,
        70..=99 => year + 1900,
        _ => year,
    }
}

fn moment_of(parts: DateParts) -> Option<u64>
    ensures { result ≡ spec.moment_of parts }
{
    let time = parts.time?;
    let day = parts.day?;
    let month = parts.month?;
    let year = full_year(parts.year?);
    moment(time, year, month, day)
}

fn moment(time: Time, year: u64, month: u64, day: u64) -> Option<u64>
    ensures { result ≡ spec.moment time year month day }
{
    if time.hour > 23 || time.minute > 59 || time.second > 59 {
        return None;
    }
    let days = day_number(year, month, day)?;
    Some(seconds_since(days, time.hour * 3600 + time.minute * 60 + time.second))
}

fn seconds_since(day: i32, second: u64) -> u64
    requires { second ≤ 100000 }
    ensures { result ≡ spec.seconds_since day second }
{
    if day < 0 {
        return 0;
    }
    day as u64 * 86400 + second
}

// The days since 1970 of a day from 1601 on that the calendar has.
fn day_number(year: u64, month: u64, day: u64) -> Option<i32>
    ensures { result ≡ spec.day_number year month day }
{
    if year < 1601 || year > 9999 || month > 12 || day > 31 {
        return None;
    }
    match Date::new(year as i16, month as i8, day as i8) {
        Ok(date) => Some(date.to_plain().to_unix_epoch_day()),
        Err(_) => None,
    }
}
