//! Moments: the 20 bytes `YYYY-MM-DDTHH:MM:SSZ`.

ghost use Rattle.std.specs.Prelude.{◌≡◌, ◌+◌, ◌*◌, ◌<◌, true, false, pos, ◌+ℤ◌, ◌*ℤ◌, length, slice_index, IfSome, IfNone};
ghost use Rattle.std.specs.Char.{is_ascii_digit};
ghost use Rattle.jiff_core.specs.Calendar.{days_from_civil};
ghost use Rattle.jiff_core.specs.Date.{epoch_day};
ghost use Rattle.jiff_core.specs.Time.{time_seconds};
ghost use Rattle.wu_feed.specs.Moments.{fits, has_shape, is_civil_date, is_clock_time, moment_at, moment_of, two_at};

use jiff::civil::{Date, DateTime, Time};
use wu_core::{Fault, Moment};

/// The text of a moment, with `0` for each digit.
const SHAPE: [u8; 20] = *b"0000-00-00T00:00:00Z";

/// Returns whether the byte fits this byte of the shape.
fn fits(shape: u8, byte: u8) -> bool
    ensures { result ≡ fits shape byte }
{
    if shape == b'0' {
        byte.is_ascii_digit()
    } else {
        byte == shape
    }
}

/// Returns whether the text has the shape of a moment, with any digits.
fn has_shape(text: &[u8]) -> bool
    ensures { result ≡ has_shape text.now }
{
    if text.len() != SHAPE.len() {
        return false;
    }
    for (place, byte) in text.iter().enumerate() {
        if !fits(SHAPE[place], *byte) {
            return false;
        }
    }
    true
}

/// Returns the number of the two digits at a place.
fn two_at(text: &[u8], place: usize) -> u8
    requires within { place + 1 < length text.now }
    requires tens { is_ascii_digit (slice_index text.now place) ≡ true }
    requires ones { is_ascii_digit (slice_index text.now (place + 1)) ≡ true }
    ensures value { result ≡ two_at text.now place }
    ensures small { result < 100 }
{
    10 * (text[place] - b'0') + (text[place + 1] - b'0')
}

/// Returns the day of the calendar; `None` if there is no such day.
fn civil_date(year: u16, month: u8, day: u8) -> Option<Date>
    requires { (year < 10000) × (month < 100) × (day < 100) }
    ensures none { IfNone result (is_civil_date year month day ≡ false) }
    ensures some { IfSome result (λ date. (is_civil_date year month day ≡ true)
        × (epoch_day date ≡ days_from_civil (pos year) month day)) }
{
    Date::new(year as i16, month as i8, day as i8).ok()
}

/// Returns the time of day; `None` if there is no such time.
fn clock_time(hour: u8, minute: u8, second: u8) -> Option<Time>
    requires { (hour < 100) × (minute < 100) × (second < 100) }
    ensures none { IfNone result (is_clock_time hour minute second ≡ false) }
    ensures some { IfSome result (λ time. (is_clock_time hour minute second ≡ true)
        × (time_seconds time ≡ hour * 3600 + minute * 60 + second)) }
{
    Time::new(hour as i8, minute as i8, second as i8, 0).ok()
}

/// Returns the seconds from the start of 1970 to a civil date and time.
#[tactic(auto, unfolding(jiff_core::specs::DateTime::civil_seconds))]
fn second_of(date: Date, time: Time) -> i64
    ensures { result ≡ epoch_day date *ℤ pos 86_400 +ℤ pos (time_seconds time) }
{
    DateTime::from_parts(date, time).to_plain().to_second()
}

/// Returns the moment at a civil date and time of day; `BadMoment` if they do not exist, or are not from 1970 to 2099.
fn moment_at(
    year: u16,
    month: u8,
    day: u8,
    hour: u8,
    minute: u8,
    second: u8,
) -> Result<Moment, Fault>
    requires date { (year < 10000) × (month < 100) × (day < 100) }
    requires time { (hour < 100) × (minute < 100) × (second < 100) }
    ensures { result ≡ moment_at year month day hour minute second }
{
    let (Some(date), Some(time)) = (
        civil_date(year, month, day),
        clock_time(hour, minute, second),
    ) else {
        return Err(Fault::BadMoment);
    };
    match u64::try_from(second_of(date, time)) {
        Ok(seconds) => Moment::new(seconds).ok_or(Fault::BadMoment),
        Err(_) => Err(Fault::BadMoment),
    }
}

/// Reads a moment from its text: 20 bytes `YYYY-MM-DDTHH:MM:SSZ` with a date and a time that exist, from 1970 to 2099.
/// Any other text is `BadMoment`.
pub fn read_moment(text: &[u8]) -> Result<Moment, Fault>
    // The one text of a moment reads as that moment, and any other text as `BadMoment`.
    ensures { result ≡ moment_of text.now }
{
    if !has_shape(text) {
        return Err(Fault::BadMoment);
    }
    let year = 100 * u16::from(two_at(text, 0)) + u16::from(two_at(text, 2));
    let (month, day) = (two_at(text, 5), two_at(text, 8));
    let (hour, minute, second) = (two_at(text, 11), two_at(text, 14), two_at(text, 17));
    moment_at(year, month, day, hour, minute, second)
}
