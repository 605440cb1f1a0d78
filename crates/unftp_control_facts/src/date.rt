//! The date of a line of LIST.
ghost use Rattle.std.specs.Prelude.{◌≡◌, ◌≤◌, ◌<◌, ◌-ℤ◌, ◌∷◌, ◌++◌, OnOk, codes, decimal};
ghost use Rattle.std.specs.Int.{IsInRange};
ghost use Rattle.jiff_core.specs.Calendar.{IsYear};
ghost use Rattle.unftp_control_defs.specs.Bytes.{Bytes};
ghost use Rattle.unftp_control_facts.specs.Facts.{two_digits};
ghost use Rattle.unftp_control_facts.specs.Listing.{IsDate, clock_or_year, date_text, is_recent, month_name, right, year_text};

use crate::columns::push_right;
use itoa::Buffer;
use jiff::Timestamp;
use jiff::civil::DateTime;
use jiff::tz::Offset;
use std::alloc::AllocError;

/// A file of this age or older is listed with the year in place of the time of day: 182 days, in
/// nanoseconds.
const HALF_A_YEAR: i128 = 182 * 86_400 * 1_000_000_000;

const MONTHS: &[u8] = b"JanFebMarAprMayJunJulAugSepOctNovDec";

/// Appends the date of an instant.
pub(crate) fn push_date(
    line: &mut Vec<u8>,
    instant: Timestamp,
    now: Timestamp,
) -> Result<(), AllocError>
    ensures { OnOk result ((date : Bytes) × IsDate now.nanosecond instant.nanosecond date
        × (line.new.items ≡ line.old.items ++ date)) }
{
    let civil = Offset::UTC.to_datetime(instant);
    push_civil(
        line,
        civil,
        is_recent(now.as_nanosecond() - instant.as_nanosecond()),
    )
}

/// Appends the date of a civil time.
fn push_civil(line: &mut Vec<u8>, civil: DateTime, recent: bool) -> Result<(), AllocError>
    ensures { OnOk result (line.new.items ≡ line.old.items ++ date_text recent civil) }
{
    line.extend_from_slice(month_name(civil.month().unsigned_abs()))?;
    push_day(line, civil.day().unsigned_abs())?;
    push_clock_or_year(line, civil, recent)
}

/// Appends the time of day, or the year.
fn push_clock_or_year(line: &mut Vec<u8>, civil: DateTime, recent: bool) -> Result<(), AllocError>
    ensures { OnOk result (line.new.items ≡ line.old.items ++ clock_or_year recent civil) }
{
    if recent {
        push_clock(
            line,
            civil.hour().unsigned_abs(),
            civil.minute().unsigned_abs(),
        )
    } else {
        push_year(line, civil.year())
    }
}

/// Whether an age in nanoseconds is at least 0 and less than 182 days.
fn is_recent(age: i128) -> bool
    ensures { result ≡ is_recent age }
{
    0 <= age && age < HALF_A_YEAR
}

/// The three letters of a month.
fn month_name(month: u8) -> &'static [u8]
    requires { IsInRange 1 12 month }
    ensures { result.now ≡ month_name month }
{
    let start = 3 * (usize::from(month) - 1);
    &MONTHS[start..start + 3]
}

/// Appends a space and the day of a month.
fn push_day(line: &mut Vec<u8>, day: u8) -> Result<(), AllocError>
    ensures { OnOk result (line.new.items ≡ line.old.items ++ 32 ∷ right 2 (decimal day)) }
{
    line.push(b' ')?;
    let mut digits = Buffer::new();
    push_right(line, 2, digits.format(day).as_bytes())
}

/// Appends a space, the hour and the minute.
fn push_clock(line: &mut Vec<u8>, hour: u8, minute: u8) -> Result<(), AllocError>
    requires hour { hour < 100 }
    requires minute { minute < 100 }
    ensures { OnOk result (line.new.items
        ≡ line.old.items ++ 32 ∷ (two_digits hour ++ codes ":" ++ two_digits minute)) }
{
    line.push(b' ')?;
    line.extend_from_slice(&two_digits(hour))?;
    line.push(b':')?;
    line.extend_from_slice(&two_digits(minute))
}

/// Appends two spaces and the year in four digits.
fn push_year(line: &mut Vec<u8>, year: i16) -> Result<(), AllocError>
    requires { IsYear year }
    ensures { OnOk result (line.new.items ≡ line.old.items ++ 32 ∷ 32 ∷ year_text year) }
{
    line.extend_from_slice(b"  ")?;
    let year = year.max(0).unsigned_abs();
    line.extend_from_slice(&two_digits((year / 100) as u8))?;
    line.extend_from_slice(&two_digits((year % 100) as u8))
}

/// A number in two digits.
fn two_digits(number: u8) -> [u8; 2]
    requires { number < 100 }
    ensures { result ≡ two_digits number }
{
    [b'0' + number / 10, b'0' + number % 10]
}
