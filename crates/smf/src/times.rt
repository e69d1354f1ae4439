// Times as people write them.

/// The number that digits are, if they all are digits.
fn number_at(text: &[u8], from: usize, to: usize) -> Option<u64> {
    let mut number: u64 = 0;
    for byte in text.get(from..to)? {
        if !byte.is_ascii_digit() {
            return None;
        }
        let digit = u64::from(byte.saturating_sub(b'0'));
        number = number.saturating_mul(10).saturating_add(digit);
    }
    Some(number)
}

/// The days since 1970 of a day. January and February count for the year before, so that the day of a leap year is its last.
fn days_of(year: u64, month: u64, day: u64) -> u64 {
    let (year, month) = if month > 2 {
        (year, month - 3)
    } else {
        (year.saturating_sub(1), month + 9)
    };
    let leaps = (year / 4).saturating_add(year / 400);
    let months = month.saturating_mul(153).saturating_add(2) / 5;
    year.saturating_mul(365)
        .saturating_add(leaps)
        .saturating_sub(year / 100)
        .saturating_add(months)
        .saturating_add(day)
        .saturating_sub(719_469)
}

/// True if these bytes stand between the numbers of a time.
fn is_formed(text: &[u8]) -> bool {
    text.len() == 20
        && text[4] == b'-'
        && text[7] == b'-'
        && text[10] == b'T'
        && text[13] == b':'
        && text[16] == b':'
        && text[19] == b'Z'
}

/// The milliseconds from 1970 to the end of a second, which is written as `2026-11-29T10:07:39Z`.
pub(crate) fn time_in(text: &str) -> Option<u64> {
    let text = text.as_bytes();
    if !is_formed(text) {
        return None;
    }
    let days = days_of(
        number_at(text, 0, 4)?,
        number_at(text, 5, 7)?,
        number_at(text, 8, 10)?,
    );
    let hours = days
        .saturating_mul(24)
        .saturating_add(number_at(text, 11, 13)?);
    let minutes = hours
        .saturating_mul(60)
        .saturating_add(number_at(text, 14, 16)?);
    let seconds = minutes
        .saturating_mul(60)
        .saturating_add(number_at(text, 17, 19)?);
    Some(seconds.saturating_mul(1000).saturating_add(999))
}
