// A time for a reader.
use jiff_core::civil::DateTime;
use std::alloc::{AllocError, Global};

/// Seconds since the start of 1970 as `2026-11-28 03:00:04 UTC`, and none after the year 9999.
pub(crate) fn moment(alloc: Global, seconds: u64) -> Result<Option<String>, AllocError> {
    let Ok(at) = DateTime::from_nanosecond(i128::from(seconds) * 1_000_000_000) else {
        return Ok(None);
    };
    let (date, time) = (at.date, at.time);
    let text = format!(in alloc;
        "{:04}-{:02}-{:02} {:02}:{:02}:{:02} UTC",
        date.year, date.month, date.day, time.hour, time.minute, time.second
    )?;
    Ok(Some(text))
}

/// ` since ..` with that time, and nothing where there is none.
pub(crate) fn since(alloc: Global, seconds: Option<u64>) -> Result<String, AllocError> {
    let Some(seconds) = seconds else {
        return Ok(String::new(alloc));
    };
    match moment(alloc, seconds)? {
        Some(moment) => format!(in alloc; " since {moment}"),
        None => Ok(String::new(alloc)),
    }
}
