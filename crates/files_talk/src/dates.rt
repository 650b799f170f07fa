//! Dates of a volume, in seconds since 1904, and those of the system, in seconds since 1970, both in GMT.

/// The seconds from the first moment of a volume to that of the system.
const EPOCH: i64 = 2_082_844_800;

/// The first moment that a volume can tell, in seconds since 1970: the beginning of 1904.
pub const FIRST_SECOND: i64 = -2_082_844_800;

/// The last moment that a volume can tell, in seconds since 1970: the sixth of February of 2040, 06:28:15.
pub const LAST_SECOND: i64 = 2_212_122_495;

/// A date of a volume, and whether it stands for one that no volume can tell.
#[derive(Clone, Copy, Debug, PartialEq, Eq)]
pub struct Date {
    pub date: u32,
    pub clamped: bool,
}

/// The date of a moment in seconds since 1970: the nearest that a volume can tell.
pub fn date_of(seconds: i64) -> Date {
    let within = seconds.clamp(FIRST_SECOND, LAST_SECOND);
    Date {
        date: u32::try_from(within.saturating_add(EPOCH)).unwrap_or(0),
        clamped: within != seconds,
    }
}

/// The moment of a date, in seconds since 1970.
pub fn seconds_of(date: u32) -> i64 {
    i64::from(date).saturating_sub(EPOCH)
}
