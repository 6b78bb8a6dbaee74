//! Moments and deadlines: whole seconds since 1970-01-01T00:00:00Z.

ghost use Rattle.std.specs.Prelude.{◌≡◌, ℕ, ◌+◌, ◌<◌, ◌≤◌, ◌↔◌, IsTrue, SomeIff};
ghost use Rattle.wu_core.specs.Limits.{last_moment, last_deadline, longest_delay};

use crate::limits::{LAST_DEADLINE, LAST_MOMENT};
use std::marker::Model;

/// A moment that a caller gives: 0 to 4102444799, the last second of the year 2099.
#[derive(Clone, Copy, PartialEq, Eq, PartialOrd, Ord)]
pub struct Moment {
    seconds: u64,
}

impl Model for Moment {
    ghost Value = { ℕ };

    ghost view = { λ moment. moment.seconds };

    ghost invariant = { λ moment. moment.seconds ≤ last_moment };

    ghost inverse = { λ n. record { seconds = n } };
}

impl Moment {
    /// Returns the first moment: 1970-01-01T00:00:00Z.
    pub fn first() -> Self
        // The result is second 0.
        ensures { result ≡ 0 }
    {
        Moment { seconds: 0 }
    }

    /// Returns the moment so many seconds after the start of 1970, or `None` if it is after the year 2099.
    pub fn new(seconds: u64) -> Option<Self>
        // A number of seconds is a moment exactly if it is at most 4102444799.
        ensures { SomeIff result (seconds ≤ last_moment) seconds }
    {
        if seconds <= LAST_MOMENT {
            Some(Moment { seconds })
        } else {
            None
        }
    }

    /// Returns the seconds since 1970-01-01T00:00:00Z: at most 4102444799, the last second of 2099.
    pub fn seconds(self) -> u64
        // The result is the number of seconds of the moment.
        ensures value { result ≡ self }
        // A moment is at most 4102444799, the last second of 2099.
        ensures within { self ≤ last_moment }
    {
        self.seconds
    }

    /// Returns the deadline of an instance that is sent at this moment, with a delay in seconds of at most 365 days.
    pub fn after(self, delay: u32) -> Deadline
        // The delay is at most 31,536,000 seconds, 365 days.
        requires { delay ≤ longest_delay }
        // The deadline is the moment plus the delay.
        ensures { result ≡ self + delay }
    {
        Deadline {
            seconds: self.seconds + u64::from(delay),
        }
    }
}

/// The deadline of a sent instance: 0 to 4133980799, 365 days after the last moment.
#[derive(Clone, Copy, PartialEq, Eq, PartialOrd, Ord)]
pub struct Deadline {
    seconds: u64,
}

impl Model for Deadline {
    ghost Value = { ℕ };

    ghost view = { λ deadline. deadline.seconds };

    ghost invariant = { λ deadline. deadline.seconds ≤ last_deadline };

    ghost inverse = { λ n. record { seconds = n } };
}

impl Deadline {
    /// Returns the deadline so many seconds after the start of 1970, or `None` if it is after the last one.
    pub fn new(seconds: u64) -> Option<Self>
        // A number of seconds is a deadline exactly if it is at most 4133980799.
        ensures { SomeIff result (seconds ≤ last_deadline) seconds }
    {
        if seconds <= LAST_DEADLINE {
            Some(Deadline { seconds })
        } else {
            None
        }
    }

    /// Returns the seconds since 1970-01-01T00:00:00Z: at most 4133980799, 365 days after the last moment.
    pub fn seconds(self) -> u64
        // The result is the number of seconds of the deadline.
        ensures value { result ≡ self }
        // A deadline is at most 4133980799, 365 days after the last moment.
        ensures within { self ≤ last_deadline }
    {
        self.seconds
    }

    /// Returns whether the deadline is before the moment. At the deadline itself nothing is late.
    pub fn is_before(self, now: Moment) -> bool
        // The result is true exactly if the deadline is before the moment.
        ensures { IsTrue result ↔ (self < now) }
    {
        self.seconds < now.seconds
    }
}
