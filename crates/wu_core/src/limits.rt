//! The limits of this project's profile, each in one place: `specs/Limits.antt` names these constants.

/// The longest name of a workunit, a host or an import, in bytes.
pub const LONGEST_NAME: usize = 64;

/// The longest input of a workunit, in bytes.
pub const LONGEST_INPUT: usize = 4_096;

/// The longest output of an instance, in bytes.
pub const LONGEST_OUTPUT: usize = 65_536;

/// The most instances that a workunit may have.
pub const MOST_INSTANCES: u32 = 100;

/// The most workunits that a project may ever have, and the greatest number of a workunit.
pub const MOST_WORKUNITS: u64 = 1_000_000_000;

/// The greatest quorum, and the greatest target that a template may set.
pub const HIGHEST_QUORUM: u32 = 20;

/// The greatest target of a workunit, which the validator may raise to one more than there can be instances.
pub const HIGHEST_TARGET: u32 = 101;

/// The longest delay of a result, in seconds: 365 days.
pub const LONGEST_DELAY: u32 = 31_536_000;

/// The highest value for the least age of a purge, in seconds: 365 days.
pub const LONGEST_AGE: u64 = 31_536_000;

/// The most credit that a valid result may be worth.
pub const MOST_CREDIT: u32 = 1_000_000;

/// The greatest class of a host.
pub const HIGHEST_CLASS: u32 = 65_535;

/// The last moment, in seconds since 1970-01-01T00:00:00Z: 2099-12-31T23:59:59Z.
pub const LAST_MOMENT: u64 = 4_102_444_799;

/// The last deadline, in seconds since 1970-01-01T00:00:00Z: the longest delay after the last moment.
pub const LAST_DEADLINE: u64 = 4_133_980_799;

/// The version of the schema that a project is created at.
pub const PRESENT_VERSION: u64 = 3;

/// The first version of the schema with a queue.
pub const QUEUE_VERSION: u64 = 2;

/// The first version of the schema with classes of hosts.
pub const CLASS_VERSION: u64 = 3;

/// The most workunits that one pass may be asked to change.
pub const HIGHEST_LIMIT: u64 = 1_000;
