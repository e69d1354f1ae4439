//! The greatest sizes, each in one place: definitions and code cite these constants. Those of lines stand in
//! `smf_lines`, which needs no names.

/// The most bytes of the name of a service or of an instance, and of a pattern.
pub const MAX_NAME: usize = 512;

/// The most bytes of an instance's own name, after its service.
pub const MAX_INSTANCE_NAME: usize = 255;

/// The most bytes of the name of a group, of its type, or of a property.
pub const MAX_COMPONENT: usize = 255;

/// The most bytes of an astring or of a ustring.
pub const MAX_TEXT: usize = 4_096;

/// The most properties of a group, and the most values of a property.
pub const MAX_PARTS: usize = 1_000;

/// The most groups of an owner.
pub const MAX_GROUPS: usize = 1_000;

/// The greatest number of an instance: a cookie has 24 bits for it.
pub const MAX_INSTANCE: u64 = 16_777_215;

/// The greatest run of an instance: a cookie has 38 bits for it.
pub const MAX_RUN: u64 = 274_877_906_943;

/// The greatest revision, launch, serial and number of a row.
pub const MAX_COUNT: u64 = 9_223_372_036_854_775_807;

/// The greatest number of a snapshot, so that there is a next one.
pub const MAX_SNAPSHOT: u64 = 9_223_372_036_854_775_806;

/// The revisions after which changes are known; an older view is sent whole.
pub const MOST_RECENT: usize = 256;

/// After this many failed starts in a row, one more means maintenance.
pub const FAILED_STARTS_ALLOWED: u64 = 2;
