// The tables of a file.
use std::alloc::Global;

/// A text of printable ASCII, as a line of svccfg can have it.
#[derive(Debug, Drop)]
pub struct Words {
    pub text: String,
}

/// When a daemon is ready: the options of `smf_ready`, by their names.
#[derive(Debug, Drop)]
pub struct ReadyTable {
    pub notify: Option<bool>,
    pub port: Option<u64>,
    pub http: Option<Words>,
    pub file: Option<Words>,
    pub alive: Option<u64>,
    pub timeout: Option<u64>,
    pub watchdog: Option<u64>,
}

/// An instance: its methods, what it needs, and as whom and where it runs.
#[derive(Debug, Drop)]
pub struct InstanceTable {
    /// The commands of the methods. Without `stop` it is `:kill`.
    pub start: Words,
    pub stop: Option<Words>,
    pub refresh: Option<Words>,
    /// The seconds that they may take.
    pub start_timeout: Option<u64>,
    pub stop_timeout: Option<u64>,
    pub refresh_timeout: Option<u64>,
    pub enabled: Option<bool>,
    pub restarter: Option<Words>,
    pub duration: Option<Words>,
    pub ignore_error: Option<Words>,
    /// It starts when all of these run, ..
    pub needs: Option<Vec<Words>>,
    /// .. one of these, ..
    pub needs_any: Option<Vec<Words>>,
    /// .. those of these that are enabled, ..
    pub wants: Option<Vec<Words>>,
    /// .. and none of these.
    pub conflicts: Option<Vec<Words>>,
    /// At which ends of these it is restarted. Without it at none.
    pub restart_on: Option<Words>,
    /// The options of `smf_exec`.
    pub user: Option<Words>,
    pub directory: Option<Words>,
    pub environment: Option<Vec<Words>>,
    pub environment_file: Option<Words>,
    pub umask: Option<Words>,
    pub limits: Option<Vec<Words>>,
    pub nice: Option<i64>,
    pub no_new_privs: Option<bool>,
    pub memory: Option<Words>,
    pub tasks: Option<u64>,
    pub cpu: Option<Words>,
    pub ready: Option<ReadyTable>,
    /// Properties of the group `startd`.
    pub retry_seconds: Option<u64>,
    pub retry_most: Option<u64>,
    pub retry_count: Option<u64>,
    pub critical_failure_count: Option<u64>,
    pub critical_failure_period: Option<u64>,
    pub log_max: Option<u64>,
    pub log_keep: Option<u64>,
}

/// A value of a property that is the application's own.
#[derive(Debug, Drop)]
pub enum PropertyValue {
    Boolean(bool),
    Count(u64),
    Integer(i64),
    Text(Words),
}

/// A property that is the application's own.
#[derive(Debug, Drop)]
pub struct Setting {
    pub name: String,
    pub value: PropertyValue,
}

/// A group of such properties.
#[derive(Debug, Drop)]
pub struct PropertyGroup {
    pub name: String,
    pub settings: Vec<Setting>,
}

/// An instance of a service, with its table.
#[derive(Debug, Drop)]
pub struct Entry {
    pub service: String,
    pub instance: String,
    pub table: InstanceTable,
    pub groups: Vec<PropertyGroup>,
}

impl ReadyTable {
    pub(crate) fn new() -> ReadyTable {
        ReadyTable {
            notify: None,
            port: None,
            http: None,
            file: None,
            alive: None,
            timeout: None,
            watchdog: None,
        }
    }
}

impl InstanceTable {
    /// The table without keys.
    pub(crate) fn new(alloc: Global) -> InstanceTable {
        InstanceTable {
            start: Words {
                text: String::new(alloc),
            },
            stop: None,
            refresh: None,
            start_timeout: None,
            stop_timeout: None,
            refresh_timeout: None,
            enabled: None,
            restarter: None,
            duration: None,
            ignore_error: None,
            needs: None,
            needs_any: None,
            wants: None,
            conflicts: None,
            restart_on: None,
            user: None,
            directory: None,
            environment: None,
            environment_file: None,
            umask: None,
            limits: None,
            nice: None,
            no_new_privs: None,
            memory: None,
            tasks: None,
            cpu: None,
            ready: None,
            retry_seconds: None,
            retry_most: None,
            retry_count: None,
            critical_failure_count: None,
            critical_failure_period: None,
            log_max: None,
            log_keep: None,
        }
    }
}
