//! The figures of a server, as Prometheus' text.

use std::alloc::{AllocError, Global};

/// What is counted since the server began.
#[derive(Drop)]
pub struct Counts {
    /// How often an accept failed at a listener that had none fail before.
    accept_failures: u64,
    /// How many connections weren't let in, by why.
    refused: Vec<(&'static str, u64)>,
}

impl Counts {
    /// Nothing. Takes no memory.
    pub fn new(alloc: Global) -> Counts {
        Counts {
            accept_failures: 0,
            refused: Vec::new(alloc),
        }
    }

    /// A connection isn't let in, for this reason. Where memory is refused for a reason that is new it isn't counted.
    pub fn refuse(&mut self, name: &'static str) {
        match self.refused.iter_mut().find(|one| one.0 == name) {
            Some(one) => one.1 = one.1.saturating_add(1),
            None => {
                let _counted = self.refused.push((name, 1));
            }
        }
    }

    /// An accept failed.
    pub fn fail_to_accept(&mut self) {
        self.accept_failures = self.accept_failures.saturating_add(1);
    }
}

/// How the server stands.
#[derive(Clone, Copy, Debug, Default)]
pub struct Standing {
    pub conferences: u64,
    pub members: u64,
    pub away: u64,
    pub connections: u64,
    pub clients: u64,
    pub is_draining: bool,
    /// How many members ever joined.
    pub joins: u64,
    /// How many events there were, over all conferences.
    pub events: u64,
    /// When it began, in milliseconds since 1970-01-01T00:00:00Z.
    pub since: u64,
}

/// What the system says of the process.
#[derive(Clone, Copy, Debug, Default)]
pub struct Process {
    /// The bytes of memory that it has.
    pub memory: u64,
    pub descriptors: u64,
    /// For how many milliseconds a processor was at it.
    pub processor: u64,
}

/// The figures.
pub fn metrics_text(
    out: &mut String,
    version: &str,
    counts: &Counts,
    standing: &Standing,
    process: &Process,
) -> Result<(), AllocError> {
    add(
        out,
        "floorhub_build_info",
        "gauge",
        "The version that serves.",
    )?;
    write!(out, "floorhub_build_info{{version=\"{version}\"}} 1\n")?;
    let gauges = [
        (
            "floorhub_conferences",
            "Conferences that weren't forgotten.",
            standing.conferences,
        ),
        (
            "floorhub_members",
            "Live members of all conferences.",
            standing.members,
        ),
        (
            "floorhub_away",
            "Members that have lost their connection and stay.",
            standing.away,
        ),
        (
            "floorhub_connections",
            "Connections of members.",
            standing.connections,
        ),
        (
            "floorhub_clients",
            "Connections of control clients.",
            standing.clients,
        ),
        (
            "floorhub_draining",
            "Whether no conference is opened any more.",
            u64::from(standing.is_draining),
        ),
    ];
    for (name, help, value) in gauges {
        add(out, name, "gauge", help)?;
        write!(out, "{name} {value}\n")?;
    }
    let counters = [
        (
            "floorhub_joins_total",
            "Members that ever joined.",
            standing.joins,
        ),
        (
            "floorhub_events_total",
            "Events of all conferences.",
            standing.events,
        ),
        (
            "floorhub_accept_failures_total",
            "Times that a port couldn't accept.",
            counts.accept_failures,
        ),
    ];
    for (name, help, value) in counters {
        add(out, name, "counter", help)?;
        write!(out, "{name} {value}\n")?;
    }
    add(
        out,
        "floorhub_refused_total",
        "counter",
        "Connections that weren't let in, by why.",
    )?;
    for (name, value) in counts.refused.iter() {
        write!(out, "floorhub_refused_total{{name=\"{name}\"}} {value}\n")?;
    }
    add_process(out, standing.since, process)
}

/// What every exporter tells of its process.
fn add_process(out: &mut String, since: u64, process: &Process) -> Result<(), AllocError> {
    add(
        out,
        "process_start_time_seconds",
        "gauge",
        "When the process began.",
    )?;
    add_seconds(out, "process_start_time_seconds", since)?;
    add(
        out,
        "process_cpu_seconds_total",
        "counter",
        "What it took of processors.",
    )?;
    add_seconds(out, "process_cpu_seconds_total", process.processor)?;
    add(
        out,
        "process_resident_memory_bytes",
        "gauge",
        "The memory that it has.",
    )?;
    write!(out, "process_resident_memory_bytes {}\n", process.memory)?;
    add(
        out,
        "process_open_fds",
        "gauge",
        "The descriptors that it has.",
    )?;
    write!(out, "process_open_fds {}\n", process.descriptors)
}

/// A value in seconds, of milliseconds.
fn add_seconds(out: &mut String, name: &str, millis: u64) -> Result<(), AllocError> {
    write!(out, "{name} {}.{:03}\n", millis / 1_000, millis % 1_000)
}

/// What a figure is.
fn add(out: &mut String, name: &str, kind: &str, help: &str) -> Result<(), AllocError> {
    write!(out, "# HELP {name} {help}\n# TYPE {name} {kind}\n")
}
