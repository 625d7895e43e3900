//! A server's counts, in Prometheus' text.

ghost use Rattle.std.specs.Prelude.{◌≡◌, ◌++◌, OnOk, string_bytes};
ghost use Rattle.floor_control.specs.Metrics.{both, bucket, counted, counter, event_counters, gauge, gauges, head, histogram, long_buckets, metrics, no_times, noted, refusal_counters, sample, short_buckets, sum_words};

use crate::refused::{RefusedCounts, add_refused_total};
use std::alloc::AllocError;
use std::fmt::Write;

/// How long events held their loops.
#[derive(Clone, Copy, Debug, PartialEq, Eq)]
pub struct EventTimes {
    /// How many did for 10 microseconds at most.
    pub tens: u64,
    /// How many did for 100 microseconds at most.
    pub hundreds: u64,
    /// How many did for 1 millisecond at most.
    pub milliseconds: u64,
    /// How many did for 10 milliseconds at most.
    pub ten_milliseconds: u64,
    /// How many did for 100 milliseconds at most.
    pub hundred_milliseconds: u64,
    /// How many did for 1 second at most.
    pub seconds: u64,
    /// How many events there were.
    pub count: u64,
    /// How many nanoseconds they took together.
    pub nanoseconds: u64,
}

/// What a server counts.
#[derive(Clone, Copy, Debug, PartialEq, Eq)]
pub struct Metrics {
    /// How many conferences are open.
    pub conferences: u64,
    /// How many members are live.
    pub members: u64,
    /// How many connections there are.
    pub connections: u64,
    /// How many events there were.
    pub events: u64,
    /// How many of them were messages.
    pub messages: u64,
    /// How many messages were told to members.
    pub told: u64,
    /// How many members were cut.
    pub cut: u64,
    /// How many connections were refused.
    pub refused: RefusedCounts,
    /// How often a connection couldn't be accepted.
    pub accept_failures: u64,
    /// How long events held their loops.
    pub event_times: EventTimes,
}

impl EventTimes {
    /// No event.
    pub fn new() -> EventTimes
        ensures value { result ≡ no_times }
    {
        EventTimes {
            tens: 0,
            hundreds: 0,
            milliseconds: 0,
            ten_milliseconds: 0,
            hundred_milliseconds: 0,
            seconds: 0,
            count: 0,
            nanoseconds: 0,
        }
    }

    /// Counts an event that held its loop for so many nanoseconds.
    pub fn note(&mut self, nanoseconds: u64)
        ensures value { self.new ≡ noted nanoseconds self.old }
    {
        count_within(&mut self.tens, nanoseconds, 10_000);
        count_within(&mut self.hundreds, nanoseconds, 100_000);
        count_within(&mut self.milliseconds, nanoseconds, 1_000_000);
        count_within(&mut self.ten_milliseconds, nanoseconds, 10_000_000);
        count_within(&mut self.hundred_milliseconds, nanoseconds, 100_000_000);
        count_within(&mut self.seconds, nanoseconds, 1_000_000_000);
        self.count = self.count.saturating_add(1);
        self.nanoseconds = self.nanoseconds.saturating_add(nanoseconds);
    }

    /// The events of both.
    pub fn with(self, other: EventTimes) -> EventTimes
        ensures value { result ≡ both self other }
    {
        EventTimes {
            tens: self.tens.saturating_add(other.tens),
            hundreds: self.hundreds.saturating_add(other.hundreds),
            milliseconds: self.milliseconds.saturating_add(other.milliseconds),
            ten_milliseconds: self.ten_milliseconds.saturating_add(other.ten_milliseconds),
            hundred_milliseconds: self
                .hundred_milliseconds
                .saturating_add(other.hundred_milliseconds),
            seconds: self.seconds.saturating_add(other.seconds),
            count: self.count.saturating_add(other.count),
            nanoseconds: self.nanoseconds.saturating_add(other.nanoseconds),
        }
    }
}

/// Counts one more, where it took no longer.
fn count_within(count: &mut u64, nanoseconds: u64, most: u64)
    ensures { count.new ≡ counted nanoseconds most count.old }
{
    if nanoseconds <= most {
        *count = count.saturating_add(1);
    }
}

/// Adds a server's counts, and the number of their lines. After an error the text may have a part of it.
pub fn add_metrics(out: &mut String, counts: Metrics) -> Result<(), AllocError>
    ensures { OnOk result (string_bytes out.new ≡ string_bytes out.old ++ metrics counts) }
{
    add_counts(out, counts)?;
    add_histogram(out, counts.event_times)?;
    out.push_str("end 52\n")
}

fn add_counts(out: &mut String, counts: Metrics) -> Result<(), AllocError>
    ensures { OnOk result (string_bytes out.new ≡ string_bytes out.old
        ++ (gauges counts ++ (event_counters counts ++ refusal_counters counts))) }
{
    add_gauges(out, counts)?;
    add_event_counters(out, counts)?;
    add_refusal_counters(out, counts)
}

fn add_gauges(out: &mut String, counts: Metrics) -> Result<(), AllocError>
    ensures { OnOk result (string_bytes out.new ≡ string_bytes out.old ++ gauges counts) }
{
    add_gauge(
        out,
        "conferences",
        "Conferences that are open.",
        counts.conferences,
    )?;
    add_gauge(out, "members", "Members that are live.", counts.members)?;
    add_gauge(
        out,
        "connections",
        "Connections that are served.",
        counts.connections,
    )
}

fn add_event_counters(out: &mut String, counts: Metrics) -> Result<(), AllocError>
    ensures { OnOk result (string_bytes out.new ≡ string_bytes out.old ++ event_counters counts) }
{
    add_counter(
        out,
        "events_total",
        "Events of all conferences.",
        counts.events,
    )?;
    add_counter(
        out,
        "messages_total",
        "Messages of members.",
        counts.messages,
    )?;
    add_counter(out, "told_total", "Messages told to members.", counts.told)
}

fn add_refusal_counters(out: &mut String, counts: Metrics) -> Result<(), AllocError>
    ensures { OnOk result (string_bytes out.new ≡ string_bytes out.old ++ refusal_counters counts) }
{
    add_counter(out, "cut_total", "Members that were cut.", counts.cut)?;
    add_refused_total(out, counts.refused)?;
    add_counter(
        out,
        "accept_failures_total",
        "Connections that could not be accepted.",
        counts.accept_failures,
    )
}

fn add_gauge(out: &mut String, name: &str, help: &str, count: u64) -> Result<(), AllocError>
    ensures { OnOk result (string_bytes out.new
        ≡ string_bytes out.old ++ gauge name.now help.now count) }
{
    add_head(out, name, help, "gauge")?;
    add_sample(out, name, count)
}

fn add_counter(out: &mut String, name: &str, help: &str, count: u64) -> Result<(), AllocError>
    ensures { OnOk result (string_bytes out.new
        ≡ string_bytes out.old ++ counter name.now help.now count) }
{
    add_head(out, name, help, "counter")?;
    add_sample(out, name, count)
}

/// Adds what a count is, and of which kind.
fn add_head(out: &mut String, name: &str, help: &str, kind: &str) -> Result<(), AllocError>
    ensures { OnOk result (string_bytes out.new
        ≡ string_bytes out.old ++ head name.now help.now kind.now) }
{
    write!(
        out,
        "# HELP floorhub_{name} {help}\n# TYPE floorhub_{name} {kind}\n"
    )
}

/// Adds how many there are.
fn add_sample(out: &mut String, name: &str, count: u64) -> Result<(), AllocError>
    ensures { OnOk result (string_bytes out.new
        ≡ string_bytes out.old ++ sample name.now count) }
{
    write!(out, "floorhub_{name} {count}\n")
}

fn add_histogram(out: &mut String, times: EventTimes) -> Result<(), AllocError>
    ensures { OnOk result (string_bytes out.new ≡ string_bytes out.old ++ histogram times) }
{
    add_head(
        out,
        "event_seconds",
        "How long an event held its loop.",
        "histogram",
    )?;
    add_short_buckets(out, times)?;
    add_long_buckets(out, times)?;
    add_sum(out, times)
}

fn add_short_buckets(out: &mut String, times: EventTimes) -> Result<(), AllocError>
    ensures { OnOk result (string_bytes out.new ≡ string_bytes out.old ++ short_buckets times) }
{
    add_bucket(out, "0.00001", times.tens)?;
    add_bucket(out, "0.0001", times.hundreds)?;
    add_bucket(out, "0.001", times.milliseconds)
}

fn add_long_buckets(out: &mut String, times: EventTimes) -> Result<(), AllocError>
    ensures { OnOk result (string_bytes out.new ≡ string_bytes out.old ++ long_buckets times) }
{
    add_bucket(out, "0.01", times.ten_milliseconds)?;
    add_bucket(out, "0.1", times.hundred_milliseconds)?;
    add_bucket(out, "1", times.seconds)
}

/// Adds how many events took no longer than this.
fn add_bucket(out: &mut String, most: &str, count: u64) -> Result<(), AllocError>
    ensures { OnOk result (string_bytes out.new ≡ string_bytes out.old ++ bucket most.now count) }
{
    write!(
        out,
        "floorhub_event_seconds_bucket{{le=\"{most}\"}} {count}\n"
    )
}

/// Adds how many events there were, and how long all of them took.
fn add_sum(out: &mut String, times: EventTimes) -> Result<(), AllocError>
    ensures { OnOk result (string_bytes out.new ≡ string_bytes out.old ++ sum_words times) }
{
    let EventTimes {
        count,
        nanoseconds,
        ..
    } = times;
    add_bucket(out, "+Inf", count)?;
    write!(
        out,
        "floorhub_event_seconds_sum {nanoseconds}e-9\nfloorhub_event_seconds_count {count}\n"
    )
}
