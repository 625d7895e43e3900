//! How many connections were refused, by the name of the refusal, in Prometheus' text.

ghost use Rattle.std.specs.Prelude.{◌≡◌, ◌++◌, OnOk, string_bytes};
ghost use Rattle.floor_control.specs.Refused.{at_doors, by_bounds, by_certificates, by_conferences, by_headers, both_refused, inside, none_refused, refused_sample, refused_total};

use std::alloc::AllocError;
use std::fmt::Write;

/// How many connections were refused, by the name of the refusal.
#[derive(Clone, Copy, Debug, PartialEq, Eq)]
pub struct RefusedCounts {
    /// What came at a door was a front of a header at most.
    pub no_header: u64,
    /// What came at a door was no header.
    pub bad_header: u64,
    /// The header of a door said nobody.
    pub no_name: u64,
    /// What the header of a door said was no name.
    pub bad_name: u64,
    /// No certificate came over TLS.
    pub no_certificate: u64,
    /// No authority vouches for the certificate.
    pub not_verified: u64,
    /// No such conference was open.
    pub no_conference: u64,
    /// The conference has no such user.
    pub no_user: u64,
    /// The conference was closed.
    pub ended: u64,
    /// The conference is broken off.
    pub broken: u64,
    /// The user had as many connections as one may have.
    pub user_connections: u64,
    /// The conference had 128 connections.
    pub connections: u64,
    /// The conference had 64 members.
    pub full: u64,
    /// The journal of the conference had 2,000,000 events.
    pub journal_full: u64,
    /// Memory was refused.
    pub memory: u64,
}

impl RefusedCounts {
    /// None.
    pub fn new() -> RefusedCounts
        ensures value { result ≡ none_refused }
    {
        RefusedCounts {
            no_header: 0,
            bad_header: 0,
            no_name: 0,
            bad_name: 0,
            no_certificate: 0,
            not_verified: 0,
            no_conference: 0,
            no_user: 0,
            ended: 0,
            broken: 0,
            user_connections: 0,
            connections: 0,
            full: 0,
            journal_full: 0,
            memory: 0,
        }
    }

    /// Those of both.
    pub fn with(self, other: RefusedCounts) -> RefusedCounts
        ensures value { result ≡ both_refused self other }
    {
        RefusedCounts {
            no_header: self.no_header.saturating_add(other.no_header),
            bad_header: self.bad_header.saturating_add(other.bad_header),
            no_name: self.no_name.saturating_add(other.no_name),
            bad_name: self.bad_name.saturating_add(other.bad_name),
            no_certificate: self.no_certificate.saturating_add(other.no_certificate),
            not_verified: self.not_verified.saturating_add(other.not_verified),
            no_conference: self.no_conference.saturating_add(other.no_conference),
            no_user: self.no_user.saturating_add(other.no_user),
            ended: self.ended.saturating_add(other.ended),
            broken: self.broken.saturating_add(other.broken),
            user_connections: self.user_connections.saturating_add(other.user_connections),
            connections: self.connections.saturating_add(other.connections),
            full: self.full.saturating_add(other.full),
            journal_full: self.journal_full.saturating_add(other.journal_full),
            memory: self.memory.saturating_add(other.memory),
        }
    }
}

/// Adds how many connections were refused, by the name of the refusal.
pub(crate) fn add_refused_total(out: &mut String, counts: RefusedCounts) -> Result<(), AllocError>
    ensures { OnOk result (string_bytes out.new ≡ string_bytes out.old ++ refused_total counts) }
{
    out.push_str(
        "# HELP floorhub_refused_total Connections that were refused.\n# TYPE floorhub_refused_total counter\n",
    )?;
    add_at_doors(out, counts)?;
    add_inside(out, counts)
}

/// Adds how many were refused by what they said at a door.
fn add_at_doors(out: &mut String, counts: RefusedCounts) -> Result<(), AllocError>
    ensures { OnOk result (string_bytes out.new ≡ string_bytes out.old ++ at_doors counts) }
{
    add_by_headers(out, counts)?;
    add_by_certificates(out, counts)
}

/// Adds how many were refused for what stands inside: their conference, a bound of it, or memory.
fn add_inside(out: &mut String, counts: RefusedCounts) -> Result<(), AllocError>
    ensures { OnOk result (string_bytes out.new ≡ string_bytes out.old ++ inside counts) }
{
    add_by_conferences(out, counts)?;
    add_by_bounds(out, counts)?;
    add_sample(out, "Memory", counts.memory)
}

/// Adds how many a header at a door refused.
fn add_by_headers(out: &mut String, counts: RefusedCounts) -> Result<(), AllocError>
    ensures { OnOk result (string_bytes out.new ≡ string_bytes out.old ++ by_headers counts) }
{
    add_sample(out, "NoHeader", counts.no_header)?;
    add_sample(out, "BadHeader", counts.bad_header)?;
    add_sample(out, "NoName", counts.no_name)?;
    add_sample(out, "BadName", counts.bad_name)
}

/// Adds how many a certificate refused.
fn add_by_certificates(out: &mut String, counts: RefusedCounts) -> Result<(), AllocError>
    ensures { OnOk result (string_bytes out.new ≡ string_bytes out.old ++ by_certificates counts) }
{
    add_sample(out, "NoCertificate", counts.no_certificate)?;
    add_sample(out, "NotVerified", counts.not_verified)
}

/// Adds how many the conference refused.
fn add_by_conferences(out: &mut String, counts: RefusedCounts) -> Result<(), AllocError>
    ensures { OnOk result (string_bytes out.new ≡ string_bytes out.old ++ by_conferences counts) }
{
    add_sample(out, "NoConference", counts.no_conference)?;
    add_sample(out, "NoUser", counts.no_user)?;
    add_sample(out, "Ended", counts.ended)?;
    add_sample(out, "Broken", counts.broken)
}

/// Adds how many a bound refused.
fn add_by_bounds(out: &mut String, counts: RefusedCounts) -> Result<(), AllocError>
    ensures { OnOk result (string_bytes out.new ≡ string_bytes out.old ++ by_bounds counts) }
{
    add_sample(out, "UserConnections", counts.user_connections)?;
    add_sample(out, "Connections", counts.connections)?;
    add_sample(out, "Full", counts.full)?;
    add_sample(out, "JournalFull", counts.journal_full)
}

/// Adds how many were refused by this name.
fn add_sample(out: &mut String, name: &str, count: u64) -> Result<(), AllocError>
    ensures { OnOk result (string_bytes out.new
        ≡ string_bytes out.old ++ refused_sample name.now count) }
{
    write!(out, "floorhub_refused_total{{name=\"{name}\"}} {count}\n")
}
