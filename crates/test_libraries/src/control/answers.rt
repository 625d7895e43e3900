//! Each answer once.

use crate::cases::assert_told;
use floor_control::{
    ConfigFault, ControlRefusal, Done, EventTimes, LineFault, MemberLine, Metrics, Notice, Phase,
    RefusedCounts, Standing, Status, Stopped, Tag, Text, User, add_done, add_draining, add_end,
    add_end_at, add_faulty_at, add_forgotten, add_member, add_metrics, add_notice, add_opened,
    add_refused, add_standing, add_stopped, add_tagged, add_unread, add_unwatched, add_user,
    add_watching, add_word, add_word_kept,
};
use std::alloc::{AllocError, Global};

#[test]
fn each_answer_is_told(rt: HostRuntime) {
    let wanted = "error BadNumber
error Running
error DoubleUser line 7
ok opened 2
ok closed 1 at 9
ok revoked 1 4 at 130
ok user 1 12 at 131
ok floor 1 3 at 132
ok chair 1 3 at 133
ok left 1 5 at 134
ok closed 1
conference 1 members 2 ongoing 3 events 4 open unkept
ok stopped seats 3 events 170
ok forgotten 1
ok watching 1 135
ok unwatched 1
ok word 1 title
word title 4869
ok draining
end 3
end 3 136
user 12 proxy port 40012 name c384
user 13
member 4 user 12 behind 7 cut away 3
member 5 user 13 behind 0
~ 1 away 4 user 12
~ 1 back 4 user 12
~ 1 broken
~ 1 unkept
";
    assert_told(&rt, answers(rt.alloc()), wanted);
}

fn answers(alloc: Global) -> Result<String, AllocError> {
    let mut out = String::new(alloc);
    add_unread(&mut out, LineFault::BadNumber)?;
    add_refused(&mut out, ControlRefusal::Running)?;
    add_faulty_at(&mut out, ConfigFault::DoubleUser, 7)?;
    add_opened(&mut out, 2)?;
    add_done(&mut out, 1, Done::Closed, Some(9))?;
    add_done(&mut out, 1, Done::Revoked(4), Some(130))?;
    add_done(&mut out, 1, Done::UserAdded(12), Some(131))?;
    add_done(&mut out, 1, Done::FloorAdded(3), Some(132))?;
    add_done(&mut out, 1, Done::ChairSet(3), Some(133))?;
    add_done(&mut out, 1, Done::Left(5), Some(134))?;
    add_done(&mut out, 1, Done::Closed, None)?;
    add_more(alloc, &mut out)?;
    Ok(out)
}

fn add_more(alloc: Global, out: &mut String) -> Result<(), AllocError> {
    let status = Status {
        members: 2,
        ongoing: 3,
        events: 4,
        phase: Phase::Running,
    };
    let standing = Standing {
        conference: 1,
        status,
        is_unkept: true,
    };
    add_standing(out, standing)?;
    add_stopped(
        out,
        Ok(Stopped {
            seats: 3,
            events: 170,
        }),
    )?;
    add_forgotten(out, 1)?;
    add_watching(out, 1, 135)?;
    add_unwatched(out, 1)?;
    add_word_kept(out, 1, "title")?;
    add_word(out, "title", b"Hi")?;
    add_draining(out)?;
    add_end(out, 3)?;
    add_end_at(out, 3, 136)?;
    add_people(alloc, out)?;
    add_notice(out, 1, Notice::Away { n: 4, user: 12 })?;
    add_notice(out, 1, Notice::Back { n: 4, user: 12 })?;
    add_notice(out, 1, Notice::Broken)?;
    add_notice(out, 1, Notice::Unkept)
}

fn add_people(alloc: Global, out: &mut String) -> Result<(), AllocError> {
    let name = Text::from_string(String::from_str(alloc, "\u{c4}")?);
    add_user(out, &user(12, Some(name), true), Some(40_012))?;
    let empty = Text::from_string(String::new(alloc));
    add_user(out, &user(13, Some(empty), false), None)?;
    let member = MemberLine {
        n: 4,
        user: 12,
        behind: 7,
        is_cut: true,
        away: Some(3),
    };
    add_member(out, member)?;
    let member = MemberLine {
        n: 5,
        user: 13,
        behind: 0,
        is_cut: false,
        away: None,
    };
    add_member(out, member)
}

fn user(id: u16, name: Option<Text>, proxy: bool) -> User {
    User {
        id,
        name,
        uri: None,
        proxy,
        port: None,
    }
}

#[test]
fn a_tag_stands_before_each_line(rt: HostRuntime) {
    assert_told(
        &rt,
        tagged(rt.alloc(), "a\n\nb\n"),
        "@t.1 a\n@t.1 \n@t.1 b\n",
    );
    assert_told(&rt, tagged(rt.alloc(), "a\nb"), "@t.1 a\n@t.1 b");
    assert_told(&rt, tagged(rt.alloc(), ""), "");
}

fn tagged(alloc: Global, text: &str) -> Result<String, AllocError> {
    let tag = Tag::of_word(alloc, "t.1")?;
    let mut out = String::new(alloc);
    add_tagged(&mut out, &tag, text)?;
    Ok(out)
}

#[test]
fn counts_are_told_as_prometheus_reads_them(rt: HostRuntime) {
    let wanted = "# HELP floorhub_conferences Conferences that are open.
# TYPE floorhub_conferences gauge
floorhub_conferences 1
# HELP floorhub_members Members that are live.
# TYPE floorhub_members gauge
floorhub_members 2
# HELP floorhub_connections Connections that are served.
# TYPE floorhub_connections gauge
floorhub_connections 3
# HELP floorhub_events_total Events of all conferences.
# TYPE floorhub_events_total counter
floorhub_events_total 4
# HELP floorhub_messages_total Messages of members.
# TYPE floorhub_messages_total counter
floorhub_messages_total 5
# HELP floorhub_told_total Messages told to members.
# TYPE floorhub_told_total counter
floorhub_told_total 6
# HELP floorhub_cut_total Members that were cut.
# TYPE floorhub_cut_total counter
floorhub_cut_total 7
# HELP floorhub_refused_total Connections that were refused.
# TYPE floorhub_refused_total counter
floorhub_refused_total{name=\"NoHeader\"} 20
floorhub_refused_total{name=\"BadHeader\"} 0
floorhub_refused_total{name=\"NoName\"} 0
floorhub_refused_total{name=\"BadName\"} 0
floorhub_refused_total{name=\"NoCertificate\"} 0
floorhub_refused_total{name=\"NotVerified\"} 0
floorhub_refused_total{name=\"NoConference\"} 0
floorhub_refused_total{name=\"NoUser\"} 0
floorhub_refused_total{name=\"Ended\"} 0
floorhub_refused_total{name=\"Broken\"} 0
floorhub_refused_total{name=\"UserConnections\"} 0
floorhub_refused_total{name=\"Connections\"} 0
floorhub_refused_total{name=\"Full\"} 8
floorhub_refused_total{name=\"JournalFull\"} 0
floorhub_refused_total{name=\"Memory\"} 34
# HELP floorhub_accept_failures_total Connections that could not be accepted.
# TYPE floorhub_accept_failures_total counter
floorhub_accept_failures_total 9
# HELP floorhub_event_seconds How long an event held its loop.
# TYPE floorhub_event_seconds histogram
floorhub_event_seconds_bucket{le=\"0.00001\"} 1
floorhub_event_seconds_bucket{le=\"0.0001\"} 2
floorhub_event_seconds_bucket{le=\"0.001\"} 2
floorhub_event_seconds_bucket{le=\"0.01\"} 2
floorhub_event_seconds_bucket{le=\"0.1\"} 2
floorhub_event_seconds_bucket{le=\"1\"} 2
floorhub_event_seconds_bucket{le=\"+Inf\"} 3
floorhub_event_seconds_sum 2000020001e-9
floorhub_event_seconds_count 3
end 52
";
    assert_told(&rt, counts(rt.alloc()), wanted);
}

fn counts(alloc: Global) -> Result<String, AllocError> {
    let mut event_times = EventTimes::new();
    event_times.note(10_000);
    event_times.note(10_001);
    let mut more = EventTimes::new();
    more.note(2_000_000_000);
    let counts = Metrics {
        conferences: 1,
        members: 2,
        connections: 3,
        events: 4,
        messages: 5,
        told: 6,
        cut: 7,
        refused: RefusedCounts {
            full: 8,
            no_header: 20,
            memory: 34,
            ..RefusedCounts::new()
        },
        accept_failures: 9,
        event_times: event_times.with(more),
    };
    let mut out = String::new(alloc);
    add_metrics(&mut out, counts)?;
    Ok(out)
}
