//! Answers, written as JSON.

ghost use Rattle.std.specs.Prelude.{◌≡◌};
ghost use Rattle.json.specs.Tree.{json_tokens};
ghost use Rattle.floor_rpc.specs.Answers.{answer_json, conference_standing_json, created_json, help_json, journal_entry_json, next_place_json, opened_json, server_standing_json, words_told_json};
ghost use Rattle.floor_rpc.specs.Json.{Adds};

use crate::answer::{
    Answer, ConferenceStanding, Created, JournalEntry, NextPlace, Opened, ServerStanding, WordsTold,
};
use crate::method::METHODS;
use crate::value::{ToJson, member, text_member, write_items, write_nothing, write_one, write_two};
use crate::words::words_member;
use json::Writer;
use std::alloc::AllocError;

impl ToJson for Opened {
    ghost json = { opened_json };

    fn write(&self, writer: &mut Writer) -> Result<(), AllocError> {
        writer.begin_object()?;
        member(writer, "conference", &self.conference)?;
        member(writer, "users", &self.users)?;
        member(writer, "floors", &self.floors)?;
        writer.end_object()
    }
}

impl ToJson for ConferenceStanding {
    ghost json = { conference_standing_json };

    fn write(&self, writer: &mut Writer) -> Result<(), AllocError> {
        writer.begin_object()?;
        member(writer, "conference", &self.conference)?;
        member(writer, "title", &self.title)?;
        text_member(writer, "phase", self.phase.name())?;
        member(writer, "members", &self.members)?;
        member(writer, "ongoing", &self.ongoing)?;
        member(writer, "events", &self.events)?;
        member(writer, "kept", &self.kept)?;
        writer.end_object()
    }
}

impl ToJson for Created {
    ghost json = { created_json };

    fn write(&self, writer: &mut Writer) -> Result<(), AllocError> {
        writer.begin_object()?;
        member(writer, "request", &self.request)?;
        member(writer, "status", &self.status)?;
        member(writer, "position", &self.position)?;
        member(writer, "place", &self.place)?;
        writer.end_object()
    }
}

impl ToJson for WordsTold {
    ghost json = { words_told_json };

    fn write(&self, writer: &mut Writer) -> Result<(), AllocError> {
        writer.begin_object()?;
        words_member(writer, "words", &self.words)?;
        writer.end_object()
    }
}

impl ToJson for NextPlace {
    ghost json = { next_place_json };

    fn write(&self, writer: &mut Writer) -> Result<(), AllocError> {
        write_two(writer, "conference", &self.conference, "next", &self.next)
    }
}

impl ToJson for JournalEntry {
    ghost json = { journal_entry_json };

    fn write(&self, writer: &mut Writer) -> Result<(), AllocError> {
        writer.begin_object()?;
        member(writer, "place", &self.place)?;
        member(writer, "time", &self.time)?;
        member(writer, "line", &self.line)?;
        writer.end_object()
    }
}

impl ToJson for ServerStanding {
    ghost json = { server_standing_json };

    fn write(&self, writer: &mut Writer) -> Result<(), AllocError> {
        writer.begin_object()?;
        member(writer, "version", &self.version)?;
        member(writer, "since", &self.since)?;
        member(writer, "conferences", &self.conferences)?;
        member(writer, "connections", &self.connections)?;
        member(writer, "memory", &self.memory)?;
        member(writer, "draining", &self.draining)?;
        writer.end_object()
    }
}

/// Writes the methods.
fn write_help(writer: &mut Writer) -> Result<(), AllocError>
    ensures { Adds result writer.old writer.new (json_tokens help_json) }
{
    writer.begin_object()?;
    writer.key("methods")?;
    write_items(writer, &METHODS)?;
    writer.end_object()
}

impl ToJson for Answer {
    ghost json = { answer_json };

    fn write(&self, writer: &mut Writer) -> Result<(), AllocError> {
        match self {
            Answer::Done => write_nothing(writer),
            Answer::Placed(placed) => write_one(writer, "place", &placed.place),
            Answer::Opened(opened) => opened.write(writer),
            Answer::Conferences(told) => {
                write_two(writer, "conferences", &told.conferences, "more", &told.more)
            }
            Answer::Picture(picture) => picture.write(writer),
            Answer::UserAdded(added) => {
                write_two(writer, "user", &added.user, "place", &added.place)
            }
            Answer::FloorChanged(changed) => {
                write_two(writer, "floor", &changed.floor, "place", &changed.place)
            }
            Answer::Created(created) => created.write(writer),
            Answer::Words(told) => told.write(writer),
            Answer::Watched(watched) => write_one(writer, "next", &watched.next),
            Answer::Journal(part) => {
                write_two(writer, "entries", &part.entries, "next", &part.next)
            }
            Answer::Server(server) => server.write(writer),
            Answer::Stopped(stopped) => {
                write_two(writer, "seats", &stopped.seats, "events", &stopped.events)
            }
            Answer::Help => write_help(writer),
        }
    }
}
