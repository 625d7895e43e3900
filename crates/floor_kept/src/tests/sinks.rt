//! What a writer writes, and what stands where a sink fails.

use crate::body::read_body;
use crate::entry::Entry;
use crate::writing::{WriteFault, Writer};
use floor_config::{Config, Text};
use floor_machine::Event;
use floor_room::{Act, Effects, Room};
use std::io;
use std::io::{ErrorKind, Write};
use std::process::Abort;
use std::test::Fail;

/// A sink of so many bytes.
#[derive(Drop)]
struct Disk {
    bytes: Vec<u8>,
    room: usize,
}

impl Write for Disk {
    fn write(&mut self, buf: &[u8]) -> io::Result<usize> {
        let count = buf.len().min(self.room.saturating_sub(self.bytes.len()));
        if count == 0 && !buf.is_empty() {
            return Err(io::Error::from(ErrorKind::StorageFull));
        }
        let Some(part) = buf.get(..count) else {
            return Ok(0);
        };
        self.bytes.extend_from_slice(part)?;
        Ok(count)
    }

    fn flush(&mut self) -> io::Result<()> {
        Ok(())
    }
}

/// The lines of two turns, with a word between them and the end behind them.
const LINES: &str = "1 join 10
2 leave 1
# word a 00
3 join 10
4 close
end 4
";

/// Writes these lines to a disk, as far as it takes them.
fn kept<R: Abort + AllocGlobal>(rt: &R, room: usize) -> Result<(Disk, Option<WriteFault>), Fail> {
    let alloc = rt.alloc();
    let mut disk = Disk {
        bytes: Vec::new(alloc),
        room,
    };
    let mut effects = Effects::new(alloc);
    let mut conference = Room::new(alloc, Config::demonstration(alloc)?)?;
    let mut writer = Writer::new(0);
    conference.join(10, &mut effects)?;
    conference.leave(1, &mut effects)?;
    let first = writer.append(alloc, &mut disk, conference.journal(), &[]);
    let mut octets = Vec::new(alloc);
    octets.push(0u8)?;
    let word = Entry::Word {
        key: Text::from_string(String::from_str(alloc, "a")?),
        value: Some(crate::Octets::from_vec(octets)),
    };
    let second = writer.note(alloc, &mut disk, &word);
    conference.join(10, &mut effects)?;
    conference.admin(Act::Close, &mut effects)?;
    let third = if writer.done() <= conference.journal().len() {
        writer.append(alloc, &mut disk, conference.journal(), &[])
    } else {
        Err(WriteFault::Broken)
    };
    let fourth = writer.note(alloc, &mut disk, &Entry::End);
    let mut fault = None;
    for outcome in [first, second, third, fourth] {
        if let Err(why) = outcome {
            if fault.is_none() {
                fault = Some(why);
            } else {
                assert_eq!(rt; why, WriteFault::Broken);
            }
        }
    }
    assert_eq!(rt; writer.is_broken(), fault.is_some());
    Ok((disk, fault))
}

#[test]
fn a_full_disk_has_a_beginning_of_the_lines(rt: HostRuntime) -> Result<(), Fail> {
    let alloc = rt.alloc();
    for room in 0..=LINES.len() {
        let (disk, fault) = kept(&rt, room)?;
        let wanted = LINES.as_bytes().get(..room).unwrap_or(b"");
        assert_eq!(rt; disk.bytes.as_slice(), wanted, "{room} bytes");
        assert_eq!(rt; fault.is_none(), room == LINES.len(), "{room} bytes");
        let Ok(text) = std::str::from_utf8(disk.bytes.as_slice()) else {
            continue;
        };
        let body = read_body(alloc, text)?;
        assert!(rt; body.stands <= room, "{room} bytes");
    }
    Ok(())
}
