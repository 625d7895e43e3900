//! A configuration that is checked and not served.

ghost use Rattle.std.specs.Prelude.{◌≡◌, ◌≢◌, IfOk, Some};
ghost use Rattle.floor_listen.specs.declared.ending.Ending.TheVariants.{InOrder};
ghost use Rattle.floor_server.specs.Faults.{fault_of_keeping, fault_of_opening};

use crate::entry::Door;
use crate::fault::{fault_of_keeping, fault_of_opening};
use crate::lines::print;
use crate::reason::{PortFault, Reason, configurations, read_text};
use crate::words::Program;
use floor_config::{Config, User};
use floor_diagnosis::unknown_keys;
use floor_keep::{
    CheckFault, Folder, KeepReason, Keeping, KeptPort, NotAJournal, check_kept, list_folder,
    lock_folder, name_folder,
};
use floor_listen::{Ending, ServerFault, listening_address};
use std::alloc::{AllocError, Global};
use std::fs::File;
use std::io::Write;
use std::net::{Net, TcpListener, TcpStream};
use std::rt::Files;

/// How many live members a conference has at most, all of whom one user may be.
const ALL_MEMBERS: u16 = 64;

/// Reads and checks a file as a start of the program does, tries each port and each door, and prints each
/// fault with its name, and as a warning each key that says nothing, and once `conference.connections` where
/// the program doesn't go by it. It ends by the first fault, if there is one.
pub fn check_configuration<
    R: Net<Listener = TcpListener, Stream = TcpStream> + Files + AllocGlobal,
    O: Write,
>(rt: &R, alloc: Global, program: &Program, path: &str, doors: &[Door], output: &mut O) -> Ending {
    match check_file(rt, alloc, program, path, doors, output) {
        Ok(None) => Ending::InOrder,
        Ok(Some(fault)) | Err(fault) => Ending::Fault(fault),
    }
}

/// Tries a folder of kept conferences as a start of the program does: its lock, whether it can be written, its epoch,
/// each file, whose events are run, and the ports of its users; and prints each fault with its name. The folder and its
/// files stay as they are. Beside a server that has the folder its lock is a fault, and the rest is tried. Gives the
/// ending of a check that has come to one already, or else that of the first fault.
pub fn check_keeping<
    R: Net<Listener = TcpListener, Stream = TcpStream> + Files<File = File>,
    O: Write,
>(rt: &R, alloc: Global, keeping: &Keeping, so_far: Ending, output: &mut O) -> Ending
    ensures { so_far ≢ InOrder → result ≡ so_far }
{
    let found = match check_folder(rt, alloc, keeping, output) {
        Ok(None) => Ending::InOrder,
        Ok(Some(fault)) | Err(fault) => Ending::Fault(fault),
    };
    match so_far {
        Ending::InOrder => found,
        before => before,
    }
}

/// The first fault of a folder and its files, all of which are printed; an `Err` where they can't be.
fn check_folder<R: Net<Listener = TcpListener, Stream = TcpStream> + Files<File = File>, O: Write>(
    rt: &R,
    alloc: Global,
    keeping: &Keeping,
    output: &mut O,
) -> Result<Option<ServerFault>, ServerFault> {
    let held = match lock_folder(rt, alloc, keeping) {
        Ok(_held) => None,
        Err(reason) => tell_reason(alloc, output, &reason)?,
    };
    let folder = name_folder(alloc, keeping)?;
    match list_folder(rt, alloc, &folder) {
        Ok(listing) => {
            let found = check_files(rt, alloc, &folder, listing.journals(), output)?;
            Ok(held.or(found))
        }
        Err(_) if held.is_some() => Ok(held),
        Err(reason) => tell_reason(alloc, output, &reason),
    }
}

/// The first fault of the files of these conferences, all of which are printed. Each port is held until all were tried,
/// since two files may have the same.
fn check_files<R: Net<Listener = TcpListener, Stream = TcpStream> + Files<File = File>, O: Write>(
    rt: &R,
    alloc: Global,
    folder: &Folder,
    conferences: &[u32],
    output: &mut O,
) -> Result<Option<ServerFault>, ServerFault> {
    let mut listeners = Vec::new(alloc);
    let mut first = None;
    for conference in conferences {
        let found = match check_kept(rt, alloc, folder, *conference) {
            Ok(ports) => listen_all(rt, alloc, *conference, &ports, &mut listeners, output)?,
            Err(CheckFault::Refused(reason)) => tell_reason(alloc, output, &reason)?,
            Err(CheckFault::NotAJournal(at, line)) => {
                let told = not_a_journal(alloc, folder.path(), at, line.as_str())?;
                print(output, told.as_str())?;
                Some(ServerFault::NotAJournal)
            }
        };
        first = first.or(found);
    }
    Ok(first)
}

/// Tries the ports of a kept conference, and holds those that can be had. The first fault is given, each is printed.
fn listen_all<R: Net<Listener = TcpListener, Stream = TcpStream>, O: Write>(
    rt: &R,
    alloc: Global,
    conference: u32,
    ports: &[KeptPort],
    listeners: &mut Vec<TcpListener>,
    output: &mut O,
) -> Result<Option<ServerFault>, ServerFault> {
    let mut first = None;
    for one in ports {
        match TcpListener::bind(rt, listening_address(one.port)) {
            Ok(listener) => listeners.push(listener)?,
            Err(error) => {
                let fault = PortFault::System(error);
                let reason = fault.reason(alloc, conference, one.user, one.port);
                let found = tell(alloc, output, &reason)?;
                first = first.or(found);
            }
        }
    }
    Ok(first)
}

/// Where a file of a folder is none.
fn not_a_journal(
    alloc: Global,
    folder: &str,
    at: NotAJournal,
    line: &str,
) -> Result<String, AllocError> {
    let (conference, place, number) = (at.conference, at.place, at.line);
    if number == 0 {
        return format!(in alloc;
            "NotAJournal 0: {folder}/{conference}.journal: it has no head of this conference\n"
        );
    }
    format!(in alloc; "NotAJournal {place}: {folder}/{conference}.journal: line {number}: {line}\n")
}

/// Prints why a folder or a file of it can't be had, with its name, and gives it.
fn tell_reason<O: Write>(
    alloc: Global,
    output: &mut O,
    reason: &KeepReason,
) -> Result<Option<ServerFault>, ServerFault>
    ensures value { IfOk result (λ found. found ≡ Some (fault_of_keeping reason.now.fault)) }
{
    let fault = fault_of_keeping(reason.fault);
    let line = reason.line.as_ref().map_or("", |line| line.as_str());
    let told = format!(in alloc; "{}: {line}\n", fault.name())?;
    print(output, told.as_str())?;
    Ok(Some(fault))
}

/// The first fault of a file, all of which are printed; an `Err` where they can't be.
fn check_file<R: Net<Listener = TcpListener, Stream = TcpStream> + Files + AllocGlobal, O: Write>(
    rt: &R,
    alloc: Global,
    program: &Program,
    path: &str,
    doors: &[Door],
    output: &mut O,
) -> Result<Option<ServerFault>, ServerFault> {
    let text = match read_text(rt, alloc, path) {
        Ok(text) => text,
        Err(reason) => return tell(alloc, output, &reason),
    };
    warn(alloc, path, text.as_str(), output)?;
    match configurations(alloc, path, text.as_str()) {
        Ok(configs) => {
            if !program.by_loops && configs.iter().any(is_bounded) {
                let line = format!(in alloc; "warning: {path}: connections is ignored\n")?;
                print(output, line.as_str())?;
            }
            let of_users = check_ports(rt, alloc, &configs, output)?;
            let of_doors = check_doors(rt, alloc, doors, output)?;
            Ok(of_users.or(of_doors))
        }
        Err(reason) => tell(alloc, output, &reason),
    }
}

/// Whether a user may have fewer connections than the conference has members: else the key says nothing.
fn is_bounded(config: &Config) -> bool {
    config.connections() < ALL_MEMBERS
}

/// Prints the keys that say nothing.
fn warn<O: Write>(
    alloc: Global,
    path: &str,
    text: &str,
    output: &mut O,
) -> Result<(), ServerFault> {
    for key in unknown_keys(alloc, text)? {
        let place = key.place.as_str();
        let line = match key.line {
            Some(line) => format!(in alloc; "warning: {path}: line {line}: {place} is ignored\n")?,
            None => format!(in alloc; "warning: {path}: {place} is ignored\n")?,
        };
        print(output, line.as_str())?;
    }
    Ok(())
}

/// Tries the port of each user. The first fault is given, each is printed.
fn check_ports<R: Net<Listener = TcpListener, Stream = TcpStream>, O: Write>(
    rt: &R,
    alloc: Global,
    configs: &[Config],
    output: &mut O,
) -> Result<Option<ServerFault>, ServerFault> {
    let mut first = None;
    for config in configs {
        for user in config.users() {
            let found = check_port(rt, alloc, config.conference(), user, output)?;
            first = first.or(found);
        }
    }
    Ok(first)
}

/// Tries the port of a user, where there is one, and gives it back.
fn check_port<R: Net<Listener = TcpListener, Stream = TcpStream>, O: Write>(
    rt: &R,
    alloc: Global,
    conference: u32,
    user: &User,
    output: &mut O,
) -> Result<Option<ServerFault>, ServerFault> {
    let Some(port) = user.port else {
        return Ok(None);
    };
    match TcpListener::bind(rt, listening_address(port)) {
        Ok(_listener) => Ok(None),
        Err(error) => {
            let fault = PortFault::System(error);
            tell(
                alloc,
                output,
                &fault.reason(alloc, conference, user.id, port),
            )
        }
    }
}

/// Tries each door, and gives it back. The first fault is given, each is printed.
fn check_doors<R: Net<Listener = TcpListener, Stream = TcpStream>, O: Write>(
    rt: &R,
    alloc: Global,
    doors: &[Door],
    output: &mut O,
) -> Result<Option<ServerFault>, ServerFault> {
    let mut first = None;
    for door in doors {
        match TcpListener::bind(rt, listening_address(door.port)) {
            Ok(_listener) => {}
            Err(error) => {
                let reason = PortFault::System(error).at_door(alloc, *door);
                let found = tell(alloc, output, &reason)?;
                first = first.or(found);
            }
        }
    }
    Ok(first)
}

/// Prints a fault with its name, and gives it.
fn tell<O: Write>(
    alloc: Global,
    output: &mut O,
    reason: &Reason,
) -> Result<Option<ServerFault>, ServerFault>
    ensures value { IfOk result (λ found. found ≡ Some (fault_of_opening reason.now.refusal)) }
{
    let fault = fault_of_opening(reason.refusal);
    let line = reason.line.as_ref().map_or("", |line| line.as_str());
    let told = format!(in alloc; "{}: {line}\n", fault.name())?;
    print(output, told.as_str())?;
    Ok(Some(fault))
}
