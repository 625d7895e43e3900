//! Runs pages of cases over a gateway for room systems, with peers and a server that the cases play, over
//! sockets.
//!
//! A page's configuration is the gateway's; the script of a case says step by step who does what
//! ([`World::step`]). Its words are files and folders; a folder stands for the files in it, by name. Each file is
//! printed with the number of its cases. Status 1 where a case differs or a file can't be run, which standard error
//! tells.
#![tactic(auto)]

mod gateway;
mod peers;
mod stream;
mod world;

use std::fs;
use std::net::{Net, TcpListener, TcpStream};
use std::process::ExitCode;
use std::rt::Files;
use std::sync::Wait;
use std::thread::Threads;
use std::time::Clock;
use test_cases::{Fault, paths_of, read_cases, tell};
use world::World;

fn main(rt: HostRuntime) -> ExitCode {
    let words: Vec<String> = match std::env::args(&rt) {
        Err(_) => return ExitCode::from(1),
        Ok(words) => match words.skip(1).collect(rt.alloc()) {
            Err(_) => return ExitCode::from(1),
            Ok(words) => words,
        },
    };
    for word in words.iter() {
        let paths = match paths_of(&rt, word.as_str()) {
            Ok(paths) => paths,
            Err(fault) => return end(rt, word.as_str(), &fault),
        };
        for path in paths.iter() {
            match run_file(rt, path.as_str()) {
                Ok(count) => {
                    let _written = rt.println(&count);
                }
                Err(fault) => return end(rt, path.as_str(), &fault),
            }
        }
    }
    ExitCode::SUCCESS
}

fn end(rt: HostRuntime, path: &str, fault: &Fault) -> ExitCode {
    tell(&mut rt.stderr(), path, fault);
    ExitCode::from(1)
}

/// Runs the cases of a file, and gives its line.
fn run_file<R>(rt: R, path: &str) -> Result<String, Fault>
where
    R: Net<Listener = TcpListener, Stream = TcpStream>
        + Files
        + AllocGlobal
        + Clock
        + Threads
        + Wait
        + Copy
        + Drop
        + Send
        + 'static,
{
    let alloc = rt.alloc();
    let text = fs::read_to_string(&rt, path)?;
    let cases = read_cases(alloc, text.as_str())?;
    for named in cases.iter() {
        named.passes(alloc, |script| run_script(rt, script))?;
    }
    Ok(format!(in alloc; "{path} {}", cases.len())?)
}

/// Runs a script, and gives what it prints.
fn run_script<R>(rt: R, script: &str) -> Result<String, Fault>
where
    R: Net<Listener = TcpListener, Stream = TcpStream>
        + Files
        + AllocGlobal
        + Clock
        + Threads
        + Wait
        + Copy
        + Drop
        + Send
        + 'static,
{
    let mut world = World::new(rt)?;
    let (configuration, steps) = script.split_once("\n---\n").unwrap_or(("", script));
    fs::write(&rt, world::CONFIGURATION, configuration)?;
    for step in steps.lines() {
        world.step(step)?;
    }
    let World { printed, .. } = world;
    Ok(printed)
}
