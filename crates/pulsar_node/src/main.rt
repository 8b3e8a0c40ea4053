//! The broker as a program: it makes, serves and inspects a node's folder, and replays scripts over a device in memory. What holds of
//! these say `folder`, `server` and `replay`. Whatever standard descriptors it is begun without, it puts something there before it
//! opens anything else.
#![tactic(auto)]

ghost use Rattle.std.specs.Prelude.{◌≡◌, OnOk, OnErr};

mod arguments;
mod descriptors;
mod stamped;

use crate::arguments::{
    address_of, advertised_of, command, entries_per_ledger, folder_of, level_of, longest_silence,
    script_file, status_address_of,
};
use crate::descriptors::{NULL, StandIns};
use crate::stamped::Stamped;
use clap::ArgMatches;
use clap::error::ErrorKind;
use folder::FolderFault;
use log::{Log, Logged, error};
use node::Refusal;
use replay::{FromReader, ProgramFault, ToWriter, exit_status, replay, write_fault};
use server::{ServeFault, Settings};
use std::fs::File;
use std::net::{Net, TcpListener, TcpStream};
use std::process::ExitCode;
use std::rt::{Clock, Env, Files};
use std::sync::Wait;
use std::thread::Threads;
use std::{env, io};

const REFUSED: u8 = 2;

fn main(rt: HostRuntime) -> ExitCode {
    match hold_and_run(&rt) {
        Ok(status) => ExitCode::from(status),
        Err(fault) => {
            // Where standard error fails too, the status alone tells.
            let _ = write_fault(&fault, &mut rt.stderr());
            ExitCode::from(exit_status(&fault))
        }
    }
}

// Does what the command line says, with something at each standard descriptor.
fn hold_and_run<R>(rt: &R) -> Result<u8, ProgramFault>
where
    R: AllocGlobal
        + Print
        + Eprint
        + Input
        + Env
        + Clock
        + Log
        + Files<File = File>
        + Threads
        + Wait
        + Sync,
    R: Net<Stream = TcpStream, Listener = TcpListener>,
    R::Dir: Send + Sync,
{
    let stand_ins = match StandIns::open(rt) {
        Ok(stand_ins) => stand_ins,
        Err(why) => {
            error!(rt; "{NULL}: {why}");
            return Err(ProgramFault::Device);
        }
    };
    let done = run(rt);
    drop(stand_ins);
    done
}

// Reads the command line and does what it says. The status is 0, or 2 for a command line that is refused.
fn run<R>(rt: &R) -> Result<u8, ProgramFault>
where
    R: AllocGlobal
        + Print
        + Eprint
        + Input
        + Env
        + Clock
        + Log
        + Files<File = File>
        + Threads
        + Wait
        + Sync,
    R: Net<Stream = TcpStream, Listener = TcpListener>,
    R::Dir: Send + Sync,
{
    let mut command = command(rt.alloc())?;
    let words = match env::args(rt) {
        Ok(words) => words.collect::<Vec<String>>(rt.alloc())?,
        Err(error) if error.kind() == io::ErrorKind::InvalidData => {
            let message = "invalid UTF-8 was detected in one or more arguments";
            return show(rt, &command.error(ErrorKind::InvalidValue, message)?);
        }
        Err(_) => return Err(ProgramFault::NoMemory),
    };
    match command.try_get_matches_from(words.as_slice()) {
        Ok(matches) => work(rt, &matches),
        Err(error) if error.kind() == ErrorKind::OutOfMemory => Err(ProgramFault::NoMemory),
        Err(error) => show(rt, &error),
    }
}

// Does what the command line says, and answers the status.
fn work<R>(rt: &R, matches: &ArgMatches<'_>) -> Result<u8, ProgramFault>
where
    R: AllocGlobal + Print + Eprint + Input + Clock + Log,
    R: Files<File = File> + Threads + Wait + Sync,
    R: Net<Stream = TcpStream, Listener = TcpListener>,
    R::Dir: Send + Sync,
{
    match matches.subcommand() {
        Some(("init", words)) => Ok(init(rt, words)),
        Some(("serve", words)) => Ok(serve(rt, words)),
        Some(("inspect", words)) => Ok(inspect(rt, words)),
        Some(("upgrade", words)) => Ok(upgrade(rt, words)),
        Some(_) | None => {
            replay_input(rt, matches)?;
            Ok(0)
        }
    }
}

fn init<R: AllocGlobal + Print + Eprint + Log + Files<File = File>>(
    rt: &R,
    words: &ArgMatches<'_>,
) -> u8 {
    let Some(per_ledger) = entries_per_ledger(words) else {
        return REFUSED;
    };
    let done = folder::init(rt, folder_of(words), per_ledger, &mut io::writer(rt));
    status_of(rt, done)
}

// Serves a folder. It comes back only where that can't be done.
fn serve<R>(rt: &R, words: &ArgMatches<'_>) -> u8
where
    R: AllocGlobal + Print + Eprint + Clock + Files<File = File> + Threads + Wait + Sync,
    R: Net<Stream = TcpStream, Listener = TcpListener>,
    R::Dir: Send + Sync,
{
    let logged = Logged::new(rt, level_of(words), Stamped(rt));
    let served = match bind(rt, &logged, words) {
        Ok((listener, status)) => serve_at(&logged, words, &listener, status.as_ref()),
        Err(fault) => Err(fault),
    };
    match served {
        Ok(()) => 0,
        Err(ServeFault::Folder(fault)) => status_of(&logged, Err(fault)),
        Err(fault) => {
            // Where standard error fails too, the status alone tells.
            let _ = eprintln!(rt; "error: {fault}");
            server::exit_status(&fault)
        }
    }
}

// Listens where clients are to be served, and where status pages are to be shown, if they are.
fn bind<N: Net<Stream = TcpStream, Listener = TcpListener>, R: Log>(
    net: &N,
    rt: &R,
    words: &ArgMatches<'_>,
) -> Result<(TcpListener, Option<TcpListener>), ServeFault> {
    let listener = server::bind(rt, net, address_of(words))?;
    let status = server::bind_status(rt, net, status_address_of(words))?;
    Ok((listener, status))
}

// Serves a folder as the command line says, where the addresses are listened at.
fn serve_at<R>(
    rt: &R,
    words: &ArgMatches<'_>,
    listener: &TcpListener,
    status: Option<&TcpListener>,
) -> Result<(), ServeFault>
where
    R: AllocGlobal + Print + Clock + Log + Files<File = File> + Threads + Wait + Sync,
    R: Net<Stream = TcpStream, Listener = TcpListener>,
    R::Dir: Send + Sync,
{
    let settings = Settings {
        address: address_of(words),
        advertised: advertised_of(words),
        idle: longest_silence(words),
        status,
    };
    server::serve(rt, listener, folder_of(words), &settings)
}

fn inspect<R: AllocGlobal + Print + Eprint + Log + Files<File = File>>(
    rt: &R,
    words: &ArgMatches<'_>,
) -> u8 {
    let done = folder::inspect(rt, folder_of(words), &mut io::writer(rt));
    status_of(rt, done)
}

fn upgrade<R: AllocGlobal + Print + Eprint + Log + Files<File = File>>(
    rt: &R,
    words: &ArgMatches<'_>,
) -> u8 {
    let done = folder::upgrade(rt, folder_of(words), &mut io::writer(rt));
    status_of(rt, done)
}

// The status of a command on a folder, which says on standard error why it ended early.
fn status_of<R: Eprint + Log>(rt: &R, done: Result<(), FolderFault>) -> u8
    ensures done { OnOk done (result ≡ 0) }
    ensures failed { OnErr done (result ≡ 1) }
{
    let Err(fault) = done else {
        return 0;
    };
    match fault {
        FolderFault::HoldsTopics => {
            error!(rt; "the folder holds files of topics, but its list of topics isn't open; nothing was made")
        }
        FolderFault::Refused(Refusal::Version) => {
            error!(rt; "the folder, or a file in it, is of another version; `pulsar_node upgrade DIR` makes version 2 of a folder of version 1")
        }
        FolderFault::Refused(_) | FolderFault::AlreadyInitialised | FolderFault::InUse => {}
    }
    // Where standard error fails too, the status alone tells.
    let _ = eprintln!(rt; "error: {fault}");
    folder::exit_status(&fault)
}

// Prints help, the version, or why the command line is refused.
fn show<R: Print + Eprint>(rt: &R, error: &clap::Error) -> Result<u8, ProgramFault> {
    error.print(rt).map_err(|_| ProgramFault::Device)?;
    Ok(if error.use_stderr() { REFUSED } else { 0 })
}

fn replay_input<R: AllocGlobal + Print + Input + Files>(
    rt: &R,
    matches: &ArgMatches<'_>,
) -> Result<(), ProgramFault> {
    let mut lines = ToWriter(io::writer(rt));
    match script_file(matches) {
        Some(path) => {
            let file = File::open(rt, path).map_err(|_| ProgramFault::Device)?;
            replay(rt.alloc(), &mut FromReader(file), &mut lines)
        }
        None => replay(rt.alloc(), &mut FromReader(rt.reader()), &mut lines),
    }
}
