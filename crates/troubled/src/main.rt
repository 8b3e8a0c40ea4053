//! A broker for tests, over a folder whose files are slow, or fail, as standard input orders: `troubled ADDRESS FOLDER [STATUS]` serves as
//! the broker's program does, with status pages where an address for them is given, and takes a line at a time, `delay read|write|sync MILLISECONDS` or `fail read|write|sync COUNT BEHIND`,
//! which it answers with `obeyed`. Nothing is promised here.
#![tactic(auto)]

mod orders;

use crate::orders::Orders;
use anyhow::{Error, bail};
use disk_fs::FsShelf;
use folder::Folder;
use log::Log;
use server::{ServeFault, Settings, Shelves, bind, bind_status, serve_shelves};
use std::alloc::AllocError;
use std::fs::File;
use std::net::{Net, TcpListener, TcpStream};
use std::rt::{Clock, Files};
use std::sync::Wait;
use std::thread::Threads;
use std::{env, thread};
use watched_files::Watched;

/// The devices of a folder whose files are told what to do.
#[derive(Drop)]
struct TroubledShelves<'a, R> {
    rt: &'a R,
    path: &'a str,
    orders: &'a Orders<'a, R>,
}

impl<'a, R: AllocGlobal + Log + Files<File = File> + Wait + Sync> Shelves
    for TroubledShelves<'a, R> {
    type Device = FsShelf<Watched<'a, R, Orders<'a, R>>>;

    fn shelf(&self) -> Result<FsShelf<Watched<'a, R, Orders<'a, R>>>, AllocError> {
        let alloc = self.rt.alloc();
        let path = String::from_str(alloc, self.path)?;
        let watched = Watched {
            rt: self.rt,
            watch: self.orders,
        };
        Ok(FsShelf::new(watched, alloc, path))
    }
}

fn main(rt: HostRuntime) -> Result<(), Error> {
    let words: Vec<String> = env::args(&rt)?.skip(1).collect(rt.alloc())?;
    match words.as_slice() {
        [] => {
            println!(rt; "troubled ADDRESS FOLDER [STATUS]")?;
            Ok(())
        }
        [address, folder] => run(&rt, address.as_str(), folder.as_str(), None),
        [address, folder, status] => run(
            &rt,
            address.as_str(),
            folder.as_str(),
            Some(status.as_str()),
        ),
        _ => bail!("give an address, a folder, and perhaps an address for status pages"),
    }
}

fn run<R>(rt: &R, address: &str, path: &str, status: Option<&str>) -> Result<(), Error>
where
    R: AllocGlobal + Print + Input + Log + Clock + Files<File = File> + Threads + Wait + Sync,
    R: Net<Stream = TcpStream, Listener = TcpListener>,
    R::Dir: Send + Sync,
    R::Reader: Send + Sync,
{
    match serve(rt, address, path, status) {
        Ok(()) => Ok(()),
        Err(why) => bail!("{why}"),
    }
}

// Serves the folder, and takes orders until there are none more.
fn serve<R>(rt: &R, address: &str, path: &str, status: Option<&str>) -> Result<(), ServeFault>
where
    R: AllocGlobal + Print + Input + Log + Clock + Files<File = File> + Threads + Wait + Sync,
    R: Net<Stream = TcpStream, Listener = TcpListener>,
    R::Dir: Send + Sync,
    R::Reader: Send + Sync,
{
    let folder = Folder::open(rt, path)?;
    let orders = Orders::new(rt);
    let shelves = TroubledShelves {
        rt,
        path,
        orders: &orders,
    };
    let served = bind_and_serve(rt, address, status, &shelves);
    drop(folder);
    served
}

// Listens where clients are to be served, and where status pages are to be shown, if they are, and serves there.
fn bind_and_serve<R>(
    rt: &R,
    address: &str,
    status: Option<&str>,
    shelves: &TroubledShelves<'_, R>,
) -> Result<(), ServeFault>
where
    R: AllocGlobal + Print + Input + Log + Clock + Files<File = File> + Threads + Wait + Sync,
    R: Net<Stream = TcpStream, Listener = TcpListener>,
    R::Dir: Send + Sync,
    R::Reader: Send + Sync,
{
    let listener = bind(rt, rt, address)?;
    let shown = bind_status(rt, rt, status)?;
    serve_and_obey(rt, address, &listener, shown.as_ref(), shelves)
}

// The same over the folder's devices.
fn serve_and_obey<'x, R>(
    rt: &'x R,
    address: &'x str,
    listener: &'x TcpListener,
    status: Option<&'x TcpListener>,
    shelves: &'x TroubledShelves<'_, R>,
) -> Result<(), ServeFault>
where
    R: AllocGlobal + Print + Input + Log + Clock + Files<File = File> + Threads + Wait + Sync,
    R: Net<Stream = TcpStream, Listener = TcpListener>,
    R::Dir: Send + Sync,
    R::Reader: Send + Sync,
{
    let settings = Settings {
        address,
        advertised: address,
        idle: None,
        status,
    };
    thread::scope(thread::scope_env(), rt, |scope| {
        if scope
            .spawn(move || take_orders(rt, shelves.orders))
            .is_err()
        {
            return Err(ServeFault::Device);
        }
        serve_shelves(rt, listener, shelves, &settings)
    })
}

// Takes orders until there are none more, and says which it took.
fn take_orders<R: AllocGlobal + Print + Input + Wait>(rt: &R, orders: &Orders<'_, R>) {
    for line in rt.lines(rt.alloc()) {
        let Ok(line) = line else {
            return;
        };
        let said = if orders.take(line.as_str()) {
            "obeyed"
        } else {
            "no order"
        };
        if println!(rt; "{said}").is_err() {
            return;
        }
    }
}
