// A folder is opened and served.
ghost use Rattle.std.specs.Prelude.{◌≡◌, length};
ghost use Rattle.topic_lock.specs.Ledgers.{IsOf};

use crate::advertised::tell_flaw;
use crate::fault::ServeFault;
use crate::parts::devices;
use crate::pool::Pool;
use crate::settings::{Offer, Settings};
use crate::threads::{Hall, serve_connections};
use disk::Shelf;
use disk_fs::FsShelf;
use folder::Folder;
use log::{Log, error, info};
use std::alloc::{AllocError, Global};
use std::fs::File;
use std::marker::Brand;
use std::net::{Net, TcpListener, TcpStream};
use std::rt::{Clock, Files};
use std::sync::atomic::AtomicBool;
use std::sync::{Mutex, Wait};
use std::thread::Threads;
use std::time::Duration;
use topic_core::FileStores;
use topic_lock::{
    Blanks, Devices, Flusher, Ledgers, PortShares, SharedBroker, Tallies, TopicParts, Totals,
    empty_places,
};

/// The ports of 256 connections, two for each.
const PORTS: u32 = 512;

/// Where the devices of a broker come from, its catalog's and one for each topic: all are over the same files.
pub trait Shelves {
    type Device: Shelf + Drop + Send;

    /// A device that never failed.
    fn shelf(&self) -> Result<Self::Device, AllocError>;
}

/// A folder's devices.
#[derive(Drop)]
struct FolderShelves<'r, R> {
    rt: &'r R,
    folder: &'r Folder,
}

impl<'r, R: AllocGlobal + Log + Files<File = File> + Sync> Shelves for FolderShelves<'r, R> {
    type Device = FsShelf<&'r R>;

    fn shelf(&self) -> Result<FsShelf<&'r R>, AllocError> {
        self.folder.shelf(self.rt)
    }
}

/// Takes a folder for itself, opens the node that is in it, says where it listens, and serves whatever connects until the program is
/// killed. All that was told to clients is then in the folder's files. A connection is ended whose client says nothing for as long as
/// the settings let it, or takes nothing of what is written to it for a minute.
pub fn serve<R>(
    rt: &R,
    listener: &TcpListener,
    folder: &str,
    settings: &Settings<'_>,
) -> Result<(), ServeFault>
where
    R: AllocGlobal + Print + Log + Clock + Files<File = File> + Threads + Wait + Sync,
    R: Net<Stream = TcpStream, Listener = TcpListener>,
    R::Dir: Send + Sync,
{
    let folder = Folder::open(rt, folder)?;
    let shelves = FolderShelves {
        rt,
        folder: &folder,
    };
    serve_shelves(rt, listener, &shelves, settings)
}

/// The same over the devices of a folder that whoever calls has taken for himself.
pub fn serve_shelves<F, R>(
    rt: &R,
    listener: &TcpListener,
    shelves: &F,
    settings: &Settings<'_>,
) -> Result<(), ServeFault>
where
    F: Shelves,
    R: AllocGlobal + Print + Log + Clock + Threads + Wait + Sync,
    R: Net<Stream = TcpStream, Listener = TcpListener>,
{
    tell_flaw(rt, settings.advertised);
    let offer = Offer::new(rt.alloc(), settings)?;
    serve_counted::<Brand, F, R>(rt, listener, offer, shelves, Blanks::new(PORTS))
}

// The same, once a type stands for the ledgers.
fn serve_counted<K, F, R>(
    rt: &R,
    listener: &TcpListener,
    offer: Offer<'_>,
    shelves: &F,
    blanks: Blanks,
) -> Result<(), ServeFault>
where
    K: Tallies + Send + Sync,
    F: Shelves,
    R: AllocGlobal + Print + Log + Clock + Threads + Wait + Sync,
    R: Net<Stream = TcpStream, Listener = TcpListener>,
    requires accepted { IsOf blanks.accepted_topics K.accepted.one 64 × IsOf blanks.accepted_ports K.accepted.other 512 }
    requires handed { IsOf blanks.handed_topics K.handed.one 64 × IsOf blanks.handed_ports K.handed.other 512 }
    requires durable { IsOf blanks.durable_stores K.durable.one 64 × IsOf blanks.durable_topics K.durable.other 192 }
{
    let alloc = rt.alloc();
    let Ledgers {
        totals,
        topics,
        flushers,
        ports,
    } = Ledgers::<K>::open(alloc, blanks, PORTS)?;
    let devices = devices(alloc, shelves, topics.len())?;
    serve_devices(
        rt, alloc, listener, offer, devices, topics, totals, flushers, ports,
    )
}

// The same over devices: the catalog's, and one for each topic.
fn serve_devices<S, K, R>(
    rt: &R,
    alloc: Global,
    listener: &TcpListener,
    offer: Offer<'_>,
    devices: Devices<S>,
    topics: Vec<TopicParts<K>>,
    totals: Totals<K>,
    flushers: Vec<Flusher<K>>,
    ports: Vec<PortShares<K>>,
) -> Result<(), ServeFault>
where
    S: Shelf + Drop + Send,
    K: Tallies + Send + Sync,
    R: Print + Log + Clock + Threads + Wait + Sync,
    R: Net<Stream = TcpStream, Listener = TcpListener>,
    requires { (length devices.topics.items ≡ 64) × (length topics.items ≡ 64) }
{
    let Offer {
        address,
        url,
        idle,
        status,
    } = offer;
    let pool = Mutex::new(Pool::new(alloc, ports)?);
    let places = empty_places::<FileStores, S, K>(alloc)?;
    let places = places.as_slice();
    let broker = match SharedBroker::open(rt, alloc, url, devices, topics, places, totals) {
        Ok(broker) => broker,
        Err((why, _devices)) => return Err(why.into()),
    };
    let hall = Hall {
        broker,
        pool,
        flushers: Mutex::new(flushers),
        stop: AtomicBool::new(false),
        idle,
        status,
        is_told: AtomicBool::new(false),
    };
    serve_hall(rt, alloc, listener, address.as_str(), &hall)
}

// Says where it listens, and serves whatever connects.
fn serve_hall<'a, S, K, R>(
    rt: &R,
    alloc: Global,
    listener: &TcpListener,
    address: &str,
    hall: &Hall<'a, FileStores, S, K>,
) -> Result<(), ServeFault>
where
    S: Shelf + Drop + Send,
    K: Tallies + Send + Sync,
    R: Print + Log + Clock + Threads + Wait + Sync,
    R: Net<Stream = TcpStream, Listener = TcpListener>,
{
    let topics = hall.broker.catalog.lock(rt).topics();
    match listener.local_addr() {
        Ok(bound) => info!(rt; "serving {topics} topics at {bound}"),
        Err(_) => info!(rt; "serving {topics} topics"),
    }
    if let Some(status) = hall.status {
        tell_status(rt, status);
    }
    if let Err(why) = println!(rt; "listening on {address}") {
        error!(rt; "standard output: {why}");
        return Err(ServeFault::Device);
    }
    serve_connections(rt, alloc, listener, hall, u64::MAX)
}

// Says where status pages are shown.
fn tell_status<R: Log>(rt: &R, listener: &TcpListener) {
    match listener.local_addr() {
        Ok(bound) => info!(rt; "status at http://{bound}/"),
        Err(why) => info!(rt; "status at an address that isn't told: {why}"),
    }
}
