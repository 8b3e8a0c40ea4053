// A client's talk with a server of one place. Memory that is refused to a connection closes it, so allocations aren't refused in turn here.
ghost use Rattle.std.specs.Prelude.{◌≡◌, ◌+◌, IfOk, length};
ghost use Rattle.topic_lock.specs.Ledgers.{IsOf};

use catalog::{Catalog, EntriesPerLedger};
use commands::ReplyText;
use disk_mem::MemShelf;
use gated_log::Refusal;
use log::Log;
use server::{Hall, Pool, serve_connections};
use std::alloc::{AllocError, Global};
use std::io::{Read, Write};
use std::marker::Brand;
use std::net::{Net, SocketAddr, TcpListener, TcpStream};
use std::rt::Clock;
use std::sync::atomic::AtomicBool;
use std::sync::{Mutex, Wait};
use std::test::Fail;
use std::thread::Threads;
use std::{io, thread};
use topic_core::FileStores;
use topic_lock::{
    Blanks, Devices, Ledgers, Place, SharedBroker, Tallies, TopicParts, Totals, empty_places,
};

// So many connections the client makes in all.
const CONNECTIONS: u64 = 100;

const CONNECT: &[u8] = b"\0\0\0\x0d\0\0\0\x09\x08\x02\x12\x05\x0a\x01c\x20\x05";

const CONNECTED: &[u8] =
    b"\0\0\0\x16\0\0\0\x12\x08\x03\x1a\x0e\x0a\x06node-1\x10\x05\x18\x80\x80\x40";

// Of the topic `persistent://a/b/c`, as producer 1.
const PRODUCER: &[u8] =
    b"\0\0\0\x20\0\0\0\x1c\x08\x05\x2a\x18\x0a\x12persistent://a/b/c\x10\x01\x18\x07";

const PRODUCER_SUCCESS: &[u8] = b"\0\0\0\x12\0\0\0\x0e\x08\x11\x8a\x01\x09\x08\x07\x12\x05s0-p1";

// To the subscription "s" of the same topic, from its first entry on, as consumer 2.
const SUBSCRIBE: &[u8] =
    b"\0\0\0\x27\0\0\0\x23\x08\x04\x22\x1f\x0a\x12persistent://a/b/c\x12\x01s\x18\0\x20\x02\x28\x08\x68\x01";

const SUCCESS: &[u8] = b"\0\0\0\x0a\0\0\0\x06\x08\x0d\x6a\x02\x08\x08";

const SEND: &[u8] =
    b"\0\0\0\x1a\0\0\0\x08\x08\x06\x32\x04\x08\x01\x10\0\0\0\0\x0a\x0a\x01p\x10\0\x18\x01\xc0>\x05";

const RECEIPT: &[u8] = b"\0\0\0\x12\0\0\0\x0e\x08\x07\x3a\x0a\x08\x01\x10\0\x1a\x04\x08\0\x10\0";

const FLOW: &[u8] = b"\0\0\0\x0c\0\0\0\x08\x08\x0b\x5a\x04\x08\x02\x10\x01";

const MESSAGE: &[u8] =
    b"\0\0\0\x1e\0\0\0\x0c\x08\x09\x4a\x08\x08\x02\x12\x04\x08\0\x10\0\0\0\0\x0a\x0a\x01p\x10\0\x18\x01\xc0>\x05";

const ACK: &[u8] =
    b"\0\0\0\x14\0\0\0\x10\x08\x0a\x52\x0c\x08\x02\x10\0\x1a\x04\x08\0\x10\0\x40\x09";

const ACK_RESPONSE: &[u8] = b"\0\0\0\x0d\0\0\0\x09\x08\x26\xb2\x02\x04\x08\x02\x30\x09";

// The catalog's device of a new broker.
fn catalog_shelf(alloc: Global) -> Result<MemShelf, Refusal> {
    let Some(entries) = EntriesPerLedger::new(1000) else {
        unreachable!();
    };
    let mut shelf = MemShelf::new(alloc);
    drop(Catalog::create(alloc, &mut shelf, entries)?);
    Ok(shelf)
}

// A device for each of so many topics.
fn shelves(alloc: Global, count: usize) -> Result<Vec<MemShelf>, AllocError>
    ensures { IfOk result (λ shelves. length shelves.items ≡ count) }
{
    let mut shelves = Vec::new(alloc);
    for _ in 0..count {
        shelves.push(MemShelf::new(alloc))?;
    }
    Ok(shelves)
}

// Sends a frame, and tells whether these bytes come next.
fn is_answered(client: &mut TcpStream, frame: &[u8], answer: &[u8]) -> io::Result<bool> {
    let mut came = [0; 64];
    client.write_all(frame)?;
    if answer.len() > 64 {
        return Ok(false);
    }
    let came = &mut came[..answer.len()];
    client.read_exact(came)?;
    Ok(&*came == answer)
}

// A producer and a consumer in one session: each frame has its answer, and the message comes where it is permitted.
fn talks(client: &mut TcpStream) -> io::Result<bool> {
    Ok(
        is_answered(client, CONNECT, CONNECTED)?
            && is_answered(client, PRODUCER, PRODUCER_SUCCESS)?
            && is_answered(client, SUBSCRIBE, SUCCESS)?
            && is_answered(client, SEND, RECEIPT)?
            && is_answered(client, FLOW, MESSAGE)?
            && is_answered(client, ACK, ACK_RESPONSE)?,
    )
}

// What a client saw: that its talk went as it must, that a connection beside it was closed without a byte, and that one behind it
// was served.
#[derive(Clone, Copy, Debug, PartialEq, Eq)]
struct Seen {
    talked: bool,
    refused: bool,
    came_back: bool,
}

// Whether a connection is closed without a byte.
fn is_refused(client: &mut TcpStream) -> bool {
    matches!(client.read(&mut [0; 1]), Ok(0) | Err(_))
}

// Whether a connection is served.
fn is_served<R: Net<Stream = TcpStream>>(net: &R, address: SocketAddr) -> bool {
    let Ok(mut client) = TcpStream::connect(net, address) else {
        return false;
    };
    is_answered(&mut client, CONNECT, CONNECTED).unwrap_or(false)
}

// Talks, tries a connection beside that, and then as many as are left, one after another.
fn visit<R: Net<Stream = TcpStream>>(net: &R, address: SocketAddr) -> io::Result<Seen> {
    let mut client = TcpStream::connect(net, address)?;
    let talked = talks(&mut client).unwrap_or(false);
    let mut late = TcpStream::connect(net, address)?;
    let refused = is_refused(&mut late);
    drop(client);
    drop(late);
    let mut came_back = false;
    for _ in 2..CONNECTIONS {
        came_back = is_served(net, address) || came_back;
    }
    Ok(Seen {
        talked,
        refused,
        came_back,
    })
}

// A new broker without topics.
fn new_broker<'a, K: Tallies, R: Wait>(
    rt: &R,
    alloc: Global,
    places: &'a [Place<FileStores, MemShelf, K>],
    totals: Totals<K>,
    parts: Vec<TopicParts<K>>,
) -> Result<SharedBroker<'a, FileStores, MemShelf, K>, Refusal>
    requires { (length places.now ≡ 64) × (length parts.items ≡ 64) }
{
    let url = ReplyText::new(String::from_str(alloc, "pulsar://test")?);
    let catalog = catalog_shelf(alloc)?;
    let topics = shelves(alloc, parts.len())?;
    let devices = Devices { catalog, topics };
    match SharedBroker::open(rt, alloc, url, devices, parts, places, totals) {
        Ok(broker) => Ok(broker),
        Err((why, _devices)) => Err(why),
    }
}

// A client in another thread than the server, where the system has a socket for it.
fn serve_a_visit<'a, K, R>(
    rt: &R,
    alloc: Global,
    hall: &Hall<'a, FileStores, MemShelf, K>,
) -> Option<Seen>
where
    K: Tallies + Send + Sync,
    R: Threads + Wait + Log + Clock + Sync + Net<Stream = TcpStream, Listener = TcpListener>,
{
    let listener = TcpListener::bind(rt, "127.0.0.1:0").ok()?;
    let address = listener.local_addr().ok()?;
    let listener = &listener;
    let (served, seen) = thread::join(
        rt,
        move || serve_connections(rt, alloc, listener, hall, CONNECTIONS).is_ok(),
        move || visit(rt, address).ok(),
    );
    if served { seen } else { None }
}

// A server of one place, over the places of its topics.
fn run_at<K, R>(
    rt: &R,
    alloc: Global,
    places: &[Place<FileStores, MemShelf, K>],
    ledgers: Ledgers<K>,
) -> Result<Option<Seen>, Refusal>
where
    K: Tallies + Send + Sync,
    R: Threads + Wait + Log + Clock + Sync + Net<Stream = TcpStream, Listener = TcpListener>,
    requires { (length places.now ≡ 64) × (length ledgers.topics.items ≡ 64) }
{
    let Ledgers {
        totals,
        topics,
        flushers,
        ports,
    } = ledgers;
    let pool = match Pool::new(alloc, ports) {
        Ok(pool) => pool,
        Err(_) => {
            drop((totals, topics, flushers));
            return Err(Refusal::NoMemory);
        }
    };
    let broker = match new_broker(rt, alloc, places, totals, topics) {
        Ok(broker) => broker,
        Err(refusal) => {
            drop((pool, flushers));
            return Err(refusal);
        }
    };
    let hall = Hall {
        broker,
        pool: Mutex::new(pool),
        flushers: Mutex::new(flushers),
        stop: AtomicBool::new(false),
        idle: None,
        status: None,
        is_told: AtomicBool::new(false),
    };
    let seen = serve_a_visit(rt, alloc, &hall);
    drop(hall);
    Ok(seen)
}

// A server of one place, and a client of it in another thread.
fn run<K, R>(rt: &R, alloc: Global, blanks: Blanks) -> Result<Option<Seen>, Refusal>
where
    K: Tallies + Send + Sync,
    R: Threads + Wait + Log + Clock + Sync + Net<Stream = TcpStream, Listener = TcpListener>,
    requires accepted { IsOf blanks.accepted_topics K.accepted.one 64 × IsOf blanks.accepted_ports K.accepted.other 2 }
    requires handed { IsOf blanks.handed_topics K.handed.one 64 × IsOf blanks.handed_ports K.handed.other 2 }
    requires durable { IsOf blanks.durable_stores K.durable.one 64 × IsOf blanks.durable_topics K.durable.other 192 }
{
    let ledgers = Ledgers::<K>::open(alloc, blanks, 2)?;
    let places = match empty_places(alloc) {
        Ok(places) => places,
        Err(_) => {
            drop(ledgers);
            return Err(Refusal::NoMemory);
        }
    };
    let seen = run_at(rt, alloc, places.as_slice(), ledgers);
    drop(places);
    seen
}

// One session is told all that it must be, one beside it nothing, and its place comes back.
#[test]
fn serves_a_talk_and_then_others(rt: HostRuntime) -> Result<(), Fail> {
    let seen = run::<Brand, _>(&rt, rt.alloc(), Blanks::new(2))?;
    let wanted = Seen {
        talked: true,
        refused: true,
        came_back: true,
    };
    assert_eq!(rt; seen, Some(wanted));
    Ok(())
}
