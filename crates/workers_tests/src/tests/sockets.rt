use super::desk::Desk;
use super::{CONNECT, CONNECTED, PING, PONG, ample};
use bells::Bells;
use gates::{Parting, ReaderGate, WriterGate};
use session::Session;
use std::alloc::Global;
use std::io::{Read, Write};
use std::net::{Net, Shutdown, TcpListener, TcpStream};
use std::sync::{Mutex, Wait};
use std::test::Fail;
use std::thread::Threads;
use std::{io, thread};
use workers::{Numbered, serve_connection};

// Serves a socket, and tells whether it was served.
fn serve<R: Threads + Wait + Sync>(
    rt: &R,
    alloc: Global,
    bells: &Bells,
    session: &Mutex<Numbered>,
    socket: &TcpStream,
) -> bool {
    let served = serve_connection(
        rt,
        alloc,
        3,
        session,
        socket,
        socket,
        &ReaderGate::new(rt, bells, session, 7),
        &WriterGate::new(rt, bells, session, 7),
        &Parting::new(bells, 7, socket),
        Desk::new(),
        Desk::new(),
    );
    served.end.is_ok()
}

// Sends, reads the answers, and ends its own side. Tells whether they came, and nothing more behind them.
fn talk(mut client: TcpStream) -> io::Result<bool> {
    let mut connected = [0; 26];
    let mut pong = [0; 13];
    client.write_all(CONNECT)?;
    client.read_exact(&mut connected)?;
    client.write_all(PING)?;
    client.read_exact(&mut pong)?;
    client.shutdown(Shutdown::Write)?;
    let more = client.read(&mut [0; 1])?;
    Ok(connected.as_slice() == CONNECTED && pong.as_slice() == PONG && more == 0)
}

// Both ends of a connection: the client's first.
fn ends<R: Net<Stream = TcpStream, Listener = TcpListener>>(
    net: &R,
) -> io::Result<(TcpStream, TcpStream)> {
    let listener = TcpListener::bind(net, "127.0.0.1:0")?;
    let client = TcpStream::connect(net, listener.local_addr()?)?;
    let (stream, _) = listener.accept()?;
    Ok((client, stream))
}

#[test]
fn serves_a_socket(rt: HostRuntime) -> Result<(), Fail> {
    let (client, stream) = ends(&rt)?;
    let bells = Bells::new(rt.alloc())?;
    let session = Mutex::new(Numbered::new(rt.alloc(), Session::new(rt.alloc(), 3)));
    let shared = (&bells, &session);
    let (was_served, came) = thread::join(
        &rt,
        move || serve(&rt, rt.alloc(), shared.0, shared.1, &stream),
        move || talk(client).unwrap_or(false),
    );
    let numbered = session.into_inner();
    let found = ample(numbered.session());
    drop(numbered);
    found?;
    assert!(rt; came || !was_served);
    Ok(())
}
