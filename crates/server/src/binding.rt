// Where a server listens.
ghost use Rattle.std.specs.Prelude.{◌≡◌, Ok, None};

use crate::fault::ServeFault;
use log::{Log, error};
use std::net::{Net, TcpListener, TcpStream};

/// Listens at an address, as `127.0.0.1:6650`; a host's name is looked up. Why that can't be done stands in the log, by the
/// system's words.
pub fn bind<N: Net<Stream = TcpStream, Listener = TcpListener>, R: Log>(
    rt: &R,
    net: &N,
    address: &str,
) -> Result<TcpListener, ServeFault> {
    match TcpListener::bind(net, address) {
        Ok(listener) => Ok(listener),
        Err(why) => {
            error!(rt; "{address}: {why}");
            Err(ServeFault::CannotBind)
        }
    }
}

/// Listens at the address where status pages are to be shown, if they are; as `bind` otherwise.
pub fn bind_status<N: Net<Stream = TcpStream, Listener = TcpListener>, R: Log>(
    rt: &R,
    net: &N,
    address: Option<&str>,
) -> Result<Option<TcpListener>, ServeFault>
    ensures { address.entry ≡ None → result ≡ Ok None }
{
    let Some(address) = address else {
        return Ok(None);
    };
    let listener = bind(rt, net, address)?;
    Ok(Some(listener))
}
