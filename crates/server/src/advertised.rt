// By which address clients are told to find a broker.
ghost use Rattle.std.specs.Prelude.{◌≡◌, IfOk};
ghost use Rattle.server.specs.Advertised.{url_of};

use crate::fault::ServeFault;
use commands::ReplyText;
use log::{Log, warn};
use std::alloc::Global;
use std::net::SocketAddr;
use thiserror::Error;

/// The longest address, in bytes; a reply that names it has room for more.
const LONGEST_ADDRESS: usize = 1024;

/// Why clients may not find a broker by an address, as far as its text shows that.
#[derive(Clone, Copy, Debug, PartialEq, Eq, Error)]
enum Flaw {
    #[error("it is longer than {LONGEST_ADDRESS} bytes")]
    TooLong,
    #[error("it has no port")]
    NoPort,
    #[error("its port is 0")]
    PortOfNone,
    #[error("it has no host")]
    NoHost,
    #[error("an IPv6 address isn't in brackets")]
    NoBrackets,
    #[error("it stands for every address of a machine")]
    EveryAddress,
}

/// What LOOKUP answers where clients are told this address. One that is too long is refused.
pub(crate) fn service_url(alloc: Global, advertised: &str) -> Result<ReplyText, ServeFault>
    ensures { IfOk result (λ url. url ≡ url_of advertised.now) }
{
    if advertised.len() > LONGEST_ADDRESS {
        return Err(ServeFault::CannotBind);
    }
    let mut url = String::from_str(alloc, "pulsar://")?;
    url.push_str(advertised)?;
    Ok(ReplyText::new(url))
}

/// Says in the log where clients may not find the broker by what they are told.
pub(crate) fn tell_flaw<R: Log>(rt: &R, advertised: &str) {
    if let Some(flaw) = flaw_of(advertised) {
        warn!(rt; "clients are told to connect to {advertised}, and may not find the broker there: {flaw}");
    }
}

fn flaw_of(advertised: &str) -> Option<Flaw> {
    if advertised.len() > LONGEST_ADDRESS {
        return Some(Flaw::TooLong);
    }
    let Some((host, port)) = advertised.rsplit_once(':') else {
        return Some(Flaw::NoPort);
    };
    if host.is_empty() {
        return Some(Flaw::NoHost);
    }
    if host.contains(':') && !host.starts_with('[') {
        return Some(Flaw::NoBrackets);
    }
    match port.parse::<u16>() {
        Err(_) => Some(Flaw::NoPort),
        Ok(0) => Some(Flaw::PortOfNone),
        Ok(_) if is_of_every_address(advertised) => Some(Flaw::EveryAddress),
        Ok(_) => None,
    }
}

// Whether a server that is bound to this address takes clients at all addresses of its machine.
fn is_of_every_address(address: &str) -> bool {
    match address.parse::<SocketAddr>() {
        Ok(address) => address.ip().is_unspecified(),
        Err(_) => false,
    }
}
