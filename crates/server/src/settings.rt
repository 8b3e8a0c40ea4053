// How a folder is served.
ghost use Rattle.std.specs.Prelude.{◌≡◌, IfOk};
ghost use Rattle.std.specs.String.{string_bytes};
ghost use Rattle.server.specs.Advertised.{url_of};

use crate::advertised::service_url;
use crate::fault::ServeFault;
use commands::ReplyText;
use std::alloc::Global;
use std::net::TcpListener;
use std::time::Duration;

/// How a folder is served.
#[derive(Clone, Copy)]
pub struct Settings<'a> {
    /// Where to listen, as `127.0.0.1:6650`.
    pub address: &'a str,
    /// Where clients that look a topic up are told to connect, in the same form.
    pub advertised: &'a str,
    /// How long a client may say nothing before its connection is ended; for ever, where that is none.
    pub idle: Option<Duration>,
    /// Where status pages are shown over HTTP; nowhere, where that is none.
    pub status: Option<&'a TcpListener>,
}

/// The same, once it is known how clients find the broker.
#[derive(Drop)]
pub(crate) struct Offer<'a> {
    pub(crate) address: String,
    pub(crate) url: ReplyText,
    pub(crate) idle: Option<Duration>,
    pub(crate) status: Option<&'a TcpListener>,
}

impl<'a> Offer<'a> {
    pub(crate) fn new(alloc: Global, settings: &Settings<'a>) -> Result<Offer<'a>, ServeFault>
        ensures address { IfOk result (λ offer. string_bytes offer.address ≡ settings.now.address.now) }
        ensures url { IfOk result (λ offer. offer.url ≡ url_of settings.now.advertised.now) }
        ensures idle { IfOk result (λ offer. offer.idle ≡ settings.now.idle) }
        ensures status { IfOk result (λ offer. offer.status ≡ settings.now.status) }
    {
        let address = String::from_str(alloc, settings.address)?;
        match service_url(alloc, settings.advertised) {
            Ok(url) => Ok(Offer {
                address,
                url,
                idle: settings.idle,
                status: settings.status,
            }),
            Err(fault) => {
                drop(address);
                Err(fault)
            }
        }
    }
}
