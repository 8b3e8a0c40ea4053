// Names of subscriptions.
ghost use Rattle.std.specs.Prelude.{◌≡◌};
ghost use Rattle.records.specs.Names.{is_subscription_name};

use bytes::ByteStr;
use names::is_name_part;
use std::alloc::{AllocError, Global};
use std::marker::Model;

/// The name of a subscription, as bytes of UTF-8. Clones share them.
#[derive(Drop)]
pub struct Name {
    text: ByteStr,
}

impl Model for Name {
    ghost use Rattle.std.specs.Prelude.{List, ℕ};

    ghost Value = { List ℕ };

    ghost view = { λ n. n.text };
}

impl Clone for Name {
    ghost is_clone = { λ old new. new ≡ old };

    fn clone(&self) -> Result<Self, AllocError> {
        Ok(Name {
            text: self.text.clone()?,
        })
    }
}

impl Name {
    ghost use Rattle.std.specs.Prelude.{◌≡◌, IfOk};

    pub fn new(alloc: Global, name: &str) -> Result<Name, AllocError>
        ensures { IfOk result (λ n. n ≡ name.now) }
    {
        Ok(Name {
            text: ByteStr::copy_from_str(alloc, name)?,
        })
    }

    pub fn as_str(&self) -> &str
        ensures { result.now ≡ self.now }
    {
        self.text.as_str()
    }
}

/// Whether these bytes are the name of a subscription. Our own rule: it is what a part of a topic's name is.
pub fn is_subscription_name(name: &[u8]) -> bool
    ensures { result ≡ is_subscription_name name.now }
{
    is_name_part(name)
}
