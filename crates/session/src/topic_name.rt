ghost use Rattle.std.specs.Prelude.{◌≡◌, true, IfOk};
ghost use Rattle.names.specs.Names.{is_topic_name};

use names::{NameFault, TopicName};
use std::alloc::{AllocError, Global};

/// The name of a topic, where the text was found to be one.
pub(crate) fn read_name(alloc: Global, text: &str) -> Result<TopicName, AllocError>
    requires { is_topic_name text.now ≡ true }
    ensures { IfOk result (λ name. name ≡ text.now) }
{
    match TopicName::read(alloc, text.as_bytes()) {
        Ok(name) => Ok(name),
        Err(NameFault::NoMemory) => Err(AllocError),
        Err(NameFault::Bad) => unreachable!(),
    }
}
