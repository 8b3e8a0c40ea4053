// Names of topics.
ghost use Rattle.std.specs.Prelude.{◌≡◌, Some};
ghost use Rattle.std.specs.Hash as fed;
ghost use Rattle.std.specs.Cmp.Rules.{comparing, hashing};
ghost use Rattle.std.proofs.Common.{rules};
ghost use Rattle.std.specs.Str.{bytes_eq};
ghost use Rattle.names.specs.Names.{is_topic_name};

use crate::part::are_three_parts;
use std::alloc::{AllocError, Global};
use std::fmt;
use std::hash::{Hash, Hasher};
use std::marker::Model;
use thiserror::Error;

// What each name of a topic begins with.
const PREFIX: &[u8] = b"persistent://";

/// Why bytes aren't taken as the name of a topic.
#[derive(Clone, Copy, Debug, PartialEq, Eq, Error)]
pub enum NameFault {
    /// They are no name of a topic.
    #[error("bad name")]
    Bad,
    /// A growth was refused.
    #[error("no memory")]
    NoMemory,
}

impl From<AllocError> for NameFault {
    ghost use Rattle.names.specs.declared.topic_name.NameFault.TheVariants.{NoMemory};

    ghost from_gives = { λ _ e. e ≡ NoMemory };

    fn from(_: AllocError) -> Self {
        NameFault::NoMemory
    }
}

/// Whether these bytes are the name of a topic. Our own rule: `persistent://` and three parts joined by `/`.
pub fn is_topic_name(bytes: &[u8]) -> bool
    ensures { result ≡ is_topic_name bytes.now }
{
    bytes.starts_with(PREFIX) && are_three_parts(&bytes[PREFIX.len()..])
}

/// The name of a topic, which is what contracts see of it, and prints as it stands.
#[derive(Debug, Drop)]
pub struct TopicName {
    text: String,
}

impl Model for TopicName {
    ghost use Rattle.std.specs.Prelude.{◌≡◌, List, ℕ, true};
    ghost use Rattle.std.specs.String.{string_bytes};
    ghost use Rattle.names.specs.Names.{is_topic_name};

    ghost Value = { List ℕ };

    ghost view = { λ n. string_bytes n.text };

    ghost invariant = { λ n. is_topic_name (string_bytes n.text) ≡ true };
}

impl TopicName {
    ghost use Rattle.std.specs.Prelude.{◌↔◌, true, false, IfOk, IfErr, IsErrOf};

    /// The name that these bytes are. `Bad` is answered exactly where they are no name of a topic.
    pub fn read(alloc: Global, bytes: &[u8]) -> Result<TopicName, NameFault>
        ensures read { IfOk result (λ name. name ≡ bytes.now) }
        ensures good { IfOk result (λ name. is_topic_name name ≡ true) }
        ensures bad { IsErrOf result NameFault.Bad ↔ (is_topic_name bytes.now ≡ false) }
    {
        if !is_topic_name(bytes) {
            return Err(NameFault::Bad);
        }
        let Ok(text) = std::str::from_utf8(bytes) else {
            unreachable!();
        };
        let text = String::from_str(alloc, text)?;
        Ok(TopicName { text })
    }

    /// Its bytes, as text.
    pub fn as_str(&self) -> &str
        ensures text { result.now ≡ self.now }
        ensures good { is_topic_name result.now ≡ true }
    {
        self.text.as_str()
    }
}

impl fmt::Display for TopicName {
    ghost output = { λ name. Some name };

    fn fmt<W: fmt::Write>(&self, f: &mut fmt::Formatter<W>) -> fmt::Result {
        f.pad(self.as_str())
    }
}

impl Clone for TopicName {
    ghost is_clone = { λ old new. new ≡ old };

    fn clone(&self) -> Result<Self, AllocError> {
        Ok(TopicName {
            text: self.text.clone()?,
        })
    }
}

impl PartialEq for TopicName {
    ghost eq = { bytes_eq };

    ghost laws = { Prim.search (comparing, rules) };

    fn eq(&self, other: &TopicName) -> bool {
        self.text == other.text
    }
}

impl Eq for TopicName {
    ghost laws = { Prim.search (comparing, rules) };
}

impl Hash for TopicName {
    ghost hash_input = { λ name. fed.str name };

    ghost respects_eq = { Prim.search (hashing, rules) };

    fn hash<H: Hasher>(&self, state: &mut H) {
        self.as_str().hash(state);
    }
}
