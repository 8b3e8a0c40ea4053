// Names of topics, of subscriptions and of files.

use crate::reading::{bytes, yes};
use anyhow::{Error, bail};
use disk::{CATALOG, CursorSlot, DeviceError, FileId, served};
use names::{NameFault, TopicName, is_name_part, is_topic_name};
use records::{Name, is_subscription_name};
use std::alloc::Global;

/// Puts whether bytes are the name of a topic, a part of one, and the name of a subscription.
fn tell_bytes(alloc: Global, bytes: &[u8], said: &mut String) -> Result<(), Error> {
    let text = format!(in alloc;
        "{} {} {}",
        yes(is_topic_name(bytes)),
        yes(is_name_part(bytes)),
        yes(is_subscription_name(bytes))
    )?;
    Ok(said.push_str(text.as_str())?)
}

/// Puts how the name of a topic prints, and whether a clone is the same; or why there is none.
fn tell_topic(alloc: Global, text: &str, said: &mut String) -> Result<(), Error> {
    match TopicName::read(alloc, text.as_bytes()) {
        Ok(name) => {
            let is_same = name.clone()? == name;
            let text = format!(in alloc; "{name} {}", yes(is_same))?;
            Ok(said.push_str(text.as_str())?)
        }
        Err(NameFault::NoMemory) => bail!("no memory"),
        Err(fault) => Ok(said.push_str(format!(in alloc; "{fault}")?.as_str())?),
    }
}

/// The file of a kind, of any topic.
fn file(words: &[&str]) -> Result<FileId, Error> {
    match words {
        ["catalog"] => Ok(CATALOG),
        ["segment", topic, number] => Ok(FileId::Segment {
            topic: served(topic.parse()?),
            number: number.parse()?,
        }),
        ["slot", topic, "0"] => Ok(FileId::Slot {
            topic: served(topic.parse()?),
            slot: CursorSlot::Zero,
        }),
        ["slot", topic, "1"] => Ok(FileId::Slot {
            topic: served(topic.parse()?),
            slot: CursorSlot::One,
        }),
        _ => bail!("no file has these words"),
    }
}

pub(crate) fn step(alloc: Global, words: &[&str], said: &mut String) -> Result<(), Error> {
    match words {
        ["bytes", word] => {
            let bytes = bytes(alloc, word)?;
            tell_bytes(alloc, &bytes, said)
        }
        ["topic", text] => tell_topic(alloc, text, said),
        ["subscription", text] => {
            let name = Name::new(alloc, text)?;
            Ok(said.push_str(name.as_str())?)
        }
        ["file", rest @ ..] => {
            let file = file(rest)?;
            Ok(said.push_str(format!(in alloc; "{file}")?.as_str())?)
        }
        ["failure"] => {
            let text = format!(in alloc; "{DeviceError}")?;
            Ok(said.push_str(text.as_str())?)
        }
        _ => bail!("no step of a name begins with these words"),
    }
}
