use anyhow::{Error, bail};
use commands::{
    Ack, Command, CommandFault, Connect, KeySharedMeta, LookupTopic, MessageMeta,
    PartitionedTopicMetadata, Producer, Redeliver, Sequence, Subscribe, Text, read_command,
    read_entry, read_meta, size_at,
};
use std::alloc::{AllocError, Global};

/// Bytes in hexadecimal digits, behind a sign that shows empty ones.
fn optional(alloc: Global, bytes: Option<&[u8]>) -> Result<String, AllocError> {
    match bytes {
        None => String::from_str(alloc, "none"),
        Some(bytes) => {
            let digits = hex::encode(alloc, bytes)?;
            format!(in alloc; "={digits}")
        }
    }
}

fn spelled(alloc: Global, text: &Text) -> Result<String, AllocError> {
    optional(alloc, Some(text.as_str().as_bytes()))
}

fn optional_text(alloc: Global, text: &Option<Text>) -> Result<String, AllocError> {
    match text {
        None => optional(alloc, None),
        Some(text) => spelled(alloc, text),
    }
}

fn optional_bytes(alloc: Global, bytes: &Option<Sequence<u8>>) -> Result<String, AllocError> {
    match bytes {
        None => optional(alloc, None),
        Some(bytes) => optional(alloc, Some(bytes.as_slice())),
    }
}

fn connect(alloc: Global, connect: &Connect) -> Result<String, AllocError> {
    let version = spelled(alloc, &connect.client_version)?;
    format!(in alloc; "CONNECT {version} {}", connect.protocol_version)
}

fn producer(alloc: Global, producer: &Producer) -> Result<String, AllocError> {
    let topic = spelled(alloc, &producer.topic)?;
    let name = optional_text(alloc, &producer.producer_name)?;
    format!(in alloc;
        "PRODUCER {topic} {} {} {name}",
        producer.producer_id, producer.request_id
    )
}

fn key_shared(alloc: Global, meta: &Option<KeySharedMeta>) -> Result<String, AllocError> {
    match meta {
        None => String::from_str(alloc, "none"),
        Some(meta) => format!(in alloc; "{:?} {:?}", meta.mode, meta.hash_ranges.as_slice()),
    }
}

fn subscribe(alloc: Global, subscribe: &Subscribe) -> Result<String, AllocError> {
    let topic = spelled(alloc, &subscribe.topic)?;
    let name = spelled(alloc, &subscribe.subscription)?;
    let ranges = key_shared(alloc, &subscribe.key_shared_meta)?;
    format!(in alloc;
        "SUBSCRIBE {topic} {name} {:?} {} {} {} {:?} {:?} {ranges}",
        subscribe.subscription_type,
        subscribe.consumer_id,
        subscribe.request_id,
        subscribe.durable,
        subscribe.start_message_id,
        subscribe.initial_position
    )
}

fn ack(alloc: Global, ack: &Ack) -> Result<String, AllocError> {
    format!(in alloc;
        "ACK {} {:?} {:?} {:?}",
        ack.consumer_id,
        ack.ack_type,
        ack.message_ids.as_slice(),
        ack.request_id
    )
}

fn redeliver(alloc: Global, redeliver: &Redeliver) -> Result<String, AllocError> {
    format!(in alloc;
        "REDELIVER {} {:?}",
        redeliver.consumer_id,
        redeliver.message_ids.as_slice()
    )
}

fn partitioned_metadata(
    alloc: Global,
    asked: &PartitionedTopicMetadata,
) -> Result<String, AllocError> {
    let topic = spelled(alloc, &asked.topic)?;
    format!(in alloc; "PARTITIONED_METADATA {topic} {}", asked.request_id)
}

fn lookup(alloc: Global, asked: &LookupTopic) -> Result<String, AllocError> {
    let topic = spelled(alloc, &asked.topic)?;
    format!(in alloc; "LOOKUP {topic} {}", asked.request_id)
}

/// The command's name and what it says.
pub(crate) fn text(alloc: Global, command: &Command) -> Result<String, AllocError> {
    match command {
        Command::Connect(it) => connect(alloc, it),
        Command::Subscribe(it) => subscribe(alloc, it),
        Command::Producer(it) => producer(alloc, it),
        Command::Send(it) => format!(in alloc; "{it:?}"),
        Command::Ack(it) => ack(alloc, it),
        Command::Flow(it) => format!(in alloc; "{it:?}"),
        Command::Unsubscribe(it) => format!(in alloc; "{it:?}"),
        Command::CloseProducer(it) => format!(in alloc; "{it:?}"),
        Command::CloseConsumer(it) => format!(in alloc; "{it:?}"),
        Command::Ping => String::from_str(alloc, "PING"),
        Command::Pong => String::from_str(alloc, "PONG"),
        Command::RedeliverUnacknowledgedMessages(it) => redeliver(alloc, it),
        Command::PartitionedMetadata(it) => partitioned_metadata(alloc, it),
        Command::Lookup(it) => lookup(alloc, it),
        Command::Other(kind) => format!(in alloc; "type {kind}"),
    }
}

/// What metadata says.
pub(crate) fn meta_text(alloc: Global, meta: &MessageMeta) -> Result<String, AllocError> {
    let name = spelled(alloc, &meta.producer_name)?;
    let key = optional_text(alloc, &meta.partition_key)?;
    let ordering = optional_bytes(alloc, &meta.ordering_key)?;
    format!(in alloc;
        "{name} {} {} {key} {} {} {ordering} {:?}",
        meta.sequence_id,
        meta.publish_time,
        meta.compression,
        meta.num_messages_in_batch,
        meta.deliver_at_time
    )
}

fn fault_text(alloc: Global, fault: CommandFault) -> Result<String, Error> {
    if fault == CommandFault::NoMemory {
        bail!("{fault}");
    }
    Ok(format!(in alloc; "{fault}")?)
}

/// The command of the bytes.
pub(crate) fn command(alloc: Global, bytes: &[u8]) -> Result<String, Error> {
    match read_command(alloc, bytes) {
        Ok(command) => Ok(text(alloc, &command)?),
        Err(fault) => fault_text(alloc, fault),
    }
}

/// The metadata of the bytes.
pub(crate) fn metadata(alloc: Global, bytes: &[u8]) -> Result<String, Error> {
    match read_meta(alloc, bytes) {
        Ok(meta) => Ok(meta_text(alloc, &meta)?),
        Err(fault) => fault_text(alloc, fault),
    }
}

/// The metadata inside an entry of the bytes.
pub(crate) fn entry(alloc: Global, bytes: &[u8]) -> Result<String, Error> {
    match read_entry(alloc, bytes) {
        Ok(meta) => Ok(meta_text(alloc, &meta)?),
        Err(fault) => fault_text(alloc, fault),
    }
}

/// The number that the first four bytes spell.
pub(crate) fn size(alloc: Global, bytes: &[u8]) -> Result<String, Error> {
    if bytes.len() < 4 {
        bail!("a size has four bytes");
    }
    let size = size_at(bytes);
    Ok(format!(in alloc; "{size}")?)
}
