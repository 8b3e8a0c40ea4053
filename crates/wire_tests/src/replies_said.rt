use anyhow::{Error, bail};
use commands::{MessageId, Reply, ReplyText, ServerError};
use frames::write_frame;
use std::alloc::Global;

fn server_error(name: &str) -> Result<ServerError, Error> {
    match name {
        "PersistenceError" => Ok(ServerError::PersistenceError),
        "ConsumerBusy" => Ok(ServerError::ConsumerBusy),
        "ChecksumError" => Ok(ServerError::ChecksumError),
        "ConsumerNotFound" => Ok(ServerError::ConsumerNotFound),
        "TooManyRequests" => Ok(ServerError::TooManyRequests),
        "ProducerBusy" => Ok(ServerError::ProducerBusy),
        "InvalidTopicName" => Ok(ServerError::InvalidTopicName),
        "ConsumerAssignError" => Ok(ServerError::ConsumerAssignError),
        "NotAllowedError" => Ok(ServerError::NotAllowedError),
        _ => bail!("no error has the name {name}"),
    }
}

/// The number and the name of an error.
pub(crate) fn error(alloc: Global, name: &str) -> Result<String, Error> {
    let error = server_error(name)?;
    Ok(format!(in alloc; "{} {}", error.code(), error.name())?)
}

fn message_id(ledger: &str, entry: &str) -> Result<MessageId, Error> {
    Ok(MessageId {
        ledger_id: ledger.parse()?,
        entry_id: entry.parse()?,
    })
}

fn success_of_a_producer(alloc: Global, request: &str, name: &str) -> Result<Reply, Error> {
    if name.len() > 255 {
        bail!("the name has more than 255 bytes");
    }
    Ok(Reply::ProducerSuccess {
        request_id: request.parse()?,
        producer_name: ReplyText::new(String::from_str(alloc, name)?),
    })
}

fn found(alloc: Global, request: &str, url: &str) -> Result<Reply, Error> {
    if url.len() > 255 {
        bail!("the URL has more than 255 bytes");
    }
    Ok(Reply::LookupResponse {
        request_id: request.parse()?,
        service_url: Ok(ReplyText::new(String::from_str(alloc, url)?)),
    })
}

fn to_a_request(alloc: Global, words: &[&str]) -> Result<Reply, Error> {
    match words {
        [name] if *name == "connected" => Ok(Reply::Connected),
        [name] if *name == "pong" => Ok(Reply::Pong),
        [name, request] if *name == "success" => Ok(Reply::Success {
            request_id: request.parse()?,
        }),
        [name, request, error] if *name == "refusal" => Ok(Reply::Error {
            request_id: request.parse()?,
            error: server_error(error)?,
        }),
        [name, request, producer] if *name == "producer" => {
            success_of_a_producer(alloc, request, producer)
        }
        _ => bail!("no reply is of this name"),
    }
}

fn to_a_lookup(alloc: Global, words: &[&str]) -> Result<Reply, Error> {
    match words {
        [name, request] if *name == "partitions" => Ok(Reply::PartitionedMetadataResponse {
            request_id: request.parse()?,
            error: None,
        }),
        [name, request, error] if *name == "partitions_refused" => {
            Ok(Reply::PartitionedMetadataResponse {
                request_id: request.parse()?,
                error: Some(server_error(error)?),
            })
        }
        [name, request, url] if *name == "lookup" => found(alloc, request, url),
        [name, request, error] if *name == "lookup_refused" => Ok(Reply::LookupResponse {
            request_id: request.parse()?,
            service_url: Err(server_error(error)?),
        }),
        _ => bail!("no answer to a lookup is of this name"),
    }
}

fn to_a_send(words: &[&str]) -> Result<Reply, Error> {
    match words {
        [name, producer, sequence, ledger, entry] if *name == "receipt" => Ok(Reply::SendReceipt {
            producer_id: producer.parse()?,
            sequence_id: sequence.parse()?,
            message_id: message_id(ledger, entry)?,
        }),
        [name, producer, sequence, error] if *name == "send_error" => Ok(Reply::SendError {
            producer_id: producer.parse()?,
            sequence_id: sequence.parse()?,
            error: server_error(error)?,
        }),
        _ => bail!("no answer to a SEND is of this name"),
    }
}

fn to_a_consumer(words: &[&str]) -> Result<Reply, Error> {
    match words {
        [name, consumer, ledger, entry, count] if *name == "message" => Ok(Reply::Message {
            consumer_id: consumer.parse()?,
            message_id: message_id(ledger, entry)?,
            redelivery_count: count.parse()?,
        }),
        [name, consumer, request] if *name == "ack" => Ok(Reply::AckResponse {
            consumer_id: consumer.parse()?,
            error: None,
            request_id: request.parse()?,
        }),
        [name, consumer, error, request] if *name == "ack_refusal" => Ok(Reply::AckResponse {
            consumer_id: consumer.parse()?,
            error: Some(server_error(error)?),
            request_id: request.parse()?,
        }),
        _ => bail!("no answer to a consumer is of this name"),
    }
}

fn reply_of(alloc: Global, words: &[&str]) -> Result<Reply, Error> {
    let [name, ..] = words else {
        bail!("no reply is named");
    };
    match *name {
        "receipt" | "send_error" => to_a_send(words),
        "message" | "ack" | "ack_refusal" => to_a_consumer(words),
        "partitions" | "partitions_refused" | "lookup" | "lookup_refused" => {
            to_a_lookup(alloc, words)
        }
        _ => to_a_request(alloc, words),
    }
}

/// Appends the frame of a reply and the entry of these digits, or of no entry at all.
fn put(alloc: Global, reply: &Reply, entry: &str, out: &mut Vec<u8>) -> Result<(), Error> {
    if entry == "-" {
        write_frame(alloc, reply, None, out)?;
        return Ok(());
    }
    let entry = hex::decode(alloc, entry)?;
    if entry.len() > 1_000_000 {
        bail!("the entry has more than 1000000 bytes");
    }
    write_frame(alloc, reply, Some(entry.as_slice()), out)?;
    Ok(())
}

/// The type of a reply, and a byte that was there with the reply's frame behind it.
pub(crate) fn reply(alloc: Global, asked: &str) -> Result<String, Error> {
    let words: Vec<&str> = asked.split(' ').collect(alloc)?;
    let [entry, words @ ..] = words.as_slice() else {
        bail!("no entry and reply");
    };
    let reply = reply_of(alloc, words)?;
    let mut out = Vec::new(alloc);
    out.push(0xee)?;
    put(alloc, &reply, entry, &mut out)?;
    let digits = hex::encode(alloc, out.as_slice())?;
    Ok(format!(in alloc; "{} {digits}", reply.kind())?)
}
