ghost use Rattle.std.specs.Prelude.{◌≡◌, ◌+◌, ◌<◌, ◌≤◌, ◌^◌, ◌-◌, ◌++◌, take, drop, length, vec_len, IfOk, IfSome, OnOk, OnErr};
ghost use Rattle.proto_fields.specs.Fields.{IsFieldNumber};
ghost use Rattle.proto_fields.specs.Spelling.{number_field, bytes_head, bytes_field};
ghost use Rattle.commands.specs.Laws.{IsBuilt};
ghost use Rattle.commands.specs.Replies.{error_code, error_name, id_fields, count_fields, refusal_fields, partition_fields, lookup_fields, message_spelling, reply_fields, spelling};

use crate::reply::Reply;
use crate::reply_text::ReplyText;
use crate::server_error::ServerError;
use ids::MessageId;
use proto_fields::{number_len, put_bytes, put_bytes_head, put_number, varint_len};
use std::alloc::{AllocError, Global};

fn put_error(number: u32, error: ServerError, out: &mut Vec<u8>) -> Result<(), AllocError>
    requires positive { 1 ≤ number }
    requires in_range { number < 100 }
    ensures growth { OnOk result (vec_len out.new ≤ vec_len out.old + 60) }
    ensures ok { OnOk result (out.new.items ≡ out.old.items ++ number_field number (error_code error) ++ bytes_field (number + 1) (error_name error)) }
    ensures err { OnErr result (take (length out.old.items) out.new.items ≡ out.old.items) }
{
    put_number(number, error.code(), out)?;
    put_bytes(number + 1, error.name().as_bytes(), out)
}

/// Makes the bytes from `start` on the content of a field, where they stand.
///
/// An error is want of memory, and leaves the vector as it was.
fn embed(number: u32, start: usize, out: &mut Vec<u8>) -> Result<(), AllocError>
    requires number { IsFieldNumber number }
    requires start { start ≤ length out.old.items }
    ensures ok { OnOk result (out.new.items ≡ take start out.old.items ++ bytes_field number (drop start out.old.items)) }
    ensures growth { OnOk result (vec_len out.new ≤ vec_len out.old + 20) }
    ensures err { OnErr result (out.new.items ≡ out.old.items) }
{
    let end = out.len();
    put_bytes_head(number, end - start, out)?;
    let head = out.len() - end;
    move_in_front(&mut out.as_mut_slice()[start..], head);
    Ok(())
}

/// Moves the last bytes, so many, in front of the others.
fn move_in_front(bytes: &mut [u8], count: usize)
    requires { count ≤ length bytes.old }
    ensures { bytes.new ≡ drop (length bytes.old - count) bytes.old ++ take (length bytes.old - count) bytes.old }
{
    bytes.rotate_right(count);
}

fn put_message_id(number: u32, id: MessageId, out: &mut Vec<u8>) -> Result<(), AllocError>
    requires { IsFieldNumber number }
    ensures ok { OnOk result (out.new.items ≡ out.old.items ++ bytes_field number (message_spelling (id_fields id))) }
    ensures in_range { OnOk result ((id.ledger_id < 2 ^ 64) × (id.entry_id < 2 ^ 64)) }
    ensures growth { OnOk result (vec_len out.new ≤ vec_len out.old + 60) }
    ensures err { OnErr result (take (length out.old.items) out.new.items ≡ out.old.items) }
{
    put_bytes_head(number, id_len(id), out)?;
    put_number(1, id.ledger_id, out)?;
    put_number(2, id.entry_id, out)
}

/// How many bytes the fields of an id take.
fn id_len(id: MessageId) -> usize
    ensures whole { result ≡ length (message_spelling (id_fields id)) }
    ensures short { result ≤ 40 }
{
    number_len(1, id.ledger_id) + number_len(2, id.entry_id)
}

/// How many bytes a field of this number takes that holds an embedded message of so many bytes.
fn embedded_len(number: u32, len: usize) -> usize
    requires number { IsFieldNumber number }
    requires small { len ≤ 40 }
    ensures whole { result ≡ length (bytes_head number len) + len }
    ensures short { result ≤ 60 }
{
    varint_len(u64::from(number) * 8 + 2) + varint_len(len as u64) + len
}

/// How many bytes a count takes, none where it is 0.
fn count_len(count: u32) -> usize
    ensures whole { result ≡ length (message_spelling (count_fields count)) }
    ensures short { result ≤ 20 }
{
    match count {
        0 => 0,
        count => number_len(3, u64::from(count)),
    }
}

fn put_count(count: u32, out: &mut Vec<u8>) -> Result<(), AllocError>
    ensures ok { OnOk result (out.new.items ≡ out.old.items ++ message_spelling (count_fields count)) }
    ensures growth { OnOk result (vec_len out.new ≤ vec_len out.old + 20) }
    ensures err { OnErr result (take (length out.old.items) out.new.items ≡ out.old.items) }
{
    if count == 0 {
        return Ok(());
    }
    put_number(3, u64::from(count), out)
}

fn put_refusal(error: Option<ServerError>, out: &mut Vec<u8>) -> Result<(), AllocError>
    ensures ok { OnOk result (out.new.items ≡ out.old.items ++ message_spelling (refusal_fields error)) }
    ensures growth { OnOk result (vec_len out.new ≤ vec_len out.old + 60) }
    ensures err { OnErr result (take (length out.old.items) out.new.items ≡ out.old.items) }
{
    match error {
        None => Ok(()),
        Some(error) => put_error(4, error, out),
    }
}

fn put_partitions(
    request_id: u64,
    error: Option<ServerError>,
    out: &mut Vec<u8>,
) -> Result<(), AllocError>
    ensures ok { OnOk result (out.new.items ≡ out.old.items ++ message_spelling (partition_fields request_id error)) }
    ensures growth { OnOk result (vec_len out.new ≤ vec_len out.old + 100) }
    ensures err { OnErr result (take (length out.old.items) out.new.items ≡ out.old.items) }
{
    match error {
        None => {
            put_number(1, 0, out)?;
            put_number(2, request_id, out)?;
            put_number(3, 0, out)
        }
        Some(error) => {
            put_number(2, request_id, out)?;
            put_number(3, 1, out)?;
            put_error(4, error, out)
        }
    }
}

fn put_lookup(
    request_id: u64,
    service_url: &Result<ReplyText, ServerError>,
    out: &mut Vec<u8>,
) -> Result<(), AllocError>
    ensures ok { OnOk result (out.new.items ≡ out.old.items ++ message_spelling (lookup_fields request_id service_url.now)) }
    ensures growth { OnOk result (vec_len out.new ≤ vec_len out.old + 65630) }
    ensures short { IfOk service_url.now (λ url. length url ≤ 65535) }
    ensures err { OnErr result (take (length out.old.items) out.new.items ≡ out.old.items) }
{
    match service_url {
        Ok(url) => {
            put_bytes(1, url.as_str().as_bytes(), out)?;
            put_number(3, 1, out)?;
            put_number(4, request_id, out)?;
            put_number(5, 1, out)
        }
        Err(error) => {
            put_number(3, 2, out)?;
            put_number(4, request_id, out)?;
            put_error(6, *error, out)
        }
    }
}

#[tactic(auto, unfolding(crate::specs::Replies::fields_in))]
fn put_fields(reply: &Reply, out: &mut Vec<u8>) -> Result<(), AllocError>
    ensures ok { OnOk result (out.new.items ≡ out.old.items ++ reply_fields reply.now) }
    ensures growth { OnOk result (vec_len out.new ≤ vec_len out.old + 65700) }
    ensures built { OnOk result (IsBuilt reply.now) }
    ensures err { OnErr result (take (length out.old.items) out.new.items ≡ out.old.items) }
{
    match reply {
        Reply::Connected => {
            put_bytes(1, b"node-1", out)?;
            put_number(2, 5, out)?;
            put_number(3, 1_048_576, out)
        }
        Reply::SendReceipt {
            producer_id,
            sequence_id,
            message_id,
        } => {
            put_number(1, *producer_id, out)?;
            put_number(2, *sequence_id, out)?;
            put_message_id(3, *message_id, out)
        }
        Reply::SendError {
            producer_id,
            sequence_id,
            error,
        } => {
            put_number(1, *producer_id, out)?;
            put_number(2, *sequence_id, out)?;
            put_error(3, *error, out)
        }
        Reply::Message {
            consumer_id,
            message_id,
            redelivery_count,
        } => {
            put_number(1, *consumer_id, out)?;
            put_message_id(2, *message_id, out)?;
            put_count(*redelivery_count, out)
        }
        Reply::Success { request_id } => put_number(1, *request_id, out),
        Reply::Error { request_id, error } => {
            put_number(1, *request_id, out)?;
            put_error(2, *error, out)
        }
        Reply::ProducerSuccess {
            request_id,
            producer_name,
        } => {
            put_number(1, *request_id, out)?;
            put_bytes(2, producer_name.as_str().as_bytes(), out)
        }
        Reply::Pong => Ok(()),
        Reply::PartitionedMetadataResponse { request_id, error } => {
            put_partitions(*request_id, *error, out)
        }
        Reply::LookupResponse {
            request_id,
            service_url,
        } => put_lookup(*request_id, service_url, out),
        Reply::AckResponse {
            consumer_id,
            error,
            request_id,
        } => {
            put_number(1, *consumer_id, out)?;
            put_refusal(*error, out)?;
            put_number(6, *request_id, out)
        }
    }
}

/// How many bytes the fields of a receipt or a message take, the replies that are told most often.
/// The length of another's fields isn't known before they are spelled.
#[tactic(auto, unfolding(crate::specs::Replies::fields_in))]
fn fields_len(reply: &Reply) -> Option<usize>
    ensures { IfSome result (λ len. len ≡ length (reply_fields reply.now)) }
{
    match reply {
        Reply::SendReceipt {
            producer_id,
            sequence_id,
            message_id,
        } => {
            let numbers = number_len(1, *producer_id) + number_len(2, *sequence_id);
            Some(numbers + embedded_len(3, id_len(*message_id)))
        }
        Reply::Message {
            consumer_id,
            message_id,
            redelivery_count,
        } => {
            let numbers = number_len(1, *consumer_id) + count_len(*redelivery_count);
            Some(numbers + embedded_len(2, id_len(*message_id)))
        }
        _ => None,
    }
}

/// Appends the fields of a reply as the content of the field of this number.
fn put_content(number: u32, reply: &Reply, out: &mut Vec<u8>) -> Result<(), AllocError>
    requires { IsFieldNumber number }
    ensures ok { OnOk result (out.new.items ≡ out.old.items ++ bytes_field number (reply_fields reply.now)) }
    ensures growth { OnOk result (vec_len out.new ≤ vec_len out.old + 65720) }
    ensures built { OnOk result (IsBuilt reply.now) }
    ensures err { OnErr result (take (length out.old.items) out.new.items ≡ out.old.items) }
{
    match fields_len(reply) {
        Some(len) => {
            put_bytes_head(number, len, out)?;
            put_fields(reply, out)
        }
        None => put_embedded(number, reply, out),
    }
}

/// Spells the fields first, and then moves their head in front of them.
fn put_embedded(number: u32, reply: &Reply, out: &mut Vec<u8>) -> Result<(), AllocError>
    requires { IsFieldNumber number }
    ensures ok { OnOk result (out.new.items ≡ out.old.items ++ bytes_field number (reply_fields reply.now)) }
    ensures growth { OnOk result (vec_len out.new ≤ vec_len out.old + 65720) }
    ensures built { OnOk result (IsBuilt reply.now) }
    ensures err { OnErr result (take (length out.old.items) out.new.items ≡ out.old.items) }
{
    let start = out.len();
    put_fields(reply, out)?;
    embed(number, start, out)
}

/// Appends the bytes of a reply, whose error may leave a part of them behind what was there.
#[tactic(auto, unfolding(crate::specs::Replies::spelling))]
fn put_reply(reply: &Reply, out: &mut Vec<u8>) -> Result<(), AllocError>
    ensures ok { OnOk result (out.new.items ≡ out.old.items ++ spelling reply.now) }
    ensures small { OnOk result (length (spelling reply.now) < 2 ^ 17) }
    ensures built { OnOk result (IsBuilt reply.now) }
    ensures err { OnErr result (take (length out.old.items) out.new.items ≡ out.old.items) }
{
    let kind = reply.kind();
    put_number(1, u64::from(kind), out)?;
    put_content(kind, reply, out)
}

/// Appends the bytes of a reply, or leaves the vector as it was.
pub fn write_reply(_alloc: Global, reply: &Reply, out: &mut Vec<u8>) -> Result<(), AllocError>
    ensures ok { OnOk result (out.new.items ≡ out.old.items ++ spelling reply.now) }
    ensures small { OnOk result (length (spelling reply.now) < 2 ^ 17) }
    ensures built { OnOk result (IsBuilt reply.now) }
    ensures err { OnErr result (out.new.items ≡ out.old.items) }
{
    let start = out.len();
    let put = put_reply(reply, out);
    if put.is_err() {
        out.truncate(start);
    }
    put
}
