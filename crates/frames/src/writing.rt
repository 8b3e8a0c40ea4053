ghost use Rattle.std.specs.Prelude.{◌≡◌, ◌<◌, ◌≤◌, ◌+◌, ◌-◌, ◌^◌, ◌++◌, [], length, take, drop, OnOk, OnErr, unwrap_or};
ghost use Rattle.std.specs.Int.{w32, to_be_bytes};
ghost use Rattle.std.specs.Option.{option_copied};
ghost use Rattle.commands.specs.Laws.{IsBuilt};
ghost use Rattle.commands.specs.Replies.{spelling};
ghost use Rattle.frames.specs.Frames.{frame_bytes};
ghost use Rattle.frames.specs.Laws.{IsTold};

use commands::{Reply, write_reply};
use std::alloc::{AllocError, Global};

/// Room for a receipt or a message and the sizes in front of it, in bytes. Other replies may take more.
const REPLY_ROOM: usize = 88;

/// Appends one whole frame, the reply's with the entry behind it, or leaves the vector as it was
/// (Pulsar binary protocol, Framing).
pub fn write_frame(
    alloc: Global,
    reply: &Reply,
    entry: Option<&[u8]>,
    out: &mut Vec<u8>,
) -> Result<(), AllocError>
    requires { length (unwrap_or (option_copied entry) []) ≤ 2 ^ 31 }
    ensures ok { OnOk result (out.new.items ≡ out.old.items
        ++ frame_bytes (spelling reply.now) (unwrap_or (option_copied entry.entry) [])) }
    ensures told { OnOk result (IsTold (reply.now, unwrap_or (option_copied entry.entry) [])) }
    ensures err { OnErr result (out.new.items ≡ out.old.items) }
{
    let start = out.len();
    let put = put_frame(alloc, reply, entry.unwrap_or(&[]), out);
    if put.is_err() {
        out.truncate(start);
    }
    put
}

/// Appends the frame, whose error may leave a part of it behind what was there.
fn put_frame(
    alloc: Global,
    reply: &Reply,
    entry: &[u8],
    out: &mut Vec<u8>,
) -> Result<(), AllocError>
    requires { length entry.now ≤ 2 ^ 31 }
    ensures ok { OnOk result (out.new.items ≡ out.old.items ++ frame_bytes (spelling reply.now) entry.now) }
    ensures built { OnOk result (IsBuilt reply.now) }
    ensures err { OnErr result (take (length out.old.items) out.new.items ≡ out.old.items) }
{
    let start = out.len();
    out.reserve(REPLY_ROOM + entry.len())?;
    out.extend_from_slice(&[0; 8])?;
    write_reply(alloc, reply, out)?;
    put_sizes(&mut out.as_mut_slice()[start..], entry.len());
    out.extend_from_slice(entry)
}

/// Writes the two sizes of a frame over its first eight bytes, the high byte first, where its command stands
/// behind them and an entry of so many bytes is still to come.
fn put_sizes(frame: &mut [u8], entry: usize)
    requires whole { 8 ≤ length frame.old }
    requires small { length frame.old + entry < 2 ^ 32 }
    ensures { frame.new ≡ to_be_bytes w32 (4 + (length frame.old - 8) + entry) ++ to_be_bytes w32 (length frame.old - 8) ++ drop 8 frame.old }
{
    let command = frame.len() - 8;
    let size = 4 + command + entry;
    frame[..4].copy_from_slice(&(size as u32).to_be_bytes());
    frame[4..8].copy_from_slice(&(command as u32).to_be_bytes());
}
