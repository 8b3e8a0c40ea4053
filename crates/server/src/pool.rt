// The places of connections that are free.
ghost use Rattle.std.specs.Prelude.{◌≡◌, ◌<◌, ◌++◌, [], ◌∷◌, length, vec_len, vec_capacity, IfSome, IfNone};

use std::alloc::{AllocError, Global};
use topic_lock::{PortShares, Tallies};
use workers::Ended;

/// A place that no connection has, with the shares of its two ports.
#[derive(Drop)]
pub struct Free<K: Tallies> {
    pub place: u8,
    pub reader: PortShares<K>,
    pub writer: PortShares<K>,
}

/// How many connections are served at a time at most. Our own rule.
pub const MOST_CONNECTIONS: usize = 256;

/// The places that are free. A connection that finds none is closed.
#[derive(Drop)]
pub struct Pool<K: Tallies> {
    free: Vec<Free<K>>,
}

impl<K: Tallies> Pool<K> {
    /// A place for each two of the ports, at most 256.
    pub fn new(alloc: Global, ports: Vec<PortShares<K>>) -> Result<Pool<K>, AllocError> {
        let mut ports = ports;
        let mut free = Vec::new(alloc);
        for place in 0..=u8::MAX {
            let (Some(reader), Some(writer)) = (ports.pop(), ports.pop()) else {
                break;
            };
            free.push(Free {
                place,
                reader,
                writer,
            })?;
        }
        Ok(Pool { free })
    }

    /// How many places are free.
    pub fn count(&self) -> usize
        ensures { result ≡ length self.now.free.items }
    {
        self.free.len()
    }

    /// A place that is free, which is then taken. There is room for it to come back.
    pub fn take(&mut self) -> Option<Free<K>>
        ensures some { IfSome result (λ free. self.old.free.items ≡ self.new.free.items ++ free ∷ []) }
        ensures none { IfNone result (self.old.free.items ≡ []) }
        ensures room { IfSome result (λ free. vec_len self.new.free < vec_capacity self.new.free) }
    {
        self.free.pop()
    }

    /// A place is free again, since the session that sat there has ended, where there is room for it: as one that was taken from here
    /// finds.
    pub fn give(&mut self, free: Free<K>, _ended: Ended)
        ensures back { vec_len self.old.free < vec_capacity self.old.free → self.new.free.items ≡ self.old.free.items ++ free ∷ [] }
    {
        if self.free.len() < self.free.capacity() {
            self.free.push_reserved(free);
        }
    }
}
