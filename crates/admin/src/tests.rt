use crate::print_status;
use names::TopicName;
use node::TopicStatus;
use records::Name;
use std::alloc::Global;
use std::io;
use std::io::{ErrorKind, Write};
use std::test::Fail;
use subscriptions::SubscriptionStatus;

// A topic with two subscriptions.
fn topic(alloc: Global, number: u64, name: &str) -> Result<TopicStatus, Fail> {
    let mut subscriptions = Vec::new(alloc);
    subscriptions.push(SubscriptionStatus {
        name: Name::new(alloc, "a")?,
        mark_delete: 0,
        ranges: 0,
    })?;
    subscriptions.push(SubscriptionStatus {
        name: Name::new(alloc, "my-sub_0.b")?,
        mark_delete: 12345678901,
        ranges: 1234567,
    })?;
    Ok(TopicStatus {
        number,
        name: TopicName::read(alloc, name.as_bytes())?,
        entries: number.wrapping_mul(7),
        base: number.wrapping_mul(3),
        segments: 1,
        subscriptions,
    })
}

#[test]
fn lines_stand_in_their_places(rt: HostRuntime) -> Result<(), Fail> {
    let mut topics = Vec::new(rt.alloc());
    topics.push(topic(rt.alloc(), 0, "persistent://a/b/c")?)?;
    topics.push(topic(rt.alloc(), 1844674407370955161, "persistent://a/b/d")?)?;
    let mut lines = Vec::new(rt.alloc());
    print_status(topics.as_slice(), &mut lines)?;
    let wanted = concat!(
        "T    0          0          0      1 persistent://a/b/c\n",
        "S    0          0      0 a\n",
        "S    0 12345678901 1234567 my-sub_0.b\n",
        "T 1844674407370955161 12912720851596686127 5534023222112865483      1 persistent://a/b/d\n",
        "S 1844674407370955161          0      0 a\n",
        "S 1844674407370955161 12345678901 1234567 my-sub_0.b\n",
    );
    assert_eq!(rt; str::from_utf8(&lines)?, wanted);
    Ok(())
}

#[test]
fn no_topics_have_no_lines(rt: HostRuntime) -> Result<(), Fail> {
    let mut lines = Vec::new(rt.alloc());
    print_status(&[], &mut lines)?;
    assert_eq!(rt; lines.len(), 0);
    Ok(())
}

// Takes a byte at a time, is interrupted at each third call, and fails at some call.
#[derive(Drop)]
struct Poor {
    calls: u64,
    fails_at: u64,
    taken: usize,
}

impl Write for Poor {
    fn write(&mut self, buf: &[u8]) -> io::Result<usize> {
        self.calls = self.calls.wrapping_add(1);
        if self.calls == self.fails_at {
            return Err(io::Error::from(ErrorKind::StorageFull));
        }
        if self.calls % 3 == 0 {
            return Err(io::Error::from(ErrorKind::Interrupted));
        }
        let count = buf.len().min(1);
        self.taken = self.taken.wrapping_add(count);
        Ok(count)
    }

    fn flush(&mut self) -> io::Result<()> {
        Ok(())
    }
}

fn failing_at(fails_at: u64) -> Poor {
    Poor {
        calls: 0,
        fails_at,
        taken: 0,
    }
}

#[test]
fn a_fault_of_the_writer_is_handed_on(rt: HostRuntime) -> Result<(), Fail> {
    let mut topics = Vec::new(rt.alloc());
    topics.push(topic(rt.alloc(), 0, "persistent://a/b/c")?)?;
    let mut writer = failing_at(0);
    print_status(topics.as_slice(), &mut writer)?;
    assert_eq!(rt; writer.taken, 120);
    for fails_at in 1..10 {
        let mut writer = failing_at(fails_at);
        let why = print_status(topics.as_slice(), &mut writer)
            .err()
            .map(|error| error.kind());
        assert_eq!(rt; why, Some(ErrorKind::StorageFull), "at call {fails_at}");
    }
    Ok(())
}
