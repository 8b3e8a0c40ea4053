use bells::{Bells, Marks};
use std::test::Fail;

// A mark stays until all are taken.
#[test]
fn marks_places(rt: HostRuntime) {
    let mut marks = Marks::new();
    assert!(rt; marks.is_empty() && !marks.has(0));
    marks.add(0);
    marks.add(255);
    marks.add(255);
    assert!(rt; !marks.is_empty() && marks.has(0) && marks.has(255) && !marks.has(128));
    let taken = marks.take();
    assert!(rt; marks.is_empty() && !marks.has(255) && taken.has(255) && !taken.has(1));
}

// Whoever was rung before it waits doesn't sleep, and a writer isn't a reader.
#[test]
fn wakes_who_was_rung(rt: HostRuntime) -> Result<(), Fail> {
    let bells = Bells::new(rt.alloc())?;
    let mut marks = Marks::new();
    marks.add(3);
    bells.ring_all(&marks);
    bells.ring_reader(3);
    bells.wait_writer(&rt, 3);
    bells.wait_reader(&rt, 3);
    Ok(())
}
