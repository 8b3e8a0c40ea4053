// A broker's devices.
ghost use Rattle.std.specs.Prelude.{◌≡◌, IfOk, length};

use crate::serving::Shelves;
use std::alloc::{AllocError, Global};
use topic_lock::Devices;

/// The catalog's device, and one for each of so many topics.
pub(crate) fn devices<F: Shelves>(
    alloc: Global,
    shelves: &F,
    count: usize,
) -> Result<Devices<F::Device>, AllocError>
    ensures { IfOk result (λ devices. length devices.topics.items ≡ count) }
{
    let catalog = shelves.shelf()?;
    let mut topics = Vec::new(alloc);
    for _ in 0..count {
        let shelf = shelves.shelf()?;
        topics.push(shelf)?;
    }
    Ok(Devices { catalog, topics })
}
