// How many producers have a name.
ghost use Rattle.std.specs.Prelude.{◌≡◌, ◌+◌, ◌-◌, ◌^◌, ◌<◌, ℕ, List, OnOk, OnErr};
ghost use Rattle.topic_core.specs.Counts.{name_count, one_of_name};

use std::alloc::{AllocError, Global};
use std::collections::BTreeMap;

/// How many producers have each name.
pub(crate) type NameCounts = BTreeMap<String, usize>;

/// How many have this name.
pub(crate) fn count_of_name(counts: &NameCounts, name: &str) -> usize
    ensures { result ≡ name_count counts.now name.now }
{
    counts.get(name).copied().unwrap_or(0)
}

/// One more has it.
pub(crate) fn count_name(
    alloc: Global,
    counts: &mut NameCounts,
    name: &str,
) -> Result<(), AllocError>
    requires { name_count counts.old name.now + 1 < 2 ^ 64 }
    ensures ok { OnOk result ((q : List ℕ) → name_count counts.new q ≡ name_count counts.old q + one_of_name name.now q) }
    ensures err { OnErr result ((q : List ℕ) → name_count counts.new q ≡ name_count counts.old q) }
{
    let count = count_of_name(counts, name) + 1;
    let key = String::from_str(alloc, name)?;
    counts.insert(key, count)?;
    Ok(())
}

/// One fewer has it.
pub(crate) fn discount_name(counts: &mut NameCounts, name: &str)
    ensures { (q : List ℕ) → name_count counts.new q ≡ name_count counts.old q - one_of_name name.now q }
{
    let count = count_of_name(counts, name);
    if count <= 1 {
        let _ = counts.remove(name);
        return;
    }
    let Some(counted) = counts.get_mut(name) else {
        return;
    };
    *counted = count - 1;
}
