// How many producers have a session and an id.
ghost use Rattle.std.specs.Prelude.{◌≡◌, ◌+◌, ◌-◌, ◌^◌, ◌<◌, ℕ, cond, ◌&&◌, nat_eq, OnOk, OnErr};
ghost use Rattle.topic_core.specs.Counts.{id_count, one_of_id};

use std::alloc::AllocError;
use std::collections::BTreeMap;

/// How many producers have each session and producer id.
pub(crate) type IdCounts = BTreeMap<(u64, u64), usize>;

/// How many have this session and id.
pub(crate) fn count_of_id(counts: &IdCounts, who: u64, id: u64) -> usize
    ensures { result ≡ id_count counts.now who id }
{
    counts.get(&(who, id)).copied().unwrap_or(0)
}

/// One more has them.
pub(crate) fn count_id(counts: &mut IdCounts, who: u64, id: u64) -> Result<(), AllocError>
    requires { id_count counts.old who id + 1 < 2 ^ 64 }
    ensures ok { OnOk result ((s i : ℕ) → id_count counts.new s i ≡ id_count counts.old s i + one_of_id who id s i) }
    ensures err { OnErr result ((s i : ℕ) → id_count counts.new s i ≡ id_count counts.old s i) }
{
    let count = count_of_id(counts, who, id) + 1;
    counts.insert((who, id), count)?;
    Ok(())
}

/// One fewer has them.
pub(crate) fn discount_id(counts: &mut IdCounts, who: u64, id: u64)
    ensures { (s i : ℕ) → id_count counts.new s i ≡ id_count counts.old s i - one_of_id who id s i }
{
    let count = count_of_id(counts, who, id);
    if count <= 1 {
        let _ = counts.remove(&(who, id));
        return;
    }
    let Some(counted) = counts.get_mut(&(who, id)) else {
        return;
    };
    *counted = count - 1;
}

/// None has them any more.
pub(crate) fn forget_id(counts: &mut IdCounts, who: u64, id: u64)
    ensures { (s i : ℕ) → id_count counts.new s i ≡ cond (nat_eq who s && nat_eq id i) 0 (id_count counts.old s i) }
{
    let _ = counts.remove(&(who, id));
}
