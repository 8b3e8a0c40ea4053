// The list of attached consumers, which the modes share.
ghost use Rattle.std.specs.Prelude.{◌≡◌, ◌++◌, ◌∷◌, [], ◌⊎◌, Some, None, OnOk, OnErr, IfErr};
ghost use Rattle.std.specs.Option.{option_copied};
ghost use Rattle.holds.specs.Backlog.{attached, without, room_refusal};
ghost use Rattle.holds.specs.declared.consumer.Refusal.TheVariants.{NoMemory};

use crate::consumer::{Consumer, ConsumerKey, Refusal};

/// How many consumers a subscription takes.
pub const MAX_CONSUMERS: usize = 64;

/// The attached consumer with this key.
pub fn find(consumers: &[Consumer], key: ConsumerKey) -> Option<&Consumer>
    ensures { option_copied result ≡ attached key consumers.now }
{
    consumers.iter().find(|c| c.key == key)
}

/// Why the list has no room for one more.
pub fn full(consumers: &[Consumer]) -> Option<Refusal>
    ensures { result ≡ room_refusal consumers.now }
{
    if consumers.len() < MAX_CONSUMERS {
        None
    } else {
        Some(Refusal::TooManyConsumers)
    }
}

/// Puts a consumer behind the others. Only want of memory refuses it, and then nothing changed.
pub fn push(consumers: &mut Vec<Consumer>, consumer: Consumer) -> Result<(), Refusal>
    ensures added { OnOk result (consumers.new.items ≡ consumers.old.items ++ consumer ∷ []) }
    ensures unchanged { OnErr result (consumers.new.items ≡ consumers.old.items) }
    ensures refused { IfErr result (λ e. e ≡ NoMemory) }
{
    match consumers.push(consumer) {
        Ok(()) => Ok(()),
        Err(_) => Err(Refusal::NoMemory),
    }
}

/// Takes out the consumer with this key.
pub fn remove(consumers: &mut Vec<Consumer>, key: ConsumerKey)
    ensures { consumers.new.items ≡ without key consumers.old.items }
{
    consumers.retain(|c| c.key != key);
}
