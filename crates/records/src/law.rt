// What stays acknowledged.
ghost use Rattle.std.specs.Prelude.{ℕ, List};
ghost use Rattle.records.specs.declared.record.Record.{Record};
ghost use Rattle.records.specs.Maps.{Kept};
ghost use Rattle.records.specs.Records.{after_all};
ghost use Rattle.records.specs.Floors.{HaveBelow, StartFrom};

/// What every subscription has acknowledged stays so, where each that is made begins behind it.
pub fn acknowledged_stays_so()
    ensures { (b : ℕ) (kept : Kept) (changes : List Record) → HaveBelow b kept → StartFrom b changes → HaveBelow b (after_all changes kept) }
{}
