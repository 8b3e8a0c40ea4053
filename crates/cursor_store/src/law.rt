// How much an opening reads.
ghost use Rattle.std.specs.Prelude.{◌≡◌, ℕ, ◌+◌, Bool, true, false, [], ◌∷◌, ◌++◌, List, length};
ghost use Rattle.disk.specs.declared.file_id.Folder.{Folder};
ghost use Rattle.gated_log.specs.Batches.{Bodies};
ghost use Rattle.cursor_store.specs.Behind.{is_due_at, counted_on, AreBehind, AreGrown, StayFew};
ghost use Rattle.cursor_store.specs.declared.told.Told.{Told};
ghost use Rattle.cursor_store.specs.declared.item.Item.{Item};
ghost use Rattle.cursor_store.specs.ItemBytes.{body_of_items};

/// Behind what an opening found, or a making left, stand no batches, and nothing is counted. From there on, as long as the slot
/// can be replaced, each append of records leaves behind that, or behind a snapshot, batches of fewer than 4,096 items and those
/// of its own batch; a trim is a snapshot. So that is what the next opening reads behind it.
pub fn few_records_are_behind()
    ensures begun { (bodies : Bodies) → AreBehind bodies bodies 0 0 }
    ensures stay { (folder : Folder) (entries : ℕ) (told : Told) (base old new : Bodies) (count last : ℕ) (can : Bool) (items : List Item) → AreBehind base old count last → AreGrown (is_due_at count can) folder entries told old new items → can ≡ true →
        StayFew (is_due_at count can) folder entries told base new (counted_on (is_due_at count can) count (length items)) (length items) }
{}
