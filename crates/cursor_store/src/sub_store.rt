// The store of a topic's durable subscriptions.
ghost use Rattle.std.specs.Prelude.{◌≡◌, ◌⊎◌, ◌<◌, ◌≤◌, ◌^◌, ◌↔◌, ◌++◌, [], ◌∷◌, List, ℕ, Bool, true, false, length, IfOk, IfErr, OnOk, IsOk, IsErr, IsErrOf, IsTrue, option_copied, is_some, ◌&&◌, ◌+◌, nat_lt, if◌then◌else◌, map as each};
ghost use Rattle.std.specs.List.{AllByRecursion};
ghost use Rattle.std.specs.FinMap as map;
ghost use Rattle.records.specs.Names.{is_subscription_name};
ghost use Rattle.records.specs.declared.kept_cursor.KeptCursor.{KeptCursor as Cursor};
ghost use Rattle.disk.specs.declared.file_id.TopicId.{TopicId};
ghost use Rattle.disk.specs.declared.file_id.FileId.{FileId};
ghost use Rattle.disk.specs.Disk.{Disk, Image, Same, Leaves, Kept as Counted, Failed};
ghost use Rattle.disk.specs.Areas.{Agree, Within};
ghost use Rattle.records.specs.declared.record.Record.{Record};
ghost use Rattle.gated_log.specs.declared.start.Start.{Start as Begins};
ghost use Rattle.gated_log.specs.Starts.{untrimmed};
ghost use Rattle.cursor_store.specs.declared.item.Item.{Item};
ghost use Rattle.records.specs.Floors.{StartFrom};
ghost use Rattle.cursor_store.specs.Items.{FitsLedger, told_of};
ghost use Rattle.records.specs.Maps.{Kept};
ghost use Rattle.records.specs.Records.{AreFormed, after_all};
ghost use Rattle.records.specs.Bytes.{body_of};
ghost use Rattle.gated_log.specs.declared.refusal.Refusal.{Refusal};
ghost use Rattle.gated_log.specs.Batches.{Bodies};
ghost use Rattle.two_slot.specs.Slots.{SlotsOf};
ghost use Rattle.cursor_store.specs.Fronts.{AreSynced};
ghost use Rattle.cursor_store.specs.Trimming.{HasGeneration, IsTrimIf, IsKeptBehind};
ghost use Rattle.cursor_store.specs.ItemBytes.{Means};
ghost use Rattle.cursor_store.specs.Behind.{is_due_at, counted_on, AreGrown};
ghost use Rattle.disk.specs.Contents.{Steady, Appends};

use disk::{DeviceError, Shelf, TopicId};
use gated_log::{PrepareError, Refusal, Start};
use records::{KeptCursor, Record};
use std::alloc::{AllocError, Global};

/// A map from the name of a subscription to the set of its acknowledged positions, and where the topic's ledger begins. It
/// outlives a crash: an append adds all its records or none. An append has two parts. The first builds in memory and takes all the memory there is to take,
/// the second only writes. Positions are those of a ledger, of whose length what is of its form depends.
pub trait SubStore: Drop {
    /// What an opening reads first: the heads of its files, and where these say that the ledger begins.
    type Heads: Drop;

    /// What an append writes, and what the store then keeps.
    type Prepared: Drop;

    /// What a trim writes, and where the ledger then begins.
    type PreparedTrim: Drop;

    /// The topic whose subscriptions it has.
    ghost topic_of: { Self → TopicId };

    /// The files of the store of a topic.
    ghost area: { TopicId → FileId → Type 0 };

    /// What these files alone stand for, beside a ledger of so many entries: whoever opens them finds where it begins, and these
    /// subscriptions.
    ghost stands: { TopicId → ℕ → Begins → Image → Kept → Type 0 };

    /// Why these files alone are refused, beside a ledger of so many entries: the first fault in them.
    ghost faulty: { TopicId → ℕ → Image → Refusal → Type 0 };

    /// Where these files alone say that the ledger begins, as far as they can be read without it.
    ghost begins: { TopicId → Image → Begins → Type 0 };

    /// The topic of whose files these are the heads.
    ghost topic_of_heads: { Self.Heads → TopicId };

    /// Where these files say that the ledger begins.
    ghost start_of_heads: { Self.Heads → Begins };

    /// They are the heads of the files of its topic.
    ghost has_heads: { Self.Heads → Image → Type 0 };

    /// The store works, and the files hold where the ledger of so many entries begins, and these subscriptions, just as it
    /// remembers them.
    ghost holds: { Self → ℕ → Begins → Image → Kept → Type 0 };

    /// Where the ledger begins, as it remembers it; also after a failure the old one.
    ghost start_of: { Self → Begins };

    /// The subscriptions that it remembers; also after a failure the old ones.
    ghost content: { Self → Kept };

    /// The bodies in its files, as many as it remembers.
    ghost written: { Self → Image → Bodies };

    /// How many records were appended since the store was made, opened or written anew, but no more than 4,096.
    ghost counted: { Self → ℕ };

    /// What is kept can be written anew once more.
    ghost can_replace: { Self → Bool };

    /// For how many replaces there is a generation.
    ghost replaces_left: { Self → ℕ };

    /// An append failed. It refuses until it is opened again.
    ghost failed: { Self → Bool };

    /// This was prepared by the store, for these records.
    ghost is_for: { Self → Self.Prepared → List Record → Type 0 };

    /// This was prepared to say that a ledger, which begins at the one start, begins at the other from then on, with what is kept.
    ghost trims: { Self.PreparedTrim → Begins → Kept → Begins → Type 0 };

    /// Makes a store without subscriptions, whatever was in its files, with eight device calls. Takes no memory. Until the
    /// `Ok` a crash may leave anything of these files.
    fn create<S: Shelf>(alloc: Global, shelf: &mut S, topic: TopicId) -> Result<Self, DeviceError>
        ensures created { (entries : ℕ) → (S.disk shelf.old).honest → IfOk result (λ store. Steady (holds store entries untrimmed) (written store) (S.disk shelf.new) map.empty) }
        ensures topic { IfOk result (λ store. topic_of store ≡ topic) }
        ensures start { IfOk result (λ store. start_of store ≡ untrimmed) }
        ensures content { IfOk result (λ store. content store ≡ map.empty) }
        ensures counted { IfOk result (λ store. counted store ≡ 0) }
        ensures works { IfOk result (λ store. failed store ≡ false) }
        ensures others { (S.disk shelf.old).honest → Within (area topic) (λ c. Unit {0}) (S.disk shelf.old) (S.disk shelf.new) }
        ensures cause { IsErr result → Failed (S.disk shelf.old) (S.disk shelf.new) }
        ensures kept { Counted (S.disk shelf.old) (S.disk shelf.new) };

    /// Opens the store of a topic whose ledger has so many entries, whatever a crash left of its files. They are synced
    /// first, so what is read stays, and read once.
    fn open<S: Shelf>(
        alloc: Global,
        shelf: &mut S,
        topic: TopicId,
        entries: u64,
    ) -> Result<Self, Refusal>
        requires { entries ≤ 2 ^ 62 }
        ensures opened { (S.disk shelf.old).honest → IfOk result (λ store. Steady (holds store entries (start_of store)) (written store) (S.disk shelf.new) (content store)) }
        // Or the first fault that stands in the files is told.
        ensures refused { (S.disk shelf.old).honest → IfErr result (λ e. (e ≡ Refusal.NoMemory) ⊎ ((e ≡ Refusal.Device) ⊎ faulty topic entries (S.disk shelf.old).seen e)) }
        ensures topic { IfOk result (λ store. topic_of store ≡ topic) }
        ensures counted { IfOk result (λ store. counted store ≡ 0) }
        ensures works { IfOk result (λ store. failed store ≡ false) }
        ensures cause { IsErrOf result Refusal.Device → Failed (S.disk shelf.old) (S.disk shelf.new) }

        // What reads give stays, but of a file whose sync failed.
        ensures seen { (S.disk shelf.old).honest → ¬ IsErrOf result Refusal.Device → Same (S.disk shelf.old).seen (S.disk shelf.new).seen }
        ensures others { (S.disk shelf.old).honest → Agree (λ f. ¬ area topic f) (S.disk shelf.old).seen (S.disk shelf.new).seen }
        // A crash at any moment leaves what it might have left before.
        ensures any_moment { (S.disk shelf.old).honest → Leaves (S.disk shelf.old).may_leave (S.disk shelf.old) (S.disk shelf.new) }
        ensures kept { Counted (S.disk shelf.old) (S.disk shelf.new) };

    /// Begins to open the store of a topic whose ledger isn't read yet, whatever a crash left of its files. They are synced first,
    /// so what is read stays. No fault in them is told here.
    fn begin<S: Shelf>(alloc: Global, shelf: &mut S, topic: TopicId) -> Result<Self::Heads, Refusal>
        ensures begun { (S.disk shelf.old).honest → IfOk result (λ heads. has_heads heads (S.disk shelf.new).seen) }
        ensures synced { (S.disk shelf.old).honest → IsOk result → AreSynced (area topic) (S.disk shelf.new) }
        ensures topic { IfOk result (λ heads. topic_of_heads heads ≡ topic) }
        ensures refused { IfErr result (λ e. (e ≡ Refusal.NoMemory) ⊎ (e ≡ Refusal.Device)) }
        ensures cause { IsErrOf result Refusal.Device → Failed (S.disk shelf.old) (S.disk shelf.new) }

        // What reads give stays, but of a file whose sync failed.
        ensures seen { (S.disk shelf.old).honest → ¬ IsErrOf result Refusal.Device → Same (S.disk shelf.old).seen (S.disk shelf.new).seen }
        ensures others { (S.disk shelf.old).honest → Agree (λ f. ¬ area topic f) (S.disk shelf.old).seen (S.disk shelf.new).seen }
        // A crash at any moment leaves what it might have left before.
        ensures any_moment { (S.disk shelf.old).honest → Leaves (S.disk shelf.old).may_leave (S.disk shelf.old) (S.disk shelf.new) }
        ensures kept { Counted (S.disk shelf.old) (S.disk shelf.new) };

    /// Where the ledger begins, as these heads say.
    fn begins_at(heads: &Self::Heads) -> Start
        ensures { result ≡ start_of_heads heads.now };

    /// Goes on with an opening that has begun, beside a ledger of so many entries.
    fn open_from<S: Shelf>(
        alloc: Global,
        shelf: &mut S,
        heads: &Self::Heads,
        entries: u64,
    ) -> Result<Self, Refusal>
        requires { entries ≤ 2 ^ 62 }
        ensures opened { (S.disk shelf.old).honest → has_heads heads.now (S.disk shelf.old).seen → AreSynced (area (topic_of_heads heads.now)) (S.disk shelf.old) → IfOk result (λ store. Steady (holds store entries (start_of store)) (written store) (S.disk shelf.new) (content store)) }
        // The ledger begins where it was said.
        ensures start { (S.disk shelf.old).honest → has_heads heads.now (S.disk shelf.old).seen → AreSynced (area (topic_of_heads heads.now)) (S.disk shelf.old) → IfOk result (λ store. start_of store ≡ start_of_heads heads.now) }
        // Or the first fault that stands in the files is told.
        ensures refused { (S.disk shelf.old).honest → has_heads heads.now (S.disk shelf.old).seen → AreSynced (area (topic_of_heads heads.now)) (S.disk shelf.old) → IfErr result (λ e. (e ≡ Refusal.NoMemory) ⊎ ((e ≡ Refusal.Device) ⊎ faulty (topic_of_heads heads.now) entries (S.disk shelf.old).seen e)) }
        ensures topic { IfOk result (λ store. topic_of store ≡ topic_of_heads heads.now) }
        ensures counted { IfOk result (λ store. counted store ≡ 0) }
        ensures works { IfOk result (λ store. failed store ≡ false) }
        ensures cause { IsErrOf result Refusal.Device → Failed (S.disk shelf.old) (S.disk shelf.new) }
        ensures seen { (S.disk shelf.old).honest → Same (S.disk shelf.old).seen (S.disk shelf.new).seen }
        ensures any_moment { (S.disk shelf.old).honest → Leaves (S.disk shelf.old).may_leave (S.disk shelf.old) (S.disk shelf.new) }
        ensures kept { Counted (S.disk shelf.old) (S.disk shelf.new) };

    /// The topic whose subscriptions it has.
    fn topic(&self) -> TopicId
        ensures { result ≡ topic_of self.now };

    /// Where the ledger begins.
    fn start(&self) -> Start
        ensures { result ≡ start_of self.now };

    /// Whether an append failed since the store was opened.
    fn is_failed(&self) -> bool
        ensures { result ≡ failed self.now };

    /// What it remembers, with sets of their own, in the order of the names' bytes.
    fn kept(&self) -> Result<Vec<KeptCursor>, AllocError>
        ensures kept { IfOk result (λ cursors. each (λ (c : Cursor). (c.name, c.acked)) cursors.items ≡ map.entries (content self.now)) }
        ensures few { IfOk result (λ cursors. length cursors.items ≤ 64) }
        ensures named { IfOk result (λ cursors. AllByRecursion (λ c. is_subscription_name c.name ≡ true) cursors.items) };

    /// Whether these records are of their form beside what it remembers and a ledger of so many entries, each at its place
    /// behind the ones before it, and none makes a subscription that begins before the ledger does. Takes no memory.
    fn fits(&self, records: &[Record], entries: u64) -> bool
        ensures { IsTrue result ↔ (AreFormed entries (content self.now) records.now × StartFrom (start_of self.now).base records.now) };

    /// Builds what an append of these records writes, and what the store keeps after it; and what is kept before it, where that
    /// is first written anew: exactly where the count has come to 4,096 and it can be. Reaches no device.
    fn prepare(&mut self, records: &[Record]) -> Result<Self::Prepared, PrepareError>
        requires some { 0 < length records.now }
        requires formed { AreFormed (2 ^ 62) (content self.old) records.now }
        ensures prepared { IfOk result (λ prepared. is_for self.new prepared records.now) }
        ensures holds_still { (entries : ℕ) (start : Begins) (c : Image) (kept : Kept) → holds self.old entries start c kept → holds self.new entries start c kept }
        ensures written { (c : Image) → written self.new c ≡ written self.old c }
        ensures start { start_of self.new ≡ start_of self.old }
        ensures content { content self.new ≡ content self.old }
        ensures topic { topic_of self.new ≡ topic_of self.old }
        // Whatever it answers, the next append goes the way that this one would.
        ensures counted { counted self.new ≡ counted self.old }
        ensures can_replace { can_replace self.new ≡ can_replace self.old }
        ensures replaces_left { replaces_left self.new ≡ replaces_left self.old }
        ensures failed { failed self.new ≡ failed self.old }
        ensures too_large { IsErrOf result PrepareError.TooLarge ↔ (33554432 < length (body_of records.now)) };

    /// Writes what was prepared. Device calls alone: four, and six before them where what is kept is first written anew. After
    /// an error the store is failed: each later append answers it without a device call.
    fn append_prepared<S: Shelf>(
        &mut self,
        shelf: &mut S,
        prepared: Self::Prepared,
    ) -> Result<(), DeviceError>
        // A crash at any moment of the call leaves all the records or none, and other files as they were.
        ensures appends { (entries : ℕ) (start : Begins) (kept : Kept) (records : List Record) → is_for self.old prepared records → AreFormed entries kept records → StartFrom start.base records → Steady (holds self.old entries start) (written self.old) (S.disk shelf.old) kept →
            Appends result (Steady (holds self.new entries start) (written self.new)) (λ c. content self.new) (area (topic_of self.old)) (stands (topic_of self.old) entries start) (S.disk shelf.old) (S.disk shelf.new) kept (after_all records kept) }

        ensures start { start_of self.new ≡ start_of self.old }
        ensures content { (records : List Record) → is_for self.old prepared records → OnOk result (content self.new ≡ after_all records (content self.old)) }
        // A replace that is due takes a generation.
        ensures replaces_left { (records : List Record) → is_for self.old prepared records →
            OnOk result ((if is_due_at (counted self.old) (can_replace self.old) then replaces_left self.new + 1 else replaces_left self.new) ≡ replaces_left self.old) }
        // A body more is written, behind what was there or behind bodies that tell what was told; and its records are counted.
        ensures grows { (entries : ℕ) (start : Begins) (kept : Kept) (records : List Record) → is_for self.old prepared records → Steady (holds self.old entries start) (written self.old) (S.disk shelf.old) kept →
            OnOk result (AreGrown (is_due_at (counted self.old) (can_replace self.old)) (topic_of self.old).folder entries (told_of start kept) (written self.old (S.disk shelf.old).seen) (written self.new (S.disk shelf.new).seen) (each Item.Change records)) }
        ensures counted { (records : List Record) → is_for self.old prepared records → OnOk result (counted self.new ≡ counted_on (is_due_at (counted self.old) (can_replace self.old)) (counted self.old) (length records)) }
        ensures topic { topic_of self.new ≡ topic_of self.old }
        ensures works { OnOk result (failed self.new ≡ false) }
        ensures failed { IsErr result → failed self.new ≡ true }
        ensures remembered { IsErr result → content self.new ≡ content self.old }
        ensures stays_failed { failed self.old ≡ true → IsErr result × (shelf.new ≡ shelf.old) }
        ensures cause { failed self.old ≡ false → IsErr result → Failed (S.disk shelf.old) (S.disk shelf.new) }
        ensures kept { Counted (S.disk shelf.old) (S.disk shelf.new) };

    /// Builds what says that the ledger begins there, after what was prepared, if anything was; none where it may not: before
    /// where it does, past a position that a subscription then lacks, or from a segment past 2^62. Reaches no device.
    fn prepare_trim(
        &self,
        prepared: Option<&Self::Prepared>,
        start: Start,
    ) -> Result<Option<Self::PreparedTrim>, PrepareError>
        ensures prepared { (kept : Kept) → IsKeptBehind (is_for self.now) (content self.now) (option_copied prepared.entry) kept → IfOk result (λ trim. IsTrimIf trims (HasGeneration (is_some prepared.entry && is_due_at (counted self.now) (can_replace self.now)) (replaces_left self.now)) trim (start_of self.now) kept start) }
        ensures fits { ¬ IsErrOf result PrepareError.TooLarge };

    /// The ledger begins there from now on: what is kept is written anew, beside that. Device calls alone: six. After an error the
    /// store is failed: each later append answers it without a device call.
    fn trim<S: Shelf>(
        &mut self,
        shelf: &mut S,
        prepared: Self::PreparedTrim,
    ) -> Result<(), DeviceError>
        requires { 0 < replaces_left self.old }
        // A crash at any moment of the call leaves the old start or this one, with what is kept, and other files as they were.
        ensures trims { (entries : ℕ) (from start : Begins) (kept : Kept) → trims prepared from kept start → start.base ≤ entries → Steady (holds self.old entries from) (written self.old) (S.disk shelf.old) kept →
            Appends result (λ d s. Steady (holds self.new entries s) (written self.new) d kept) (λ c. start_of self.new) (area (topic_of self.old)) (λ image s. stands (topic_of self.old) entries s image kept) (S.disk shelf.old) (S.disk shelf.new) from start }

        ensures start { (from start : Begins) (kept : Kept) → trims prepared from kept start → OnOk result (start_of self.new ≡ start) }
        // Bodies that tell what is kept are written in the place of all.
        ensures anew { (entries : ℕ) (from start : Begins) (kept : Kept) → trims prepared from kept start → start.base ≤ entries → Steady (holds self.old entries from) (written self.old) (S.disk shelf.old) kept →
            OnOk result (Means entries start (written self.new (S.disk shelf.new).seen) kept) }
        ensures counted { OnOk result (counted self.new ≡ 0) }
        ensures content { content self.new ≡ content self.old }
        ensures topic { topic_of self.new ≡ topic_of self.old }
        ensures works { OnOk result (failed self.new ≡ false) }
        ensures failed { IsErr result → failed self.new ≡ true }
        ensures remembered { IsErr result → start_of self.new ≡ start_of self.old }
        ensures stays_failed { failed self.old ≡ true → IsErr result × (shelf.new ≡ shelf.old) }
        ensures cause { failed self.old ≡ false → IsErr result → Failed (S.disk shelf.old) (S.disk shelf.new) }
        ensures kept { Counted (S.disk shelf.old) (S.disk shelf.new) };

    // What is kept can be written anew where there is a generation for it.
    ghost replaces: { (store : Self) → can_replace store ≡ nat_lt 0 (replaces_left store) };

    // The store works where it holds subscriptions, and what it holds is what it remembers.
    ghost holds_works: { (store : Self) (entries : ℕ) (start : Begins) (image : Image) (kept : Kept) → holds store entries start image kept → failed store ≡ false };

    ghost holds_start: { (store : Self) (entries : ℕ) (start : Begins) (image : Image) (kept : Kept) → holds store entries start image kept → start_of store ≡ start };

    ghost holds_content: { (store : Self) (entries : ℕ) (start : Begins) (image : Image) (kept : Kept) → holds store entries start image kept → content store ≡ kept };

    ghost holds_stands: { (store : Self) (entries : ℕ) (start : Begins) (image : Image) (kept : Kept) → holds store entries start image kept → stands (topic_of store) entries start image kept };

    // Its files stand for one start and one map of subscriptions, which fit the ledger; and a longer ledger changes nothing.
    ghost stands_one: { (t : TopicId) (entries : ℕ) (start start' : Begins) (image : Image) (one other : Kept) → entries ≤ 2 ^ 62 → stands t entries start image one → stands t entries start' image other → (start ≡ start') × (one ≡ other) };

    ghost stands_fits: { (t : TopicId) (entries : ℕ) (start : Begins) (image : Image) (kept : Kept) → stands t entries start image kept → FitsLedger entries (told_of start kept) };

    ghost stands_longer: { (t : TopicId) (entries more : ℕ) (start : Begins) (image : Image) (kept : Kept) → entries ≤ more → stands t entries start image kept → stands t more start image kept };

    ghost holds_longer: { (store : Self) (entries more : ℕ) (start : Begins) (image : Image) (kept : Kept) → entries ≤ more → holds store entries start image kept → holds store more start image kept };

    // Without the ledger its files say one start, and where they stand for something, that one.
    ghost begins_one: { (t : TopicId) (image : Image) (one other : Begins) → begins t image one → begins t image other → one ≡ other };

    ghost begins_stands: { (t : TopicId) (entries : ℕ) (start said : Begins) (image : Image) (kept : Kept) → entries ≤ 2 ^ 62 → stands t entries start image kept → begins t image said → said ≡ start };

    ghost begins_local: { (t : TopicId) (a b : Image) (start : Begins) → Agree (area t) a b → begins t a start → begins t b start };

    // The heads say it, too.
    ghost heads_begin: { (heads : Self.Heads) (image : Image) → has_heads heads image → begins (topic_of_heads heads) image (start_of_heads heads) };

    ghost heads_local: { (heads : Self.Heads) (a b : Image) → Agree (area (topic_of_heads heads)) a b → has_heads heads a → has_heads heads b };

    // Its files have one first fault, and where they stand for subscriptions they have none.
    ghost faulty_one: { (t : TopicId) (entries : ℕ) (image : Image) (one other : Refusal) → faulty t entries image one → faulty t entries image other → one ≡ other };

    ghost stands_sound: { (t : TopicId) (entries : ℕ) (start : Begins) (image : Image) (kept : Kept) (refusal : Refusal) → stands t entries start image kept → ¬ faulty t entries image refusal };

    // It looks at its own files alone, which are slots.
    ghost area_slots: { (t : TopicId) (f : FileId) → area t f → SlotsOf t f };

    ghost stands_local: { (t : TopicId) (entries : ℕ) (start : Begins) (a b : Image) (kept : Kept) → Agree (area t) a b → stands t entries start a kept → stands t entries start b kept };

    ghost holds_local: { (store : Self) (entries : ℕ) (start : Begins) (a b : Image) (kept : Kept) → Agree (area (topic_of store)) a b → holds store entries start a kept → holds store entries start b kept };

    ghost written_local: { (store : Self) (a b : Image) → Agree (area (topic_of store)) a b → written store b ≡ written store a };
}
