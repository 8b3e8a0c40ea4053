// Laws of catalogs.
ghost use Rattle.std.specs.Prelude.{◌≡◌, ℕ};
ghost use Rattle.disk.specs.Disk.{Image};
ghost use Rattle.disk.specs.Areas.{Agree};
ghost use Rattle.gated_log.specs.declared.refusal.Refusal.{Refusal};
ghost use Rattle.catalog.specs.Names.{Names};
ghost use Rattle.catalog.specs.Catalogs.{Own, StandsFor};
ghost use Rattle.catalog.specs.Folded.{IsFault};

/// A file stands for one number and one list of names.
pub fn catalog_stands_for_one_list()
    ensures { (number other : ℕ) (image : Image) (names others : Names) → StandsFor number image names → StandsFor other image others → (number ≡ other) × (names ≡ others) }
{}

/// What the catalog's file stands for is known from it alone.
pub fn catalog_is_its_own_file()
    ensures { (number : ℕ) (a b : Image) (names : Names) → Agree Own a b → StandsFor number a names → StandsFor number b names }
{}

/// The file has one first fault.
pub fn catalog_has_one_fault()
    ensures { (image : Image) (one other : Refusal) → IsFault image one → IsFault image other → one ≡ other }
{}

/// And where it stands for names it has none.
pub fn catalog_has_no_fault()
    ensures { (number : ℕ) (image : Image) (names : Names) (refusal : Refusal) → StandsFor number image names → ¬ IsFault image refusal }
{}
