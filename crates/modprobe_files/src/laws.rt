//! The law of the files that count.
ghost use Rattle.std.specs.Prelude.{◌≡◌, ◌++◌, ◌∷◌, ℕ, List, false, true};
ghost use Rattle.std.specs.List.{flat_map};
ghost use Rattle.kmod_version.specs.declared.kmod.Kmod.{Kmod};
ghost use Rattle.modprobe_files.specs.Files.{File, Name, Source, candidates, counted, counted_files, folder, has_name, is_file};

/// A file has no influence if a source before it has one of its name (modprobe.d(5)): without it the same files count,
/// in the same order. The second clause says so of a name of a folder, and the third of one that leads to no file: to a
/// folder, or since kmod 34 to nothing.
pub fn hidden_files_do_not_count()
    ensures file { (before after : List File) (file : File) → has_name before file.name ≡ true
        → counted (before ++ file ∷ after) ≡ counted (before ++ after) }
    ensures name { (kmod : Kmod) (before after : List Source) (path : List ℕ) (name : Name) (names others : List Name)
        → has_name (flat_map (candidates kmod) before) name.text ≡ true
        → counted_files kmod (before ++ folder path (names ++ name ∷ others) ∷ after)
        ≡ counted_files kmod (before ++ folder path (names ++ others) ∷ after) }
    ensures no_file { (kmod : Kmod) (before after : List Source) (path : List ℕ) (name : Name) (names others : List Name)
        → is_file kmod name.leads_to ≡ false
        → counted_files kmod (before ++ folder path (names ++ name ∷ others) ∷ after)
        ≡ counted_files kmod (before ++ folder path (names ++ others) ∷ after) }
{}
