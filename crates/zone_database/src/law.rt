//! A law of names, as the contract of a function.
ghost use Rattle.std.specs.Prelude.{◌≡◌, ◌≢◌, ◌==◌, ◌||◌, ℕ, List, true, slice_index};
ghost use Rattle.std.specs.List.{list_all};
ghost use Rattle.zone_database.specs.Names.{is_of_zone_name, is_zone_name};

/// A name stays in its folder: it has no dot and no NUL, since each byte is one of a name or a slash, and no slash stands in front.
pub fn a_name_stays_in_its_folder()
    ensures bytes { (name : List ℕ) → is_zone_name name ≡ true → list_all (λ c. is_of_zone_name c || (c == 47)) name ≡ true }
    ensures front { (name : List ℕ) → is_zone_name name ≡ true → slice_index name 0 ≢ 47 }
{}
