//! Known values of files.
ghost use Rattle.std.specs.Prelude.{◌≡◌, true, false, pos, neg_ℤ, [], ◌∷◌, codes};
ghost use Rattle.zone_file.specs.Blocks.{are_counts, kind_count, leap_count, name_bytes, standard_count, time_count, trailer_length, ut_count};
ghost use Rattle.zone_file.specs.Kinds.{IsFileRow, IsKind};
ghost use Rattle.zone_file.specs.KnownFiles.{known_file, known_footer, known_header, known_kinds, known_names, known_times};
ghost use Rattle.zone_file.specs.ZoneFiles.{IsZoneFile, version_in};

/// States which numbers a header has where, in the order of RFC 9636, section 3.1, and which counts a file may have.
///
/// With times of eight bytes, three leap seconds, two indicators of standard time and one of UT fill 39 bytes.
pub fn known_headers()
    ensures version { version_in (known_header 1 2 3 4 5 6) ≡ 50 }
    ensures ut { ut_count (known_header 1 2 3 4 5 6) ≡ 1 }
    ensures standard { standard_count (known_header 1 2 3 4 5 6) ≡ 2 }
    ensures leap { leap_count (known_header 1 2 3 4 5 6) ≡ 3 }
    ensures times { time_count (known_header 1 2 3 4 5 6) ≡ 4 }
    ensures kinds { kind_count (known_header 1 2 3 4 5 6) ≡ 5 }
    ensures names { name_bytes (known_header 1 2 3 4 5 6) ≡ 6 }
    ensures trailer { trailer_length 8 (known_header 1 2 3 4 5 6) ≡ 39 }
    ensures right { are_counts (known_header 2 0 0 9 2 4) ≡ true }
    ensures no_kind { are_counts (known_header 0 0 0 9 0 4) ≡ false }
    ensures no_name { are_counts (known_header 0 0 0 9 2 0) ≡ false }
    ensures some_indicators { are_counts (known_header 0 1 0 9 2 4) ≡ false }
{}

/// States the parts of a whole file of version 2, with the offset, the daylight time and the name of its kind, and with its row.
///
/// Its first block has no time, and its second one: an hour before 1970 the clock is set an hour ahead of UTC.
pub fn known_files()
    ensures file { IsZoneFile known_file 50 known_times (0 ∷ []) known_kinds known_names known_footer }
    ensures kind { IsKind known_kinds known_names 0 (pos 3_600) true (codes "DST") }
    ensures row { IsFileRow 50 known_times (0 ∷ []) known_kinds 0 (record { second = neg_ℤ (pos 3_600); offset = pos 3_600 }) }
{}
