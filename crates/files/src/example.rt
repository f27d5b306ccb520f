// Files written out, with what they mean.
ghost use Rattle.std.specs.Prelude.{◌≡◌, [], ◌∷◌, pos, negsuc, Ok, Err, slice_set};
ghost use Rattle.rules.specs.declared.faults.Cause.TheVariants.{Width as BadWidth, Entry as BadEntry};
ghost use Rattle.rules.specs.declared.kinds.Side.TheVariants.{Odd};
ghost use Rattle.rules.specs.declared.kinds.Kind.TheVariants.{Clause};
ghost use Rattle.rules.specs.Entries.{rule_of};
ghost use Rattle.rules.specs.Constraints.{parity};
ghost use Rattle.files.specs.FirstFormat.{first_year};
ghost use Rattle.files.specs.ThirdFormat.{third_year};
ghost use Rattle.sheets.specs.Tables.{over};
ghost use Rattle.files.specs.Files.{file_fault, file};

// A third-year file: of the three switches an odd number is on. With 4 for its last switch, the entry at byte 12 names none of the three.
pub fn odd_of_three() -> [u8; 18]
    ensures means { file third_year result ≡ Ok (over 3 (parity (1 ∷ 2 ∷ 3 ∷ []) Odd ∷ [])) }
    ensures outside { file third_year (slice_set result 12 4) ≡ Err (file_fault BadEntry 0 12) }
{
    *b"F3\x03\0PA\x03\x01\x01\0\x02\0\x03\0EN\x01\0"
}

// A first-year file: the first switch is on or the second is off. With its last slot filled, the slot at byte 20 follows an empty one.
pub fn first_or_not_second() -> [u8; 26]
    ensures means { file first_year result ≡ Ok (over 2 (rule_of Clause (pos 1 ∷ negsuc 1 ∷ []) ∷ [])) }
    ensures gap { file first_year (slice_set result 20 1) ≡ Err (file_fault BadWidth 0 20) }
{
    *b"F1\x02\0CL\x01\0\xFE\xFF\0\0\0\0\0\0\0\0\0\0\0\0EN\x01\0"
}
