//! Worked rows of fresh names, computed.
ghost use Rattle.std.specs.Prelude.{◌≡◌, [], ◌∷◌, ◌++◌, codes, decimal};
ghost use Rattle.fresh_names.specs.Tried.{answers};

/// The first name has one `_` and no number, then numbers follow from 2 on; each base has its own.
pub fn names_are_numbered()
    ensures first { answers [] (codes "a" ∷ codes "a" ∷ codes "a" ∷ []) ≡ codes "_a" ∷ (codes "_a" ++ decimal 2) ∷ (codes "_a" ++ decimal 3) ∷ [] }
    ensures apart { answers [] (codes "a" ∷ codes "b" ∷ codes "a" ∷ []) ≡ codes "_a" ∷ codes "_b" ∷ (codes "_a" ++ decimal 2) ∷ [] }
    ensures read { answers [] (codes "a" ∷ codes "__a7" ∷ codes "_a01" ∷ []) ≡ codes "_a" ∷ (codes "_a" ++ decimal 2) ∷ (codes "_a" ++ decimal 3) ∷ [] }
    ensures empty { answers [] (codes "_" ∷ codes "7" ∷ []) ≡ codes "_" ∷ (codes "_" ++ decimal 2) ∷ [] }
{}

/// They come behind the greatest that is taken: that of the most `_`, and of these the one of the greatest number.
pub fn names_come_behind_those_taken()
    ensures number { answers (codes "_a3" ∷ codes "_a2" ∷ []) (codes "a" ∷ []) ≡ (codes "_a" ++ decimal 4) ∷ [] }
    ensures underscores { answers (codes "__a" ∷ codes "_a9" ∷ []) (codes "a" ∷ []) ≡ (codes "__a" ++ decimal 2) ∷ [] }
    ensures past_the_greatest { answers (codes "_a4294967294" ∷ []) (codes "a" ∷ codes "a" ∷ []) ≡ (codes "_a" ++ decimal 4294967295) ∷ (codes "__a" ++ decimal 2) ∷ [] }
{}

/// A name that no fresh one can be counts for nothing.
pub fn other_names_count_for_nothing()
    ensures bare { answers (codes "a" ∷ codes "a2" ∷ []) (codes "a" ∷ []) ≡ codes "_a" ∷ [] }
    ensures numbers { answers (codes "_a0" ∷ codes "_a1" ∷ codes "_a02" ∷ codes "_a4294967296" ∷ []) (codes "a" ∷ []) ≡ codes "_a" ∷ [] }
{}
