//! Laws of fresh names, each the contract of a function that does nothing.
ghost use Rattle.std.specs.Prelude.{◌≡◌, ◌++◌, ℕ, List, [], ◌∷◌, Some};
ghost use Rattle.std.specs.List.{Contains};
ghost use Rattle.fresh_names.specs.Uid.{Uid, uid_of, with_name, with_names, fresh_uid, fresh_name, with_fresh};
ghost use Rattle.fresh_names.specs.Fresh.{Call, Covers, known_after, names_of};

/// What `create` answers is none of the names that the generator was made of, whether they begin with `_` or not, none
/// that it was told since, and none that it answered before, whatever was called.
pub fn fresh_names_are_new()
    ensures { (taken : List (List ℕ)) (calls : List Call) (name : List ℕ) →
        let start = with_names taken [] in
        ¬ (Contains (taken ++ names_of calls start) (fresh_name name (known_after calls start))) }
{}

/// So each call keeps what is taken from being answered.
pub fn calls_keep_names_taken()
    ensures made { (taken : List (List ℕ)) → Covers (with_names taken []) taken }
    ensures told { (known : List Uid) (taken : List (List ℕ)) (name : List ℕ) → Covers known taken → Covers (with_name name known) (name ∷ taken) }
    ensures answered { (known : List Uid) (taken : List (List ℕ)) (name : List ℕ) → Covers known taken → Covers (with_fresh name known) (fresh_name name known ∷ taken) }
    ensures fresh { (known : List Uid) (taken : List (List ℕ)) (name : List ℕ) → Covers known taken → ¬ (Contains taken (fresh_name name known)) }
{}

/// A fresh name is read as it was made: with the base of the name that it is made after.
pub fn fresh_names_are_read_back()
    ensures { (known : List Uid) (taken : List (List ℕ)) (name : List ℕ) → Covers known taken → uid_of (fresh_name name known) ≡ Some (fresh_uid name known) }
{}
