//! Where paths lead, which entries there are, and how paths are shown.
ghost use Rattle.std.specs.Prelude.{◌≡◌, [], ◌∷◌, Some, None, codes};
ghost use Rattle.login_demo.specs.Tree.{entry_at};
ghost use Rattle.login_demo.specs.Walking.{entered, walked};

use crate::tree::{Directory, Entry, File};

/// A name of a path, from a directory.
pub fn names_lead_so()
    ensures parent_of_the_root { entered [] (codes "..") ≡ [] }
    ensures three_dots { entered [] (codes "...") ≡ codes "..." ∷ [] }
    ensures hidden { entered [] (codes ".a") ≡ codes ".a" ∷ [] }
{}

/// A path, from a directory.
pub fn paths_lead_so()
    ensures absolute { walked (codes "a" ∷ []) (codes "/b") ≡ codes "b" ∷ [] }
    ensures dots { walked (codes "a" ∷ []) (codes "./../b/.") ≡ codes "b" ∷ [] }
    ensures above_the_root { walked [] (codes "../../a") ≡ codes "a" ∷ [] }
{}

/// Names of an entry, with their case, and names of none.
pub fn entries_are_found_so()
    ensures file { entry_at (codes "pub" ∷ codes "readme.txt" ∷ [])
        ≡ Some (Entry.File File.Readme) }
    ensures other_case { entry_at (codes "Pub" ∷ []) ≡ None }
    ensures longer { entry_at (codes "pub" ∷ codes "readme.txt" ∷ codes "a" ∷ []) ≡ None }
    ensures joined { entry_at (codes "pub/notes" ∷ []) ≡ None }
{}
