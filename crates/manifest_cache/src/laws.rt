//! What follows for the trees that are kept. A caller has a law by a call of its function, which does nothing when it
//! runs.
ghost use Rattle.std.specs.Prelude.{◌≡◌, ◌≤◌, ◌<◌, ◌⊎◌, ℕ, Contains, IsTrue, length};
ghost use Rattle.plain_model.specs.Trees.{Tree};
ghost use Rattle.plain_model.specs.declared.limit.TheConstants.{MAX_KEPT_TREES};
ghost use Rattle.manifest_cache.specs.Kept.{Kept, is_kept, used};

/// The commit whose tree was used is kept, no other entry is new, and of at most 64 entries at most one leaves, and
/// that only where there were 64.
pub fn a_used_tree_is_kept()
    ensures own { (c : ℕ) (t : Tree) (kept : Kept) → IsTrue (is_kept (used c t kept) c) }
    ensures none_new { (c : ℕ) (t : Tree) (kept : Kept) (k : ℕ × Tree) →
        Contains (used c t kept) k → (k ≡ (c, t)) ⊎ Contains kept k }
    ensures one_leaves { (c : ℕ) (t : Tree) (kept : Kept) → length kept ≤ MAX_KEPT_TREES →
        (gone : ℕ × Tree) × ((k : ℕ × Tree) → Contains kept k →
        (k.0 ≡ c) ⊎ (Contains (used c t kept) k ⊎ (k ≡ gone))) }
    ensures room { (c : ℕ) (t : Tree) (kept : Kept) (k : ℕ × Tree) → length kept < MAX_KEPT_TREES →
        Contains kept k → (k.0 ≡ c) ⊎ Contains (used c t kept) k }
{}
