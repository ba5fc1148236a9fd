// What the definitions say of worked lists.
ghost use Rattle.std.specs.Prelude.{◌≡◌, ℕ, List};
ghost use Rattle.zv_hash.specs.Placement.{Chosen, IsStuck, Placed};
ghost use Rattle.zv_hash.specs.Rows.{EqualHashes, HigherFirst, IndexOfNone, IndexOfParts};
ghost use Rattle.zv_hash.specs.Rows.{IndexWraps, KeyHashes, LargerFirst, OneBucket, OneHash};
ghost use Rattle.zv_hash.specs.Rows.{SameSlot, SplitInThree, TenKeys, ThreeKeys};

/// The worked values of splitting and of the index.
#[tactic(auto, unfolding(crate::specs::Splitting::bucket_of, crate::specs::Splitting::slot_of))]
pub fn worked_indices()
    ensures split { SplitInThree }
    ensures index { IndexOfParts }
    ensures wraps { IndexWraps }
    ensures none { IndexOfNone }
{}

/// Placements that were worked out by hand, and by a model of the rules for the keys 0 to 9.
pub fn worked_placements()
    ensures one { OneHash }
    ensures equal { EqualHashes }
    ensures one_bucket { OneBucket }
    ensures higher_first { HigherFirst }
    ensures larger_first { LargerFirst }
    ensures same_slot { SameSlot }
    ensures key_hashes { KeyHashes }
    ensures three_keys { ThreeKeys }
    ensures ten_keys { TenKeys }
{}

/// Hashes have a placement or a bucket that is stuck, and never both:
///
/// - `none`: where a bucket is stuck, no displacements are those of a placement;
/// - `one`: one bucket alone is stuck.
pub fn stuck_bucket()
    ensures none { (hs : List ℕ) (ds : List (ℕ × ℕ)) (g : ℕ) → Chosen hs ds → IsStuck hs g → ⊥ }
    ensures one { (hs : List ℕ) (g h : ℕ) → IsStuck hs g → IsStuck hs h → g ≡ h }
{}

/// Hashes determine their placement: the displacements, and which hash is in which slot.
pub fn one_placement()
    ensures displacements { (hs : List ℕ) (ds es : List (ℕ × ℕ))
        → Chosen hs ds → Chosen hs es → ds ≡ es }
    ensures places { (hs : List ℕ) (ds : List (ℕ × ℕ)) (ps qs : List ℕ)
        → Chosen hs ds → Placed hs ds ps → Placed hs ds qs → ps ≡ qs }
{}
