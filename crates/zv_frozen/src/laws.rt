// What it means that a map is frozen.
ghost use Rattle.zv_frozen.specs.Laws.{KeyOfOnePair, KeyTested, NeverRefused, OneFrozen};
ghost use Rattle.zv_frozen.specs.Laws.{ThawedAlike};
ghost use Rattle.zv_frozen.specs.Placed.{PlacedTested};

use zv_fixed::ZeroSliceULE;
use zv_hash::laws::one_placement;
use zv_hashmap::laws::home_tables;

/// The key of two texts is that of no others. The frozen image of a map depends on its pairs alone.
/// A map that is thawed has for each pair of texts what the frozen image has, and of bytes within
/// the limit none of its pairs is refused. It does nothing.
pub fn laws()
    ensures tested { KeyTested }
    ensures keys { KeyOfOnePair }
    ensures one { OneFrozen }
    ensures thawed { ThawedAlike }
    ensures accepted { NeverRefused }
    ensures placed { PlacedTested }
{
    home_tables::<ZeroSliceULE<u8>>();
    one_placement();
}
