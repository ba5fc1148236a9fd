//! The laws of room, as the contract of a function that does nothing.
ghost use Rattle.zv_map2d.specs.Laws.{LeavesOwned, LeavesReady, RoomForFirst};
ghost use Rattle.zv_map2d.specs.Laws.{RoomForSecond};

/// Room for two puts is room for the first, and what that one leaves is room for the second; and
/// after a put or a removal in such room each vector is the map's own, and ready if it was. It does
/// nothing.
pub fn room()
    ensures first { RoomForFirst }
    ensures second { RoomForSecond }
    ensures owned { LeavesOwned }
    ensures ready { LeavesReady }
{}
