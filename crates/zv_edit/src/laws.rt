// What an edit leaves.
ghost use Rattle.zv_edit.specs.Laws.{LeftStands, SameEdits, WrittenBack};
ghost use Rattle.zv_edit.specs.Laws.{KeysAreTexts, NeverTooLarge};

/// The image that an edit ends with can be edited again: it stands for the map that the commands
/// left. Two images are those of one map exactly where an edit with no commands writes the same for
/// both. It does nothing.
pub fn laws()
    ensures texts { KeysAreTexts }
    ensures fits { NeverTooLarge }
    ensures left { LeftStands }
    ensures same { SameEdits }
    ensures again { WrittenBack }
{}
