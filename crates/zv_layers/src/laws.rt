// What it means that no overlay is refused within the limit.
ghost use Rattle.zv_layers.specs.Laws.{NeverRefused};

/// Of the images of an input within the limit no overlay is refused. It does nothing.
pub fn laws()
    ensures accepted { NeverRefused }
{}
