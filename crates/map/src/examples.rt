// Worked examples, shown of the rules themselves.
ghost use Rattle.map.specs.Examples.{MapExamples};

/// Every worked example of this layer and of the layer below it.
pub fn map_examples_hold()
    ensures { MapExamples }
{}
