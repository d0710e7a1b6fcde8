ghost use Rattle.wires.specs.Examples.{Examples};

// The worked examples hold.
pub fn examples_stand()
    ensures { Examples }
{}
