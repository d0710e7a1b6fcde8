ghost use Rattle.std.specs.Prelude.{◌≡◌};
ghost use Rattle.answers.specs.Answers.{layer_number};

// The layer that refuses a line: the text, the turn of its frame, or the house.
#[derive(Clone, Copy, PartialEq, Eq, Debug)]
pub enum Layer {
    Text = 1,
    Turn = 2,
    House = 3,
}

// The number of a layer.
impl From<Layer> for u8 {
    ghost from_gives = { λ layer number. number ≡ layer_number layer };

    fn from(layer: Layer) -> u8 {
        layer as u8
    }
}
