ghost use Rattle.std.specs.Prelude.{◌≤◌, vec_len, vec_capacity};

// The line that is being read: its first 125 characters, for what comes after them changes no answer.
#[derive(Drop)]
pub struct LineBuffer {
    pub(crate) text: Vec<u8>,
    ghost room: { 125 ≤ vec_capacity text },
    ghost few: { vec_len text ≤ 125 },
}
