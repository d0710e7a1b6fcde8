// The memory that one book lies over.
ghost use Rattle.std.specs.Prelude.{◌≡◌, vec_len};

// A buffer of so many elements.
#[derive(Drop)]
pub struct Buffer<T, const N: usize> {
    pub(crate) elements: Vec<T>,
    ghost long: { vec_len elements ≡ N },
}
