// The lent buffer with the place in it.
ghost use Rattle.std.specs.Prelude.{◌/◌, ◌≤◌, length};
ghost use Rattle.numbers.specs.Bytes.{width};

// A lent buffer, of which the first `at` numbers stand.
#[derive(Drop)]
pub struct Writer<'a> {
    pub out: &'a mut [u8],
    pub at: usize,
    pub ghost inside: { at ≤ length out.now / width },
}
