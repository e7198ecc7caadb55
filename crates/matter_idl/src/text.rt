// A text that is short enough to be read.
ghost use Rattle.std.specs.Prelude.{◌≤◌, length};
ghost use Rattle.items.specs.layout.{text_limit};

#[derive(Clone, Copy)]
pub struct Text<'a> {
    pub bytes: &'a [u8],
    ghost fits: { length bytes.now ≤ text_limit },
}
