ghost use Rattle.std.specs.Prelude.{◌≡◌};
ghost use Rattle.image.specs.Parts.{bytes_of};

// A part of an image, with its own bytes.
#[derive(Clone, Copy)]
pub enum Part<'a> {
    Set(&'a [u8]),
    Start(&'a [u8]),
    Selectors(&'a [u8]),
    Rows(&'a [u8]),
}

// The four parts of an image, in order.
#[derive(Clone, Copy)]
pub struct Parts<'a> {
    pub set: Part<'a>,
    pub start: Part<'a>,
    pub selectors: Part<'a>,
    pub rows: Part<'a>,
}

impl<'a> Part<'a> {
    // The bytes of a part.
    pub fn bytes(self) -> &'a [u8]
        ensures { result.now ≡ bytes_of self.entry }
    {
        match self {
            Part::Set(bytes) => bytes,
            Part::Start(bytes) => bytes,
            Part::Selectors(bytes) => bytes,
            Part::Rows(bytes) => bytes,
        }
    }
}
