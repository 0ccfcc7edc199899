ghost use Rattle.std.specs.Prelude.{◌≡◌, length, replicate, pos};

// A number with a zero, whose copies are that zero.
pub trait Zero: Copy {
    const ZERO: Self;

    ghost ZERO: { Self };

    ghost can_copy: { Self.is_infallible ZERO };

    ghost copies: { (x : Self) → Self.is_clone ZERO x → x ≡ ZERO };
}

impl Zero for u16 {
    const ZERO: u16 = 0;

    ghost ZERO = { 0 };

    ghost can_copy = { tt };

    ghost copies = { λ x e. e };
}

impl Zero for u32 {
    const ZERO: u32 = 0;

    ghost ZERO = { 0 };

    ghost can_copy = { tt };

    ghost copies = { λ x e. e };
}

impl Zero for i64 {
    const ZERO: i64 = 0;

    ghost ZERO = { pos 0 };

    ghost can_copy = { tt };

    ghost copies = { λ x e. e };
}

// Work memory of numbers, all zeros once the guard is gone.
pub struct Wiped<'a, T: Zero> {
    pub words: &'a mut [T],
}

impl<T: Zero> Drop for Wiped<'_, T> {
    fn drop(self)
        ensures { self.exit.0.now ≡ replicate (length self.entry.words.now) T.ZERO }
    {
        self.words.fill(T::ZERO);
        let Wiped { words: _ } = self;
    }
}
