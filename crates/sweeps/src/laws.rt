ghost use Rattle.sweeps.specs.Making.{KeysFit};
ghost use Rattle.sweeps.specs.TakeLaws.{TakeLaws};

// Keys made from an inverse of the ring secret fit it, for every sweep: fitting keys exist.
pub fn made_keys_fit() -> u8
    ensures { KeysFit }
{
    0
}

// An accumulator taken by a start key is the accumulator under f, and taken by a selector its message times it, up to exact bounds.
pub fn taken_means() -> u8
    ensures { TakeLaws }
{
    0
}
