ghost use Rattle.transform.specs.Order.{EachOddOnce};
ghost use Rattle.transform.specs.Reads.{Interpolates};

// The places of a form go through the odd numbers below 2 N, each once.
pub fn places_are_odd_numbers() -> u8
    ensures { EachOddOnce }
{
    0
}

// A form reads as the polynomial that has its words as values: one sum for each coefficient, with no stages.
pub fn reading_interpolates() -> u8
    ensures { Interpolates }
{
    0
}
