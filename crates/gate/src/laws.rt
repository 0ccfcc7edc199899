ghost use Rattle.gate.specs.Laws.{BitLaws, PhaseLaws};
ghost use Rattle.gate.specs.Lengths.{LengthsLeast};

// A stage's or a gate's answer is the least of the faults that are true of the lengths it was handed.
pub fn lengths_are_least() -> u8
    ensures { LengthsLeast }
{
    0
}

// Words hold one bit at most; holding is told, opened, sealed and inverted.
pub fn bit_laws() -> u8
    ensures { BitLaws }
{
    0
}

// The phase after each stage.
pub fn phase_laws() -> u8
    ensures { PhaseLaws }
{
    0
}
