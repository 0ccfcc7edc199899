ghost use Rattle.cases.specs.Worked.{Satisfied};

// Every worked case comes out as it is written.
pub fn worked_cases() -> u8
    ensures { Satisfied }
{
    0
}
