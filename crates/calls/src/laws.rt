ghost use Rattle.calls.specs.Alike.{WordsDecideNothing};
ghost use Rattle.calls.specs.Both.{AllOrdersAreCalls};
ghost use Rattle.calls.specs.Followed.{PlainFollows};
ghost use Rattle.calls.specs.Held.{BitsHeld};
ghost use Rattle.calls.specs.Lists.{EveryList, EveryGateless};

// The machine of plain bits answers every call as the file does, and the same registers stay filled.
pub fn plain_follows() -> u8
    ensures { PlainFollows }
{
    0
}

// Filled registers hold their plain bits, with noise at most β, and so does what is read.
pub fn bits_are_held() -> u8
    ensures { BitsHeld }
{
    0
}

// Placed words below q decide no answer and no mark.
pub fn words_decide_nothing() -> u8
    ensures { WordsDecideNothing }
{
    0
}

// So it is for every list of calls on a new file.
pub fn lists_are_right() -> u8
    ensures { EveryList }
{
    0
}

// Where no gate is called, it is so with nothing asked of gates.
pub fn lists_without_gates() -> u8
    ensures { EveryGateless }
{
    0
}

// A list of orders does what its orders do as single calls, up to the first that is refused.
pub fn orders_are_calls() -> u8
    ensures { AllOrdersAreCalls }
{
    0
}
