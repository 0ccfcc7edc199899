// The mathematics of the gate engine: the contract of each function names a record of laws, and its proof proves them.
#![tactic(auto)]

ghost use Rattle.algebra.specs.RingLaws.{RingLaws};
ghost use Rattle.algebra.specs.WordLaws.{WordLaws};
ghost use Rattle.algebra.specs.TransformLaws.{TransformLaws};
ghost use Rattle.algebra.specs.GadgetLaws.{GadgetLaws};
ghost use Rattle.algebra.specs.RotationLaws.{RotationLaws};
ghost use Rattle.algebra.specs.GateLaws.{GateNoiseLaw};
ghost use Rattle.algebra.specs.SecretLaws.{SecretLaws};
ghost use Rattle.algebra.specs.Example.{ExampleFits};

// Polynomials modulo X^N + 1 form a commutative ring, with bounds on products and values at roots.
pub fn ring_laws() -> u8
    ensures { RingLaws }
{
    0
}

// Words below Q stand for integers modulo Q, and each product of lists of words is one list.
pub fn word_laws() -> u8
    ensures { WordLaws }
{
    0
}

// The values at the odd powers of a root settle a polynomial, and halving its blocks leads to them.
pub fn transform_laws() -> u8
    ensures { TransformLaws }
{
    0
}

// Balanced digits are small and make up the word, and what is taken by a key is right up to its noise.
pub fn gadget_laws() -> u8
    ensures { GadgetLaws }
{
    0
}

// A sweep turns the accumulator under the ring secret by the exponents of the secret's ones, up to its noise.
pub fn rotation_laws() -> u8
    ensures { RotationLaws }
{
    0
}

// A gate answers the right bit with noise at most β, wherever the closing rule holds.
pub fn gate_noise_law() -> u8
    ensures { GateNoiseLaw }
{
    0
}

// Made keys fit, sealed words hold their bit, and words hold one bit only.
pub fn secret_laws() -> u8
    ensures { SecretLaws }
{
    0
}

// Numbers, secrets and keys to which the law of a gate applies.
pub fn example_fits() -> u8
    ensures { ExampleFits }
{
    0
}
