use crate::maker::Secrets;
use set::numbers::Numbers;

// A small set for a paired sweep. Its noise bound 4 is the least that it closes at.
pub const TOY: Numbers = Numbers {
    degree: 64,
    dimension: 8,
    small: 128,
    modulus: 2013265921,
    root: 397765732,
    dropped: 2048,
    base: 16,
    digits: 5,
    noise: 1,
    weight: 32,
    ones: 4,
    switch: 1048576,
    radix: 32,
    places: 4,
    jitter: 1,
    bound: 4,
};

// What the keys are made for.
pub const SECRETS: Secrets<'static> = Secrets {
    f: &RING_SECRET,
    inverse: &INVERSE,
    s: &SMALL_SECRET,
};

// The ring secret, of the full weight.
const RING_SECRET: [i32; 64] = [
    0, 0, 1, -1, 1, 1, -1, 1, 0, 1, 0, 0, 0, -1, 1, 1, 0, 0, 0, 0, 0, 0, 0, 1, 0, 1, 1, 1, 0, 0, 0,
    0, -1, 0, -1, -1, -1, -1, -1, 1, 0, -1, 0, 0, 0, 0, -1, 1, 0, 0, 0, -1, -1, 0, 0, 0, 0, 1, -1,
    1, -1, 0, 1, -1,
];

// The inverse of the ring secret.
const INVERSE: [u32; 64] = [
    394644760, 1439915622, 1285004484, 1039202949, 924236046, 638433961, 1276855429, 281509962,
    1630526695, 139426896, 1348626814, 825923478, 1623878215, 899610257, 540399062, 894096805,
    1705904822, 939755559, 1028752585, 438890493, 488865153, 1287638763, 1860061703, 1336318451,
    172819883, 435214838, 1574684664, 1710019795, 1084173457, 1704819969, 1957554016, 808183933,
    362804792, 91192633, 1070820618, 1997433304, 1814422580, 1896763868, 1309893442, 1021098604,
    956560031, 1177493399, 1374564137, 238076827, 1480249486, 1504531833, 1777473516, 1441062546,
    1392817296, 1812170573, 1899057871, 1352693688, 645929627, 1360794586, 875371442, 1648409524,
    41746674, 1926890790, 1364217691, 450361997, 1294786363, 312408988, 1936098429, 1194483989,
];

// The small secret, of the full weight: its pairs are 1 1, 0 0, 0 1 and 1 0.
const SMALL_SECRET: [i32; 8] = [1, 1, 0, 0, 0, 1, 1, 0];
