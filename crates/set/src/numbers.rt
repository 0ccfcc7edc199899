// The sixteen numbers of a set, in their order.
#[derive(Clone, Copy, PartialEq, Eq, Debug)]
pub struct Numbers {
    // N, ring length
    pub degree: u32,
    // n, length of the small secret
    pub dimension: u32,
    // q, small modulus
    pub small: u32,
    // Q, ring modulus
    pub modulus: u32,
    // ψ, ring root
    pub root: u32,
    // P, dropped part
    pub dropped: u32,
    // B, digit base
    pub base: u32,
    // d, digits
    pub digits: u32,
    // E, key noise
    pub noise: u32,
    // F, weight of the ring secret
    pub weight: u32,
    // h, weight of the small secret
    pub ones: u32,
    // M, switch modulus
    pub switch: u32,
    // C, base of the switch
    pub radix: u32,
    // k, digits of the switch
    pub places: u32,
    // Z, noise of the switch
    pub jitter: u32,
    // β, noise bound
    pub bound: u32,
}
