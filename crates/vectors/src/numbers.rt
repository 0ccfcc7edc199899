use crate::answer::Failure;
use std::alloc::Global;

// The numbers of a text, with one space between them.
pub fn read(heap: Global, text: &str) -> Result<Vec<i64>, Failure> {
    text.split(' ')
        .map(|part| -> Result<i64, Failure> { Ok(part.parse::<i64>()?) })
        .try_collect(heap)
}

// So many words of 32 bits, and no number more.
pub fn list(heap: Global, all: &[i64], count: usize) -> Result<Vec<u32>, Failure> {
    if all.len() != count {
        return Err(Failure::Unknown);
    }
    all.iter()
        .map(|number| -> Result<u32, Failure> { Ok(u32::try_from(*number)?) })
        .try_collect(heap)
}

// N words of 32 bits, and no number more.
pub fn words<const N: usize>(all: &[i64]) -> Result<[u32; N], Failure> {
    if all.len() != N {
        return Err(Failure::Unknown);
    }
    let mut words = [0; N];
    for (word, number) in words.iter_mut().zip(all) {
        *word = u32::try_from(*number)?;
    }
    Ok(words)
}
