use crate::Counted;
use flit_words::NoMemory;
use std::alloc::Global;

/// Loads words of a plain vector, one after the other.
pub(crate) fn loads(alloc: Global, times: u32) -> Result<Counted, NoMemory> {
    let words: Vec<u64> = vec![in alloc; 1; 8]?;
    let mut counted = Counted::default();
    for i in 0..times {
        let word = words.get((i % 3) as usize).copied();
        counted.yes = counted.yes.wrapping_add(word.unwrap_or(0));
        counted.events = counted.events.wrapping_add(1);
    }
    Ok(counted)
}
