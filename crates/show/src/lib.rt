// What the programs print: answers and lists of numbers.
#![tactic(auto)]

use layout::{count_at, entry_queue, queue_at, state_length};
use refusals::Refusal;
use std::io;

// Prints an answer and ends the line: accepted, or the refusal's number and place.
pub fn answer(rt: &impl Print, answer: Result<(), Refusal>) -> io::Result<()> {
    match answer {
        Ok(()) => println!(rt; "accepted"),
        Err(refusal) => println!(rt; "{refusal}"),
    }
}

// Prints a word and the numbers of a list.
pub fn list(rt: &impl Print, word: &[u8], list: &[u32]) -> io::Result<()> {
    rt.write_all(word)?;
    for number in list {
        print!(rt; " {number}")?;
    }
    Ok(())
}

// Prints a word, the vehicles in the cells and queues of a state of n cells, and ends the line; of more than 512 cells, or another length,
// nothing.
pub fn vehicles(rt: &impl Print, word: &[u8], n: usize, state: &[u32]) -> io::Result<()> {
    if 512 < n || state.len() != state_length(n) {
        return Ok(());
    }
    let mut sum = u64::from(entry_queue(state));
    for i in 0..n {
        sum += u64::from(count_at(state, i)) + u64::from(queue_at(n, state, i));
    }
    rt.write_all(word)?;
    println!(rt; "{sum}")
}
