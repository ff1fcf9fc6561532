// Reads a grammar image from standard input and prints the grammar, production by production, or where its first bad record stands.
// A first bad record never stands beyond byte 1,541, the size of the longest image, so that the first 4,096 bytes decide.
#![tactic(auto)]

use grammar::{BadRecord, Head};
use std::io;

const MAX_INPUT: usize = 4096;

// A line for the head, and for each production its number, its left side and its body.
fn print_grammar(rt: &impl Print, head: Head, rows: &[u8; grammar::ROWS_SIZE]) -> io::Result<()> {
    println!(rt;
        "grammar {} {} {} {}",
        head.t, head.n, head.start, head.count
    )?;
    for p in 0..head.count {
        print!(rt; "{} {}", p + 1, grammar::left_at(rows, p))?;
        for j in 0..grammar::length_at(rows, p) {
            print!(rt; " {}", grammar::symbol_at(rows, p, j))?;
        }
        println!(rt)?;
    }
    Ok(())
}

fn main(rt: HostRuntime) -> io::Result<()> {
    let mut image = [0u8; MAX_INPUT];
    let n = streams::read_full(&mut rt.stdin(), &mut image)?;
    let mut rows = [0u8; grammar::ROWS_SIZE];
    match grammar::read_grammar(&image[..n], &mut rows) {
        Ok(head) => print_grammar(&rt, head, &rows),
        Err(BadRecord { offset }) => println!(&rt; "refused 1 {offset}"),
    }
}
