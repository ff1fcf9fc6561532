// Standard input for the programs.
#![tactic(auto)]

ghost use Rattle.std.specs.Prelude.{◌≤◌, ◌<◌, ◌≡◌, ℕ, length, take, IfOk, IfErr};
ghost use Rattle.std.specs.Io.KnownBytes.{Consumes, IsAtEnd};

use std::io::{Read, Result};

// Reads until `buf` is full or the input ends; how many bytes it put at the start of `buf`. Where a read fails it stops with that error, and what
// was read before stands there too, so that no byte is lost.
pub fn read_full<R: Read>(input: &mut R, buf: &mut [u8]) -> Result<usize>
    ensures within { IfOk result (λ n. n ≤ length buf.new) }
    ensures bytes { IfOk result (λ n. Consumes (R.remaining input.old) (R.remaining input.new) (take n buf.new)) }
    ensures whole { IfOk result (λ n. n < length buf.new → IsAtEnd (R.remaining input.new)) }
    ensures err { IfErr result (λ _. (n : ℕ) × (n ≤ length buf.new)
        × Consumes (R.remaining input.old) (R.remaining input.new) (take n buf.new)) }
    ensures len { length buf.new ≡ length buf.old }
{
    let mut done = 0;
    // A `while`: the step is as many bytes as a read gives, which no range counts.
    while done < buf.len() {
        let n = input.read(&mut buf[done..])?;
        if n == 0 {
            break;
        }
        done += n;
    }
    Ok(done)
}
