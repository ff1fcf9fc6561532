// Bytes and runs of bytes. A read beyond the end gives 0, and `copy` writes as much as fits; `two`, `four`, `eight`, `put_two` and `put_eight` ask to stay inside.
#![tactic(auto)]

ghost use Rattle.std.specs.Prelude.{◌≡◌, ◌+◌, ◌*◌, ◌^◌, ◌<◌, ◌≤◌, min, length, drop, set};
ghost use Rattle.base.specs.Bytes.{byte_at, get16 as get16m, get32 as get32m, put16 as put16m, number, le_bytes};
ghost use Rattle.base.specs.Blocks.{zeros, copied};
ghost use Rattle.base.specs.Tells.{Tells};
ghost use Rattle.base.specs.Written.{get64, Eight};

// The byte at `at`, 0 beyond the end.
pub fn byte_at(b: &[u8], at: usize) -> usize
    ensures { (result ≡ byte_at b.now at) × (result < 256) }
{
    b.get(at).map_or(0, |x| usize::from(*x))
}

// The first N bytes as a number, little-endian. One function for all widths: `from_le_bytes` is another one for each type.
fn number<const N: usize>(b: &[u8]) -> usize
    requires { N ≤ 8 }
    ensures { (result ≡ number N b.now 0) × (result < 256 ^ N) }
{
    let mut n = 0;
    for i in (0..N).rev() {
        n = 256 * n + byte_at(b, i);
    }
    n
}

// The bytes from `at` on, none beyond the end.
fn rest(b: &[u8], at: usize) -> &[u8]
    ensures { result.now ≡ drop at b.now }
{
    &b[at.min(b.len())..]
}

// The two-byte number at `at`. These names promise what callers' proofs cite; each is one call of `number` or `put`.
pub fn get16(b: &[u8], at: usize) -> usize
    ensures { (result ≡ get16m b.now at) × (result < 65536) }
{
    number::<2>(rest(b, at))
}

// The four-byte number at `at`.
pub fn get32(b: &[u8], at: usize) -> usize
    ensures { (result ≡ get32m b.now at) × (result < 2 ^ 32) }
{
    number::<4>(rest(b, at))
}

// The same inside the bytes: one bound for all, so that they are read or written at once.
pub fn two(b: &[u8], at: usize) -> usize
    requires { at + 2 ≤ length b.now }
    ensures { (result ≡ get16m b.now at) × (result < 65536) }
{
    number::<2>(&b[at..at + 2])
}

pub fn four(b: &[u8], at: usize) -> usize
    requires { at + 4 ≤ length b.now }
    ensures { (result ≡ get32m b.now at) × (result < 2 ^ 32) }
{
    number::<4>(&b[at..at + 4])
}

pub fn eight(b: &[u8], at: usize) -> usize
    requires { at + 8 ≤ length b.now }
    ensures { result ≡ get64 b.now at }
{
    number::<8>(&b[at..at + 8])
}

// Writes the low N bytes of `v` at `at`, little-endian.
fn put<const N: usize>(b: &mut [u8], at: usize, v: usize)
    requires room { at + N ≤ length b.old }
    requires wide { N ≤ 8 }
    ensures { b.new ≡ copied b.old at (le_bytes N v) }
{
    b[at..at + N].copy_from_slice(&v.to_le_bytes()[..N]);
}

pub fn put_two(b: &mut [u8], at: usize, v: usize)
    requires { (at + 2 ≤ length b.old) × (v < 65536) }
    ensures { b.new ≡ put16m b.old at v }
{
    put::<2>(b, at, v);
}

pub fn put_eight(b: &mut [u8], at: usize, v: usize)
    requires { at + 8 ≤ length b.old }
    ensures { Eight b.old at v b.new }
{
    put::<8>(b, at, v);
}

// Writes `src` onto `dst` from `at` on, as much of it as fits. Byte by byte: `copy_from_slice` of a length that is known only at run time has an archive
// for C ask for `memmove`.
pub fn copy(dst: &mut [u8], at: usize, src: &[u8])
    ensures { dst.new ≡ copied dst.old at src.now }
{
    if at < dst.len() {
        let n = src.len().min(dst.len() - at);
        for i in 0..n {
            dst[at + i] = src[i];
        }
    }
}

// Whether the bytes are the same. No way out of the fold, so that it runs on many bytes at once.
pub fn same(a: &[u8], b: &[u8]) -> bool
    ensures { Tells (a.now ≡ b.now) result }
{
    a.len() == b.len() && a.iter().zip(b).fold(0, |bits, (x, y)| bits | (x ^ y)) == 0
}

// Whether the bytes are all 0, by such a fold.
pub fn all_zero(a: &[u8]) -> bool
    ensures { Tells (a.now ≡ zeros (length a.now)) result }
{
    a.iter().fold(0, |bits, x| bits | x) == 0
}
