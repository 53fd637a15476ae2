// Bytes into and out of lent slices: what frames, orders and replies are written and read with.
// Nothing here asks anything of its caller: a write stops where the buffer ends.
#![tactic(auto)]

ghost use Rattle.std.specs.Prelude.{◌≤◌, ◌≡◌, length};
ghost use Rattle.std.specs.List.{fold};
ghost use Rattle.std.specs.Int.Bits.{bit_or};
ghost use Rattle.octets.specs.Bytes.{laid};
ghost use Rattle.octets.specs.Promises.{Wide, Pair, Put, PutByte, PutPair, PutWord, AllZero, Part};

// So many bytes are looked at together.
const RUN: usize = 32;

// A byte as a length.
pub fn wide(b: u8) -> usize
    ensures { Wide b result }
{
    b as usize
}

// Two bytes as a number, the high one first. By hand: by `u16::from_be_bytes` a reading of shape 8 takes 58 instructions for 57, as many
// as the Rust over the bare heap, and one of shape 7 takes 73 for 71.
pub fn pair(hi: u8, lo: u8) -> u16
    ensures { Pair hi lo result }
{
    (hi as u16) * 256 + (lo as u16)
}

// Writes src over the front of dst, where it fits. Byte by byte, which the compiler makes many at a time: a copy from one lent slice to
// another is a call of memmove, since nothing says that they are apart, and a program without a system may have none.
fn lay(dst: &mut [u8], src: &[u8])
    requires { length src.now ≤ length dst.old }
    ensures { dst.new ≡ laid src.now dst.old }
{
    for (i, b) in src.iter().enumerate() {
        dst[i] = *b;
    }
}

// Writes src over the front of dst. Where it fits it goes at its own length, which many callers know: then it is a move or two.
pub fn put(dst: &mut [u8], src: &[u8])
    ensures { Put src.now dst.old dst.new }
{
    let n = src.len();
    let room = dst.len();
    if n <= room {
        lay(dst, src);
    } else {
        lay(dst, &src[..room]);
    }
}

// Writes one byte at the front of dst.
#[tactic(auto, using(crate::proofs::Laid::laid_one, crate::proofs::Laid::laid_no_room))]
pub fn put_byte(dst: &mut [u8], b: u8)
    ensures { PutByte b dst.old dst.new }
{
    if 0 < dst.len() {
        dst[0] = b;
    }
}

// Writes a number of two bytes at the front of dst, the high byte first.
pub fn put_pair(dst: &mut [u8], n: u16)
    ensures { PutPair n dst.old dst.new }
{
    put(dst, &n.to_be_bytes());
}

// Writes a number of four bytes at the front of dst, the high byte first.
pub fn put_word(dst: &mut [u8], n: u32)
    ensures { PutWord n dst.old dst.new }
{
    put(dst, &n.to_be_bytes());
}

// The bytes or-ed together: 0 where each is. There is no way out before the end, as `all` has one, so the compiler takes many at a time.
fn joined(s: &[u8]) -> u8
    ensures { result ≡ fold bit_or 0 s.now }
{
    s.iter().fold(0, |bits, b| bits | *b)
}

// Whether every byte is 0. Looked at in whole runs, the last one apart: nothing is left to go through byte by byte.
#[tactic(auto, using(crate::proofs::Zeros::short, crate::proofs::Zeros::last_not, crate::proofs::Zeros::whole_runs))]
pub fn all_zero(s: &[u8]) -> bool
    ensures { AllZero s.now result }
{
    let n = s.len();
    if n < RUN {
        return joined(s) == 0;
    }
    if joined(&s[n - RUN..]) != 0 {
        return false;
    }
    joined(&s[..n / RUN * RUN]) == 0
}

// The bytes from start up to and without end, as a part of s; none where there are no such bytes.
#[tactic(auto, using(crate::proofs::Between::part_nowhere, crate::proofs::Between::part_within))]
pub fn part(s: &[u8], start: usize, end: usize) -> &[u8]
    ensures { Part s.now start end result.now }
{
    match s.get(start..end) {
        Some(found) => found,
        None => &s[..0],
    }
}
