// The Le field, read and written: a written 0 stands for the most that the field can say. The rule stands here alone, both ways.
//
//    bytes in the field    they say, as a number    and 0 says
//    1                     1 .. 255                 256
//    2                     1 .. 65535               65536
//    3: 00, then two       1 .. 65535               65536
#![tactic(auto)]

ghost use Rattle.std.specs.Prelude.{◌≡◌, ◌<◌, ◌%◌};
ghost use Rattle.apdu_stated.specs.Table.{le_most, le_read};
ghost use Rattle.apdu_le.specs.Promises.{Fits, Read, Put};

// The most that a field of so many bytes can say: no other line knows these numbers.
#[tactic(auto, using(apdu_stated::proofs::Cases::by_none, apdu_stated::proofs::Cases::by_one, apdu_stated::proofs::Cases::by_more))]
fn most(width: usize) -> u32
    ensures { result ≡ le_most width }
{
    if width == 0 {
        return 0;
    }
    if width == 1 { 256 } else { 65536 }
}

// Reading: what a number says that stands in a field of so many bytes.
#[tactic(auto, using(apdu_stated::proofs::Cases::le_zero, apdu_stated::proofs::Cases::le_given))]
fn said(width: usize, written: u16) -> u32
    ensures { result ≡ le_read width written }
{
    if written == 0 {
        return most(width);
    }
    written as u32
}

// Writing: the number for an Le, the most as 0.
#[tactic(auto, using(crate::proofs::Ways::most_some, crate::proofs::Ways::rest_small, crate::proofs::Ways::rest_of))]
fn written(width: usize, le: u32) -> u16
    requires { 0 < width }
    ensures { result ≡ le % le_most width }
{
    (le % most(width)) as u16
}

// Whether a field of so many bytes can say this Le. Where there is no field, Le is 0.
#[tactic(auto, using(crate::proofs::Ways::fits_zero, crate::proofs::Ways::fits_some))]
pub fn fits(width: usize, le: u32) -> bool
    ensures { Fits width le result }
{
    if le == 0 {
        return width == 0;
    }
    le <= most(width)
}

// What a field of these bytes says. They are taken by place, not from the end: so the compiler sees that shape 8's two are
// those of an extended Lc.
#[tactic(auto, using(crate::proofs::Ways::read_none, crate::proofs::Ways::read_one, crate::proofs::Ways::read_two, crate::proofs::Ways::read_more))]
pub fn read(field: &[u8]) -> u32
    ensures { Read field.now result }
{
    let width = field.len();
    if width == 0 {
        return 0;
    }
    if width == 1 {
        return said(width, octets::pair(0, field[0]));
    }
    if width == 2 {
        return said(width, octets::pair(field[0], field[1]));
    }
    said(width, octets::pair(field[1], field[2]))
}

// Writes a field of so many bytes at the front of out.
#[tactic(auto, using(crate::proofs::Ways::put_none, crate::proofs::Ways::byte_small, crate::proofs::Ways::put_one, crate::proofs::Ways::put_two, crate::proofs::Ways::put_more))]
pub fn put(out: &mut [u8], width: usize, le: u32)
    ensures { Put width le out.old out.new }
{
    if width == 0 {
        return;
    }
    if width == 1 {
        octets::put_byte(out, written(width, le) as u8);
        return;
    }
    let n = written(width, le);
    if width == 2 {
        octets::put_pair(out, n);
        return;
    }
    let [hi, lo] = n.to_be_bytes();
    octets::put(out, &[0, hi, lo]);
}
