// A frame in hex: two digits a byte, of either case, and blanks before and between the bytes as one likes. A remark (#) may follow.
ghost use Rattle.std.specs.Prelude.{◌≡◌, ◌<◌, ◌++◌, IfSome, length};

use crate::find;

fn is_blank(b: u8) -> bool {
    b == b' ' || b == b'\t'
}

// The frame's text in a line, and what stands behind it: a remark, the blanks before that, and a line end of two bytes. None where there is no frame.
pub fn split_frame(line: &[u8]) -> Option<(&[u8], &[u8])>
    ensures whole { IfSome result (λ parts. parts.0.now ++ parts.1.now ≡ line.now) }
    ensures some { IfSome result (λ parts. 0 < length parts.0.now) }
{
    let before = &line[..find(line, 0, b'#')];
    let last = before.iter().rposition(|&b| !is_blank(b) && b != b'\r')?;
    Some(line.split_at(last + 1))
}

// One byte, as its number; none where these are no digits.
fn byte(high: u8, low: u8) -> Option<u8> {
    let sixteens = char::from(high).to_digit(16)?;
    let ones = char::from(low).to_digit(16)?;
    Some((sixteens * 16 + ones) as u8)
}

// The text's bytes, at the front of the space; none where it is no bytes in hex, or more than the space can hold.
pub fn frame_bytes<'a>(text: &[u8], space: &'a mut [u8]) -> Option<&'a [u8]> {
    // no place of either loop: how many bytes are handed out
    let mut n = 0;
    for word in text.split(|&b| is_blank(b)) {
        for digits in word.chunks(2) {
            let &[high, low] = digits else {
                return None;
            };
            *space.get_mut(n)? = byte(high, low)?;
            n += 1;
        }
    }
    space.get(..n)
}
