// Signing orders and finishing: the bytes to sign and the replies, as FIDO U2F Raw Message Formats lays them out.
//
// Register      to sign: 00 | application (32) | challenge (32) | handle (h) | public key (65)
//               reply:   05 | public key (65) | h | handle (h) | certificate (c) | signature (0 to 72)
// Authenticate  to sign: application (32) | presence | counter (4) | challenge (32)
//               reply:   presence | counter (4) | signature (0 to 72)
//
// The decision makes an order; the signer signs its bytes; finishing turns order and signature into the reply. An order's block is
// the caller's: it is lent in, and its head goes back and forth by value.
#![tactic(auto)]

ghost use Rattle.std.specs.Prelude.{◌+◌, ◌-◌, ◌≤◌, ◌≡◌, true, leb, length, [], ◌∷◌, ◌++◌, replicate};
ghost use Rattle.octets.specs.Bytes.{byte, laid};
ghost use Rattle.signing_stated.specs.Layouts.{presence_byte, register_body, authenticate_body};
ghost use Rattle.signing_stated.specs.Orders.{order_with, blank_order, is_of_layout, register_fields_of, authenticate_fields_of};
ghost use Rattle.signing_stated.specs.Finishing.{room_of, room_needed, body_of, CountsHandle};
ghost use Rattle.signing_stated.specs.Promises.{KindNumber, Blank, RegisterOrder, AuthenticateOrder, HasRegisterRoom, HasAuthenticateRoom, Finish};

use outcome::{ApduStatusCode, NotDone, Refusal};
pub use signing_stated::{Head, Kind};

// 05, public key, h and the longest signature: what a Register reply takes beside handle and certificate.
const REGISTER_FIXED: usize = 139;
// Presence byte, counter and the longest signature.
const AUTHENTICATE_ROOM: usize = 77;
// An ECDSA P-256 signature in DER takes no more.
const LONGEST_SIGNATURE: usize = 72;

// The kind as the INS of its command.
pub fn kind_number(kind: Kind) -> u8
    ensures { KindNumber kind result }
{
    kind as u8
}

// What stands where there is no order: with any block, finishing it is R7.
pub fn blank() -> Head
    ensures { Blank result }
{
    Head {
        kind: Kind::Register,
        to_sign: 0,
        certificate_length: 0,
    }
}

fn unfit(block: &mut [u8; 385]) -> Head
    ensures { order_with result block.new ≡ blank_order }
{
    *block = [0u8; 385];
    blank()
}

// An uncompressed point.
fn public_key(x: &[u8; 32], y: &[u8; 32]) -> [u8; 65]
    ensures { result ≡ laid (0x04 ∷ (x.now ++ y.now)) (replicate 65 0) }
{
    let mut key = [0u8; 65];
    signing_fields::put_all(&mut key, &[&[0x04], x, y]);
    key
}

// The order of a Register. Parts of other lengths give the blank order: nothing half-made leaves this crate. Both orders are calls:
// compiled into the decision, they cost its status words 14 to 81 instructions each.
#[inline(never)]
pub fn register_order<'f>(
    application: &'f [u8],
    challenge: &'f [u8],
    handle: &'f [u8],
    x: &[u8; 32],
    y: &[u8; 32],
    certificate_length: usize,
    block: &mut [u8; 385],
) -> Head
    ensures { RegisterOrder (record {
      application = application.now;
      challenge = challenge.now;
      handle = handle.now;
      x = x.now;
      y = y.now;
    }) certificate_length result block.new }
{
    if application.len() != 32 {
        return unfit(block);
    }
    if challenge.len() != 32 {
        return unfit(block);
    }
    if 255 < handle.len() {
        return unfit(block);
    }
    let key = public_key(x, y);
    *block = [0u8; 385];
    signing_fields::put_all(block, &[&[0x00], application, challenge, handle, &key]);
    Head {
        kind: Kind::Register,
        to_sign: 130 + handle.len(),
        certificate_length,
    }
}

fn presence_byte(present: bool) -> u8
    ensures { result ≡ presence_byte present }
{
    if present { 0x01 } else { 0x00 }
}

// The order of an Authenticate, with the same rule for parts of other lengths.
#[inline(never)]
pub fn authenticate_order(
    application: &[u8],
    challenge: &[u8],
    present: bool,
    counter: u32,
    block: &mut [u8; 385],
) -> Head
    ensures { AuthenticateOrder (record { application = application.now; challenge = challenge.now; present = present; counter = counter }) result block.new }
{
    if application.len() != 32 {
        return unfit(block);
    }
    if challenge.len() != 32 {
        return unfit(block);
    }
    let presence = presence_byte(present);
    let mut count = [0u8; 4];
    octets::put_word(&mut count, counter);
    *block = [0u8; 385];
    signing_fields::put_all(block, &[application, &[presence], &count, challenge]);
    Head {
        kind: Kind::Authenticate,
        to_sign: 69,
        certificate_length: 0,
    }
}

// Whether a buffer of room bytes holds the longest reply to a Register. Tested by subtraction: the sum could wrap.
pub fn has_register_room(room: usize, handle_length: usize, certificate_length: usize) -> bool
    ensures { HasRegisterRoom room handle_length certificate_length result }
{
    if room < REGISTER_FIXED {
        return false;
    }
    let left = room - REGISTER_FIXED;
    if left < handle_length {
        return false;
    }
    certificate_length <= left - handle_length
}

// The same for an Authenticate.
pub fn has_authenticate_room(room: usize) -> bool
    ensures { HasAuthenticateRoom room result }
{
    AUTHENTICATE_ROOM <= room
}

fn has_room(order: Head, room: usize) -> bool
    requires { CountsHandle order.kind order.to_sign }
    ensures { result ≡ leb (room_of order.kind order) room }
{
    let kind = order.kind;
    match kind {
        Kind::Register => has_register_room(room, order.to_sign - 130, order.certificate_length),
        Kind::Authenticate => has_authenticate_room(room),
    }
}

// What stands before the handle in the reply to a Register.
fn register_head(key: &[u8], handle_length: u8) -> [u8; 67]
    ensures { result ≡ laid (0x05 ∷ (key.now ++ handle_length ∷ [])) (replicate 67 0) }
{
    let mut head = [0u8; 67];
    signing_fields::put_all(&mut head, &[&[0x05], key, &[handle_length]]);
    head
}

fn put_register_body<'f>(
    to_sign: usize,
    block: &'f [u8; 385],
    certificate: &'f [u8],
    signature: &'f [u8],
    reply: &mut [u8],
) -> usize
    requires le_to_sign { (130 ≤ to_sign) × (to_sign ≤ 385) × (byte block.now (to_sign - 65) ≡ 0x04) }
    requires signature_in_bounds { 67 + (to_sign - 130) + length certificate.now + length signature.now ≤ length reply.old }
    ensures value { result ≡ length (register_body (register_fields_of to_sign block.now) certificate.now signature.now) }
    ensures reply_after { reply.new ≡ laid (register_body (register_fields_of to_sign block.now) certificate.now signature.now) reply.old }
{
    let h = to_sign - 130;
    let key = to_sign - 65;
    let bytes: &[u8] = block;
    let head = register_head(&bytes[key..to_sign], h as u8);
    signing_fields::put_all(reply, &[&head, &bytes[65..key], certificate, signature]);
    67 + h + certificate.len() + signature.len()
}

fn put_authenticate_body(block: &[u8; 385], signature: &[u8], reply: &mut [u8]) -> usize
    requires { 5 + length signature.now ≤ length reply.old }
    ensures value { result ≡ length (authenticate_body (authenticate_fields_of block.now) signature.now) }
    ensures reply_after { reply.new ≡ laid (authenticate_body (authenticate_fields_of block.now) signature.now) reply.old }
{
    let bytes: &[u8] = block;
    signing_fields::put_all(reply, &[&[bytes[32]], &bytes[33..37], signature]);
    5 + signature.len()
}

fn put_body(
    order: Head,
    block: &[u8; 385],
    certificate: &[u8],
    signature: &[u8],
    reply: &mut [u8],
) -> usize
    requires block_value { is_of_layout (order_with order block.now) ≡ true }
    requires certificate_len { length certificate.now ≡ order.certificate_length }
    requires order_in_bounds { room_of order.kind order ≤ length reply.old }
    requires signature_len_bound { length signature.now ≤ 72 }
    ensures value { result ≡ length (body_of order.kind (order_with order block.now) certificate.now signature.now) }
    ensures reply_after { reply.new ≡ laid (body_of order.kind (order_with order block.now) certificate.now signature.now) reply.old }
{
    let kind = order.kind;
    match kind {
        Kind::Register => put_register_body(order.to_sign, block, certificate, signature, reply),
        Kind::Authenticate => put_authenticate_body(block, signature, reply),
    }
}

// Order and block, certificate, the signer's answer and the reply buffer to the reply. `signed` is false where the signer failed.
// Beside the signature and no Option of it: the C interface has both, and FinishesExactly speaks of a failed signer beside any signature.
pub fn finish(
    order: Head,
    block: &[u8; 385],
    certificate: &[u8],
    signed: bool,
    signature: &[u8],
    reply: &mut [u8],
) -> Result<usize, NotDone>
    ensures { Finish order block.now certificate.now signed signature.now reply.old result reply.new }
{
    if !signing_layouts::has_layout(order, block) {
        return Err(NotDone::Refused(Refusal::R7));
    }
    if certificate.len() != order.certificate_length {
        return Err(NotDone::Refused(Refusal::R4));
    }
    if !has_room(order, reply.len()) {
        return Err(NotDone::Refused(Refusal::R2));
    }
    if !signed {
        return Err(NotDone::Status(ApduStatusCode::InternalException));
    }
    if LONGEST_SIGNATURE < signature.len() {
        return Err(NotDone::Refused(Refusal::R3));
    }
    Ok(put_body(order, block, certificate, signature, reply))
}
