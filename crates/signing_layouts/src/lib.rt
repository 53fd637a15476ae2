// The layout tests behind R7: whether an order is one of the two that decisions make.
#![tactic(auto)]

ghost use Rattle.std.specs.Prelude.{◌≡◌};
ghost use Rattle.signing_stated.specs.Orders.{is_register_layout, is_authenticate_layout};
ghost use Rattle.signing_stated.specs.Promises.{HasLayout};

use signing_stated::{Head, Kind};

#[tactic(auto, using(signing_stated::proofs::Cases::too_few, signing_stated::proofs::Cases::too_many, signing_stated::proofs::Cases::other_first, signing_stated::proofs::Cases::other_marker, signing_stated::proofs::Cases::register_tail))]
fn is_register(to_sign: usize, block: &[u8; 385]) -> bool
    ensures { result ≡ is_register_layout to_sign block.now }
{
    let bytes: &[u8] = block;
    if to_sign < 130 {
        return false;
    }
    if 385 < to_sign {
        return false;
    }
    if bytes[0] != 0x00 {
        return false;
    }
    if bytes[to_sign - 65] != 0x04 {
        return false;
    }
    octets::all_zero(&bytes[to_sign..])
}

fn is_authenticate(to_sign: usize, certificate_length: usize, block: &[u8; 385]) -> bool
    ensures { result ≡ is_authenticate_layout to_sign certificate_length block.now }
{
    let bytes: &[u8] = block;
    if to_sign != 69 {
        return false;
    }
    if 0x01 < bytes[32] {
        return false;
    }
    if !octets::all_zero(&bytes[69..]) {
        return false;
    }
    certificate_length == 0
}

// An order is whatever the caller hands in, so its layout is looked at before a byte of it is used.
#[tactic(auto, using(signing_stated::proofs::Cases::register_judged, signing_stated::proofs::Cases::authenticate_judged))]
pub fn has_layout(order: Head, block: &[u8; 385]) -> bool
    ensures { HasLayout order block.now result }
{
    let kind = order.kind;
    match kind {
        Kind::Register => is_register(order.to_sign, block),
        Kind::Authenticate => is_authenticate(order.to_sign, order.certificate_length, block),
    }
}
