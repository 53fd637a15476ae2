// Fields one after the other into a lent buffer: the first field is written, and the rest of the buffer is lent for the fields that
// follow. A write stops where the buffer ends, so nothing is asked of the caller.
#![tactic(auto)]

ghost use Rattle.signing_fields.specs.Promises.{PutAll};

#[tactic(auto, using(crate::proofs::Ways::more_put, crate::proofs::Ways::full_put))]
pub fn put_all(out: &mut [u8], fields: &[&[u8]])
    ensures { PutAll fields.now out.old out.new }
{
    let [first, rest @ ..] = fields else {
        return;
    };
    octets::put(out, first);
    let n = first.len();
    if n <= out.len() {
        put_all(&mut out[n..], rest);
    }
}
