// The converter of recordings: frames of the old form, an extended Lc with a one-byte Le, become shape 7, or shape 8 where Lc is 0; a frame of
// any shape comes back as it is. The old form is read by the row that the table has lost (convert_stated's specs/Converting.antt).
#![tactic(auto)]

ghost use Rattle.std.specs.Prelude.{◌≤◌, ◌≡◌, [], ◌∷◌};
ghost use Rattle.apdu_stated.specs.Reading.{read_of};
ghost use Rattle.apdu_stated.specs.Writing.{writing_of};
ghost use Rattle.apdu_table_stated.specs.Rows.{columns_of};
ghost use Rattle.apdu_table_stated.specs.Answers.{table_reading_of, row_says_of};
ghost use Rattle.convert_stated.specs.Converting.{old_row, old_of, new_shape, new_parts, copied, kept_by};
ghost use Rattle.convert_stated.specs.Promises.{OldFormTold, Leaves, Convert};

use apdu::Case;
use apdu_table::RowSays;
use outcome::{ApduStatusCode, NotDone, Refusal};

// A row of a table, as apdu_table::read_rows takes it.
const OLD: [[u8; 4]; 1] = [
    [6, 3, 0, 1], // 6 | Lc3DataLe1 | 00, Lc (2), data, Le (1) | Lc 0..65535
];

fn old_row() -> [[u8; 4]; 1]
    ensures { result ≡ columns_of old_row ∷ [] }
{
    OLD
}

// What a frame says by that row.
fn old(frame: &[u8]) -> Result<RowSays, ApduStatusCode>
    ensures { table_reading_of result ≡ old_of frame.now }
{
    let table = old_row();
    apdu_table::read_rows(&table, frame)
}

// Whether a frame is of the old form.
pub fn is_old(frame: &[u8]) -> bool
    ensures { OldFormTold frame.now result }
{
    old(frame).is_ok()
}

fn new_shape(lc: u16) -> Case
    ensures { result ≡ new_shape lc }
{
    if lc == 0 { Case::Le3 } else { Case::Lc3DataLe2 }
}

// Writes a frame of the old form anew.
#[tactic(auto, unfolding(apdu_stated::specs::Reading::data_of))]
fn renew(frame: &[u8], said: RowSays, out: &mut [u8]) -> Result<usize, NotDone>
    ensures { Leaves (writing_of (new_parts frame.now (row_says_of said)) out.old) result out.new }
{
    let start = said.start as usize;
    let content = octets::part(frame, start, start + (said.lc as usize));
    Ok(apdu::write(said.header, new_shape(said.lc), content, said.le, out)?)
}

fn copy(frame: &[u8], out: &mut [u8]) -> Result<usize, NotDone>
    ensures { Leaves (copied frame.now out.old) result out.new }
{
    let n = frame.len();
    if out.len() < n {
        return Err(NotDone::Refused(Refusal::R2));
    }
    octets::put(out, frame);
    Ok(n)
}

fn keep(frame: &[u8], out: &mut [u8]) -> Result<usize, NotDone>
    ensures { Leaves (kept_by frame.now (read_of frame.now) out.old) result out.new }
{
    apdu::read(frame)?;
    copy(frame, out)
}

// Writes what the frame becomes at the front of out, and says its length. The reader's status where the frame is in no shape and not of the old
// form; R2 where out is shorter than the result. Neither changes out.
#[tactic(auto, unfolding(convert_stated::specs::Converting::convert_of))]
pub fn convert(frame: &[u8], out: &mut [u8]) -> Result<usize, NotDone>
    ensures { Convert frame.now out.old result out.new }
{
    match old(frame) {
        Ok(said) => renew(frame, said, out),
        Err(_) => keep(frame, out),
    }
}
