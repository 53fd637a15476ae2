// What the argument `table` asks for: by each of the two tables of crate apdu_table, the row that fits the frame, with its columns, and what
// the frame says by it; or the status word, and what is wrong with the length and where.
use apdu_table::{NoRow, Row, RowSays};
use outcome::ApduStatusCode;
use program_spell::Status;
use std::io;

fn print_tried(out: &impl Print, tried: Result<Row, NoRow>) -> io::Result<()> {
    match tried {
        Ok(row) => print!(out;
            ": row {}, Lc field {}, least Lc {}, Le field {}",
            row.number, row.lc_field, row.lc_least, row.le_field
        ),
        Err(_) => print!(out; ": no row"),
    }
}

fn print_reading(out: &impl Print, reading: Result<RowSays, ApduStatusCode>) -> io::Result<()> {
    match reading {
        Ok(says) => println!(out; ": Lc {}, Le {}", says.lc, says.le),
        Err(status) => println!(out; ": SW {}", Status(status)),
    }
}

// A table's name, and a frame by it.
fn print_table(
    out: &impl Print,
    name: &str,
    tried: Result<Row, NoRow>,
    reading: Result<RowSays, ApduStatusCode>,
) -> io::Result<()> {
    out.print(name)?;
    print_tried(out, tried)?;
    print_reading(out, reading)
}

pub fn print_both(out: &impl Print, frame: &[u8]) -> io::Result<()> {
    let tried = apdu_table::try_rows(&apdu_table::ordinary(), frame);
    print_table(out, "ordinary", tried, apdu_table::read(frame))?;
    let tried = apdu_table::try_rows(&apdu_table::strict(), frame);
    print_table(out, "strict", tried, apdu_table::read_strict(frame))
}
