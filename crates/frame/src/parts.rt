// What the argument `parts` asks for: the bytes of the frame's data, and of the fields of its command where it has any; or the status word of
// either, and what is wrong with the length and where.
use apdu::Apdu;
use command::U2fCommand;
use program_spell::{Hex, Status};
use std::io;

fn print_fields(out: &impl Print, frame: &[u8], says: Apdu) -> io::Result<()> {
    let challenge = Hex(command::challenge(frame, says));
    let application = Hex(command::application(frame, says));
    print!(out; "\nchallenge {challenge}\napplication {application}")
}

fn print_command(out: &impl Print, frame: &[u8]) -> io::Result<()> {
    match command::read_command(frame) {
        Ok(U2fCommand::Register(says)) => print_fields(out, frame, says),
        Ok(U2fCommand::Authenticate(_, says)) => {
            print_fields(out, frame, says)?;
            print!(out; "\nhandle {}", Hex(command::key_handle(frame, says)))
        }
        Ok(U2fCommand::Version) => Ok(()),
        Ok(U2fCommand::GetResponse) => Ok(()),
        Err(status) => print!(out; "\nno command: SW {}", Status(status)),
    }
}

pub fn print(out: &impl Print, frame: &[u8]) -> io::Result<()> {
    match apdu::read(frame) {
        Ok(says) => {
            print!(out; "data {}", Hex(apdu::data(frame, says)))?;
            print_command(out, frame)?;
        }
        Err(status) => print!(out; "SW {}", Status(status))?,
    }
    println!(out)
}
