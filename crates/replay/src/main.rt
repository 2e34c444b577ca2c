// Answers requests, a line for each. README.md beside src/ has the format of requests and answers.
#![tactic(auto)]

mod adaptation_fields;
mod arguments;
mod bodies;
mod calls;
mod crc;
mod gathering;
mod input;
mod kept;
mod line;
mod packets;
mod requests;
mod sections;

use arguments::Fault;
use input::{Input, LINE};
use line::{PAGE, Page};
use requests::Session;
use std::io;

fn main(rt: HostRuntime) -> io::Result<()> {
    let mut input = Input::new(rt.stdin());
    let mut page = [0u8; PAGE];
    let mut session = Session::new(Page::new(rt.stdout(), &mut page));
    answer_all(&mut input, &mut session)
}

// A proved loop has to end, and nothing says that the input does: so there is a number of turns, which no run uses up.
fn answer_all(input: &mut Input, session: &mut Session) -> io::Result<()> {
    for _ in 0..u64::MAX {
        match input.next_line() {
            Some(line) => session.answer_line(line),
            None => {
                session.write()?;
                if input.read_on()? == 0 {
                    return answer_end(input.left(), session);
                }
            }
        }
    }
    Ok(())
}

// The input is over, save so many bytes of a line.
fn answer_end(left: usize, session: &mut Session) -> io::Result<()> {
    if left == 0 {
        return Ok(());
    }
    session.write_last(if left < LINE {
        Fault::NoEnd
    } else {
        Fault::TooLong
    })
}
