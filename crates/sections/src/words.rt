// The words that the program is started with.
ghost use Rattle.std.specs.Prelude.{◌≤◌, length};

use packet::Pid;
use reader::Form;
use std::env::{Env, FillError};

// The bytes of the longest word.
pub const WORD: usize = 4096;

// What the words ask for.
#[derive(Clone, Copy)]
pub enum Task {
    Help,
    Sections(Words),
}

// The sections of which PID, and how; the file is the number of its word.
#[derive(Clone, Copy)]
pub struct Words {
    pub pid: u16,
    pub form: Form,
    pub all: bool,
    pub hex: bool,
    pub file: Option<usize>,
}

#[derive(Clone, Copy)]
pub enum Fault {
    NoOption,
    NoPid,
    NoForm,
    SecondFile,
    TooLong,
}

// What is wrong with the word of that number.
#[derive(Clone, Copy)]
pub struct Wrong {
    pub at: usize,
    pub fault: Fault,
}

impl Fault {
    fn at(self, at: usize) -> Wrong {
        Wrong { at, fault: self }
    }

    // What is said of the word, behind it; one that is too long has no bytes there.
    pub fn meaning(self) -> &'static str {
        match self {
            Fault::NoOption => ": there is no such option",
            Fault::NoPid => " takes a number from 0 to 8191 (0x1fff)",
            Fault::NoForm => " takes compact, full or once",
            Fault::SecondFile => ": a second file; one is read",
            Fault::TooLong => "a word is longer than 4096 bytes",
        }
    }
}

// Until a word is wrong, or asks for help.
pub fn asked(env: &impl Env) -> Result<Task, Wrong> {
    let mut words = Words {
        pid: Pid::PAT,
        form: Form::Full,
        all: false,
        hex: false,
        file: None,
    };
    let mut room = [0u8; WORD];
    let mut arguments = Arguments { env, at: 0 };
    // Nothing says that the words end: so there is a number of turns, which no run uses up.
    for _ in 0..u64::MAX {
        let Some(word) = arguments.next(&mut room)? else {
            break;
        };
        let at = arguments.at;
        match word {
            b"--pid" => words.pid = arguments.value(&mut room, pid).ok_or(Fault::NoPid.at(at))?,
            b"--form" => words.form = arguments
                .value(&mut room, form)
                .ok_or(Fault::NoForm.at(at))?,
            b"--all" => words.all = true,
            b"--hex" => words.hex = true,
            b"--help" => return Ok(Task::Help),
            [b'-', _, ..] => return Err(Fault::NoOption.at(at)),
            _ if words.file.is_some() => return Err(Fault::SecondFile.at(at)),
            _ => words.file = Some(at),
        }
    }
    Ok(Task::Sections(words))
}

impl Words {
    // The file's name, put into the room; - where none is named.
    pub fn path<'r>(self, env: &impl Env, room: &'r mut [u8]) -> &'r [u8] {
        match self.file {
            Some(at) => word_at(env, at, room),
            None => b"-",
        }
    }
}

// The words, up to the one of that number.
#[derive(Drop)]
struct Arguments<'a, E: Env> {
    env: &'a E,
    at: usize,
}

impl<E: Env> Arguments<'_, E> {
    // The next word, put into the room; none behind the last.
    fn next<'r>(&mut self, room: &'r mut [u8]) -> Result<Option<&'r [u8]>, Wrong> {
        self.at = self.at.saturating_add(1);
        match self.env.arg(self.at, room) {
            Ok(length) => Ok(Some(&room[..length])),
            Err(FillError::NotPresent) => Ok(None),
            Err(FillError::TooLong) => Err(Fault::TooLong.at(self.at)),
        }
    }

    // What the next word is, put into the room, as the value of an option.
    fn value<T, F: Fn(&[u8]) -> Option<T>>(&mut self, room: &mut [u8], read: F) -> Option<T>
        requires { F.IsAlwaysCallable read }
    {
        match self.next(room) {
            Ok(Some(word)) => read(word),
            _ => None,
        }
    }
}

// The word with that number, put into the room; no bytes of one that is too long or not there.
pub fn word_at<'r>(env: &impl Env, at: usize, room: &'r mut [u8]) -> &'r [u8]
    ensures { length result.now ≤ length room.old }
{
    match env.arg(at, room) {
        Ok(length) => &room[..length],
        Err(_) => &[],
    }
}

// (No TryFrom: it would be a public function of the form's own crate.)
fn form(word: &[u8]) -> Option<Form> {
    match word {
        b"compact" => Some(Form::Compact),
        b"full" => Some(Form::Full),
        b"once" => Some(Form::Once),
        _ => None,
    }
}

// Decimal, or 0x and hexadecimal; with no sign.
fn pid(word: &[u8]) -> Option<u16> {
    let text = str::from_utf8(word).ok()?;
    let (digits, radix) = match text.strip_prefix("0x") {
        Some(digits) => (digits, 16),
        None => (text, 10),
    };
    if digits.starts_with('+') {
        return None;
    }
    let pid = u16::from_str_radix(digits, radix).ok()?;
    if pid <= Pid::MAX_VALUE {
        Some(pid)
    } else {
        None
    }
}
