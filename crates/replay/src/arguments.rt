// What stands in a line: words, numbers and bytes, with a blank between two.
ghost use Rattle.std.specs.Prelude.{◌≤◌, ◌<◌, length, IfOk, IfSome};

// What is wrong with a line.
#[derive(Clone, Copy, Debug, PartialEq, Eq)]
pub enum Fault {
    NoCall,
    NoArgument,
    Missing,
    TooMany,
    NoNumber,
    NumberTooLarge,
    NoBytes,
    TooManyBytes,
    NoEnd,
    TooLong,
}

impl Fault {
    pub fn text(self) -> &'static str {
        match self {
            Fault::NoCall => "there is no such call",
            Fault::NoArgument => "there is no such argument",
            Fault::Missing => "an argument is missing",
            Fault::TooMany => "there are too many arguments",
            Fault::NoNumber => "a number is not decimal",
            Fault::NumberTooLarge => "a number is too large",
            Fault::NoBytes => "bytes are not pairs of digits",
            Fault::TooManyBytes => "there are too many bytes",
            Fault::NoEnd => "the line has no end",
            Fault::TooLong => "the line is too long",
        }
    }
}

// The words of a line that are not read yet, if there are any.
#[derive(Clone, Copy)]
pub struct Arguments<'a> {
    rest: Option<&'a [u8]>,
}

impl<'a> Arguments<'a> {
    pub fn of(line: &'a [u8]) -> Arguments<'a> {
        Arguments { rest: Some(line) }
    }

    pub fn word(&mut self) -> Option<&'a [u8]> {
        let rest = self.rest?;
        match rest.iter().position(|letter| *letter == b' ') {
            None => {
                self.rest = None;
                Some(rest)
            }
            Some(end) => {
                self.rest = Some(&rest[end + 1..]);
                Some(&rest[..end])
            }
        }
    }

    // A number that its type holds.
    pub fn number<T: TryFrom<u64>>(&mut self) -> Result<T, Fault>
    where
        T::Error: Drop,
    {
        let digits = self.word().ok_or(Fault::Missing)?;
        T::try_from(decimal(digits)?).map_err(|_| Fault::NumberTooLarge)
    }

    // A number that is 0 or 1.
    pub fn flag(&mut self) -> Result<bool, Fault> {
        match self.number::<u64>()? {
            0 => Ok(false),
            1 => Ok(true),
            _ => Err(Fault::NumberTooLarge),
        }
    }

    // Reads bytes into the room, two digits for each, and answers how many; a - is none. Behind the line's last blank nothing stands.
    pub fn bytes(&mut self, room: &mut [u8]) -> Result<usize, Fault>
        ensures { IfOk result (λ count. count ≤ length room.new) }
    {
        let word = self.word().ok_or(Fault::Missing)?;
        if word.is_empty() && self.rest.is_none() {
            return Err(Fault::Missing);
        }
        if word == b"-".as_slice() {
            return Ok(0);
        }
        let (pairs, odd) = word.as_chunks::<2>();
        for (byte, digits) in room.iter_mut().zip(pairs) {
            *byte = pair(*digits).ok_or(Fault::NoBytes)?;
        }
        if room.len() < word.len().div_ceil(2) {
            return Err(Fault::TooManyBytes);
        }
        if pairs.is_empty() || !odd.is_empty() {
            return Err(Fault::NoBytes);
        }
        Ok(pairs.len())
    }

    // Nothing stands behind what was read.
    pub fn end(self) -> Result<(), Fault> {
        match self.rest {
            None => Ok(()),
            Some(_) => Err(Fault::TooMany),
        }
    }
}

// The number that digits are.
fn decimal(digits: &[u8]) -> Result<u64, Fault> {
    if digits.is_empty() {
        return Err(Fault::NoNumber);
    }
    let mut value = 0u64;
    for letter in digits {
        let digit = char::from(*letter).to_digit(10).ok_or(Fault::NoNumber)?;
        value = value
            .checked_mul(10)
            .and_then(|tens| tens.checked_add(u64::from(digit)))
            .ok_or(Fault::NumberTooLarge)?;
    }
    Ok(value)
}

// The byte that two digits are.
fn pair(digits: [u8; 2]) -> Option<u8> {
    let sixteens = digit(digits[0])?;
    let ones = digit(digits[1])?;
    Some(sixteens * 16 + ones)
}

// The number that a hexadecimal digit is. (`| 0x20` makes a large letter small. With a third range, for large letters, long lines took a seventh more time.)
fn digit(letter: u8) -> Option<u8>
    ensures { IfSome result (λ n. n < 16) }
{
    match letter {
        b'0'..=b'9' => Some(letter - b'0'),
        _ => match letter | 0x20 {
            small @ b'a'..=b'f' => Some(small - b'a' + 10),
            _ => None,
        },
    }
}
