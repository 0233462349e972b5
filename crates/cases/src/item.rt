// An item as far as it has been read: a name, and after a mark a value in hexadecimal capitals.
ghost use Rattle.std.specs.Prelude.{◌≡◌, ◌<◌, IfSome};

// The last eight letters of a name, with zeros before fewer.
#[derive(Clone, Copy)]
pub struct Name {
    last: [u8; 8],
}

impl Name {
    fn with(mut self, b: u8) -> Name {
        self.last.rotate_left(1);
        self.last[7] = b;
        self
    }

    pub fn letters(&self) -> &[u8] {
        match self.last.iter().position(|b| *b != 0) {
            Some(k) => &self.last[k..],
            None => &[],
        }
    }
}

// What an item's mark wants of its value.
#[derive(Clone, Copy, PartialEq, Eq)]
pub enum Mark {
    Set,
    Compare,
}

fn mark_of(b: u8) -> Option<Mark> {
    match b {
        b'=' => Some(Mark::Set),
        b'?' => Some(Mark::Compare),
        _ => None,
    }
}

#[derive(Clone, Copy)]
pub struct Item {
    pub name: Name,
    pub mark: Option<Mark>,
    // The last eight letters as digits, 0 for one that is none.
    pub value: u32,
    // How many letters the value has, and whether all are hexadecimal digits, eight at most.
    pub letters: u8,
    hex: bool,
    // The value as eight flags: those that are 1, and those that are 0 or 1.
    pub ones: u8,
    pub shown: u8,
}

fn digit(b: u8) -> Option<u8>
    ensures { IfSome result (λ d. d < 16) }
{
    match b {
        b'0'..=b'9' => Some(b - b'0'),
        b'A'..=b'F' => Some(b - b'A' + 10),
        _ => None,
    }
}

// The number of two digits.
pub fn byte(high: u8, low: u8) -> Option<u8> {
    let high = digit(high)?;
    let low = digit(low)?;
    Some(high * 16 + low)
}

fn shift_in(x: u8, one: bool) -> u8 {
    x % 128 * 2 + u8::from(one)
}

impl Item {
    pub fn empty() -> Item {
        Item {
            name: Name { last: [0; 8] },
            mark: None,
            value: 0,
            letters: 0,
            hex: true,
            ones: 0,
            shown: 0,
        }
    }

    pub fn letter(mut self, b: u8) -> Item {
        if self.mark.is_some() {
            return self.value_letter(b);
        }
        self.mark = mark_of(b);
        if self.mark.is_none() {
            self.name = self.name.with(b);
        }
        self
    }

    fn value_letter(mut self, b: u8) -> Item {
        let d = digit(b);
        self.value = self.value % 0x10000000 * 16 + u32::from(d.unwrap_or(0));
        self.letters = self.letters.wrapping_add(1);
        self.hex = self.hex & d.is_some() & (self.letters < 9);
        self.ones = shift_in(self.ones, b == b'1');
        self.shown = shift_in(self.shown, (b == b'0') | (b == b'1'));
        self
    }

    pub fn number(self) -> Option<u32>
        ensures { IfSome result (λ v. v ≡ self.value) }
    {
        if self.hex & (self.letters != 0) {
            Some(self.value)
        } else {
            None
        }
    }
}
