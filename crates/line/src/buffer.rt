// A line as it is written: text at the front of a buffer.
ghost use Rattle.std.specs.Prelude.{◌≡◌, ◌+◌, ◌≤◌, [], length, take, replicate};
ghost use Rattle.pack.specs.Pack.{pasted};

use pack::put_bytes;

// The longest line has 31 bytes.
const ROOM: usize = 32;

#[derive(Clone, Copy)]
pub struct Line {
    pub text: [u8; ROOM],
    pub n: usize,
    pub ghost in_room: { n ≤ 32 },
}

impl Line {
    pub fn new() -> Line
        ensures text { result.text ≡ replicate 32 0 }
        ensures n { result.n ≡ 0 }
    {
        Line {
            text: [0; ROOM],
            n: 0,
        }
    }

    pub fn put(&mut self, s: &[u8])
        requires { self.old.n + length s.now ≤ 32 }
        ensures n { self.new.n ≡ self.old.n + length s.now }
        ensures text { self.new.text ≡ pasted self.old.text self.old.n s.now }
    {
        self.n = put_bytes(&mut self.text, self.n, s);
    }

    pub fn as_slice(&self) -> &[u8]
        ensures { result.now ≡ take self.now.n self.now.text }
    {
        &self.text[..self.n]
    }
}
