// Runs each public call that runs no instruction on cases that give each refusal it can give, in its order: standard input has them, as
// `cases::script` reads them. DELIVER, VALID, WRITE and READ are the calls, over BYTES bytes of memory.
#![tactic(auto)]

use cases::cells::Cells;
use cases::{calls, script};
use legal::refusal::refused_by;

fn write(x: &mut Cells, w: &mut [u8]) {
    let r = form::write_form(x.machine(), x.frames, w);
    x.refusal = u16::from(refused_by(r));
}

fn read(x: &mut Cells, w: &[u8]) {
    let (refusal, a) = match form::read_form(w) {
        Ok(a) => (0, a),
        Err(u) => (u.refusal.number(), u.restored),
    };
    x.refusal = u16::from(refusal);
    x.frames = a.frames;
}

fn call(name: &[u8], x: &mut Cells, w: &mut [u8]) -> bool {
    match name {
        b"DELIVER" => calls::deliver(x, w),
        b"VALID" => calls::make_valid(x),
        b"WRITE" => write(x, w),
        b"READ" => read(x, w),
        _ => return false,
    }
    true
}

fn main() {
    let mut text = io::large_buffer();
    let n = io::read_full(0, &mut text);
    let mut w = [0u8; 8192];
    script::run(&text[..n], &mut w, call);
}
