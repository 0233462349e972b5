// Runs step and run on cases that give each refusal they can give, in its order, and the known steps of document 01 that are to be run:
// standard input has them, as `cases::script` reads them. STEP, RUN, DELIVER and VALID are the calls, over BYTES bytes of memory.
#![tactic(auto)]

use bus::kinds::Event;
use cases::cells::Cells;
use cases::{calls, script};

fn step(x: &mut Cells, w: &mut [u8]) {
    let (refusal, m, e) = match host::step(x.machine(), w) {
        Ok(r) => (0, r.machine, r.event),
        Err(k) => (k.refusal.number(), k.machine, Event::Completed),
    };
    x.put_answer(refusal, m);
    x.put_event(e);
}

fn run(x: &mut Cells, w: &mut [u8]) {
    let (refusal, m, e, steps) = match host::run(x.machine(), w, x.steps) {
        Ok(r) => (0, r.machine, r.event, r.steps),
        Err(k) => (k.refusal.number(), k.machine, Event::Completed, 0),
    };
    x.put_answer(refusal, m);
    x.put_event(e);
    x.steps = steps;
}

fn call(name: &[u8], x: &mut Cells, w: &mut [u8]) -> bool {
    match name {
        b"STEP" => step(x, w),
        b"RUN" => run(x, w),
        b"DELIVER" => calls::deliver(x, w),
        b"VALID" => calls::make_valid(x),
        _ => return false,
    }
    true
}

fn main() {
    let mut text = io::large_buffer();
    let n = io::read_full(0, &mut text);
    let mut w = [0u8; 69632];
    script::run(&text[..n], &mut w, call);
}
