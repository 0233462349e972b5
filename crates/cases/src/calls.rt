// The calls that run no instruction, over cells.
use crate::cells::Cells;
use legal::refusal::Refused;
use regs::Machine;

fn put(x: &mut Cells, r: Result<Machine, Refused>) {
    match r {
        Ok(m) => x.put_answer(0, m),
        Err(k) => x.put_answer(k.refusal.number(), k.machine),
    }
}

pub fn deliver(x: &mut Cells, w: &mut [u8]) {
    let r = deliver::deliver(x.machine(), w, x.event());
    put(x, r);
}

pub fn make_valid(x: &mut Cells) {
    let r = valid::make_valid(x.machine(), (x.n % 256) as u8);
    put(x, r);
}
