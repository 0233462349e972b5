// What is written of a case.
pub fn write_letter(b: u8) {
    if b != 0 {
        io::write_all(1, &[b]);
    }
}

pub fn write_name(letters: &[u8]) {
    for b in letters {
        write_letter(*b);
    }
}

pub fn write_unread(name: &[u8]) {
    io::write_all(1, b" unread ");
    write_name(name);
}

// Cases and those that went wrong.
pub fn write_total(cases: u16, word: &[u8], wrong: u16) {
    io::print_decimal(1, u64::from(cases));
    io::write_all(1, word);
    io::print_decimal(1, u64::from(wrong));
    io::write_all(1, b" wrong\n");
}
