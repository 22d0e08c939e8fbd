use std::fmt::Display;

/// Writes one line on standard error: the program, what failed, and why. Where it can't be written nothing else happens.
pub fn tell<R: Eprint, N: Display + Drop>(rt: &R, program: &str, name: N, cause: &str) {
    let _told = eprintln!(rt; "{program}: {name}: {cause}");
}

/// Writes the usage of a program on standard error. Where it can't be written nothing else happens.
pub fn tell_usage<R: Eprint>(rt: &R, usage: &str) {
    let _told = eprint!(rt; "{usage}");
}
