// Reads cases from standard input, calls the library's public entries on them, and prints every answer (docs/VECTORS.md).
#![tactic(auto)]

mod called;
mod form;
mod print;

// The descriptors that a process is started with.
const STDIN_FILENO: i32 = 0;

pub(crate) const STDOUT_FILENO: i32 = 1;

// The body of a case whose length is known, and its answer. Answers whether there may be another case.
fn one_body(size: usize) -> bool {
    if 16384 < size {
        print::text(b"too long\n");
        return false;
    }
    let mut body = [0u8; 16384];
    let n = io::read_full(STDIN_FILENO, &mut body[..size]);
    if n < size {
        print::text(b"cut off\n");
        return false;
    }
    called::answer(&body[..size]);
    true
}

// One case: its length, then its body. Answers whether there may be another.
fn one_case() -> bool {
    let mut head = [0u8; 2];
    let n = io::read_full(STDIN_FILENO, &mut head);
    if n == 0 {
        return false;
    }
    if n < 2 {
        print::text(b"cut off\n");
        return false;
    }
    let size = form::word(&head, 0) as usize;
    one_body(size)
}

// Case after case, to the input's end. Nothing says that an input ends, so the cases are counted, up to more than any machine answers.
fn main() {
    for _ in 0..1152921504606846976u64 {
        if !one_case() {
            return;
        }
    }
}
