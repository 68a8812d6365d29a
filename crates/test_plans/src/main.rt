// What `slotplan` prints of each plan file that an argument names.
// `figures.plan` has figures that differ from each other and take two bytes; the flows of `bounds.plan` have bounds below the wanted gaps of their routes;
// `overlong.plan` is longer than the bytes that are read of it; `wired.plan` is a plaza without radio, END alone.
#![tactic(auto)]

// On standard output, so that a plan that is missing is a difference from what is expected.
fn tell_unopened(path: &[u8]) {
    io::write_all(1, b"cannot open ");
    io::write_all(1, path);
    io::write_all(1, b"\n");
}

// The first 1,024 bytes, as `slotplan` takes them.
fn show_plan(rt: &HostRuntime, path: &[u8]) {
    let mut bytes = [0u8; 1024];
    match arguments::read_front(rt, path, &mut bytes) {
        Some(size) => {
            printing::print_report(&bytes[..size]);
        }
        None => tell_unopened(path),
    }
}

// Answers whether there is such an argument. One of more bytes than any path has names no file.
fn show_argument(rt: &HostRuntime, number: usize) -> bool {
    let mut path = io::buffer();
    let Some(length) = arguments::put_word(rt, number, &mut path) else {
        return false;
    };
    show_plan(rt, &path[..length]);
    true
}

fn main(rt: HostRuntime) {
    for number in 1..usize::MAX {
        if !show_argument(&rt, number) {
            break;
        }
    }
}
