// Prints the plan on standard input as lines that `assemble` turns into the same bytes, or its refusal.
// The first 1,024 bytes of an input settle every answer: the law `read_first` of crate `plan_reader`.
#![tactic(auto)]

fn main(rt: HostRuntime) {
    if !arguments::stands_alone(&rt) {
        io::write_all(2, b"usage: listing < PLAN > TEXT\n");
        return;
    }
    let mut bytes = [0u8; 1024];
    let n = io::read_full(0, &mut bytes);
    printing::print_listing(&bytes[..n]);
}
