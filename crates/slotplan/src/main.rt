// Prints the schedule and the flows of the plan on standard input, or its refusal.
// No input can pass more than 63 NODEs, 64 FLOWs and END, so its first 1,024 bytes settle every answer: this is the law `read_first` of crate `plan_reader`.
#![tactic(auto)]

fn main(rt: HostRuntime) {
    if !arguments::stands_alone(&rt) {
        io::write_all(2, b"usage: slotplan < PLAN\n");
        return;
    }
    let mut bytes = [0u8; 1024];
    let n = io::read_full(0, &mut bytes);
    printing::print_report(&bytes[..n]);
}
