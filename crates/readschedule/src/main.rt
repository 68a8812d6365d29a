// Prints when each link of the schedule file on standard input sends, or its refusal.
// No input can pass more than 63 LINKs and END, so its first 1,024 bytes settle every answer: this is the law `schedule_first` of crate `schedule_reader`.
#![tactic(auto)]

fn main(rt: HostRuntime) {
    if !arguments::stands_alone(&rt) {
        io::write_all(2, b"usage: readschedule < SCHEDULE\n");
        return;
    }
    let mut bytes = [0u8; 1024];
    let n = io::read_full(0, &mut bytes);
    printing::print_schedule(&bytes[..n]);
}
