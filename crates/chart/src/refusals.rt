// A plan that is refused: which check of 01 refused it, where, and what that means to a planner.
use crate::page::{print_head, print_tail, print_with};
use chart_panels::put_parent;
use rulings::{Fault, Refusal};
use text::Page;

fn put_place(page: &mut Page, refusal: Refusal) {
    let place = refusal.place as u64;
    match refusal.fault {
        Fault::Crowded => put_parent(page, refusal.place),
        Fault::AboveCapacity => page.put_field(b"on link ", place),
        Fault::AboveDeadline => page.put_field(b"for flow ", place),
        _ => page.put_field(b"at byte ", place),
    }
}

// An operand whose largest value fills its width has no upper limit to name.
fn put_rule(page: &mut Page, fault: Fault) {
    match fault {
        Fault::CutOff => page.put(b": a command is cut off here, or the plan does not end with FF"),
        Fault::UnknownCommand => page.put(
            b": no command begins with this byte; a node begins with 01, a flow with 02, and FF is the end",
        ),
        Fault::NodeBehindFlow => page.put(b": a node stands behind a flow; all nodes come first"),
        Fault::OutsideLimits => page.put(
            b": a value here is outside its limits (gap 1 to 1024, flow number 0 to 63; capacity, rate and deadline at least 1)",
        ),
        Fault::OutOfPlace => page.put(
            b": the parent or entry node is not one of the nodes before, or the flow number is not above the last",
        ),
        Fault::TooManyNodes => page.put(b": this would be node 64, and a plan has 63 at most"),
        Fault::TooDeep => page.put(b": this node is more than 8 links away from the server"),
        Fault::BytesBehindEnd => page.put(b": something follows behind FF, which ends a plan"),
        Fault::Crowded => page.put(
            b": no base of the slot rule gives every link there its slots; it needs larger gaps or fewer links",
        ),
        Fault::AboveCapacity => page.put(
            b": the flows through this link reserve more than its capacity",
        ),
        Fault::AboveDeadline => page.put(
            b": the periods on its route sum to more than its deadline",
        ),
        _ => {}
    }
}

fn put_refusal(page: &mut Page, refusal: Refusal) {
    page.put_field(
        b"<text class=\"bold\" x=\"24\" y=\"36\" font-size=\"20\">Slot plan</text>\n<text id=\"refused\" x=\"24\" y=\"62\" font-size=\"13\">refused ",
        u64::from(refusal.fault.number()),
    );
    page.put(b" ");
    put_place(page, refusal);
    put_rule(page, refusal.fault);
    page.put(b"</text>\n");
}

pub(crate) fn print_refusal(refusal: Refusal) {
    print_head(1000, 80);
    print_with(|page| put_refusal(page, refusal));
    print_tail();
}
