// One line of a rehearsal carried out: the call that it makes or the question that it asks, and the text of its answer.
#![tactic(auto)]

ghost use Rattle.std.specs.Prelude.{◌≡◌};
ghost use Rattle.rulings.specs.Outcome.{outcome};
ghost use Rattle.moves.specs.Hops.{own};
ghost use Rattle.text.specs.Page.{Adds, held};
ghost use Rattle.call_text.specs.Lines.{asked_of};
ghost use Rattle.guarantee.specs.Runs.{Promise};
ghost use Rattle.line_answers.specs.Steps.{call_of, question_text, answered_to, CarriedAs};

use judgement::Judged;
use request_text::{Call, Line, Question};
use site::Site;
use text::Page;

// Makes the call on the site and the counters as they are.
pub fn make_call(call: Call, arrivals: &[u16], site: Site, counters: &mut [u32]) -> Judged
    ensures { Promise own (call_of call arrivals.now) (record { site = site; counters = counters.old }) (outcome result.verdict)
        (record { site = result.site; counters = counters.new }) }
{
    match call {
        Call::Start => {
            let verdict = simulation::start(site, counters);
            Judged { verdict, site }
        }
        Call::Slot(number) => {
            let verdict = simulation::slot(site, counters, arrivals, number);
            Judged { verdict, site }
        }
        Call::Admit(flow) => admission::admit(site, counters, flow),
        Call::Release(number) => admission::release(site, counters, number),
    }
}

// Puts the answer to a question.
#[tactic(auto, using(text::proofs::Laws::Put::puts_append), unfolding(text::specs::Put::puts, crate::specs::Steps::question_text))]
pub fn put_answer(page: &mut Page<'_>, question: Question, site: &Site, counters: &[u32])
    ensures { Adds page.old page.new (question_text question site.now counters.now) }
{
    match question {
        Question::Sender(parent, slot) => {
            call_answers::put_lookup(page, sender::sender(*site, parent, slot));
            page.put(b"\n");
        }
        Question::Cells(number) => {
            call_answers::put_cells(page, counters, number);
            page.put(b"\n");
        }
        Question::Bound(number) => {
            call_answers::put_bound(page, site, number);
            page.put(b"\n");
        }
        Question::Plan => {
            call_answers::put_plan(page, site);
            page.put(b"\n");
        }
        Question::Schedule => {
            call_answers::put_schedule(page, site);
            page.put(b"\n");
        }
        Question::Show => site_report::put_site(page, site),
        Question::Typed => plan_listing::put_plan(page, site),
    }
}

// Carries out a line and puts its answer behind what the page holds. Answers the site that is left.
pub fn answer_line(line: &[u8], site: Site, counters: &mut [u32], page: &mut Page<'_>) -> Site
    ensures same_space { page.new.space.ghost_name ≡ page.old.space.ghost_name }
    ensures carried { CarriedAs (answered_to (asked_of line.now) (record { site = site; counters = counters.old }))
        (record { site = result; counters = counters.new }) (held page.old) (held page.new) }
{
    let asked = call_text::read_line(line);
    match asked.line {
        Line::PassedOver => site,
        Line::Makes(call) => {
            let judged = make_call(call, &asked.arrivals, site, counters);
            report_lines::put_verdict(page, judged.verdict);
            page.put(b"\n");
            judged.site
        }
        Line::Asks(question) => {
            put_answer(page, question, &site, counters);
            site
        }
        Line::Malformed => {
            page.put(b"error\n");
            site
        }
    }
}
