// How many slots are shown, and how wide.
ghost use Rattle.std.specs.Prelude.{◌≡◌};
ghost use Rattle.chart_rows.specs.Scale.{slots_shown, slot_width, number_step, spacing, slots_span};

#[tactic(auto, unfolding(crate::specs::Scale::slots_shown))]
pub(crate) fn shown_of(slots: u32) -> u32
    ensures { result ≡ slots_shown slots }
{
    slots.min(128)
}

#[tactic(auto, unfolding(crate::specs::Scale::slot_width))]
pub fn slot_width(slots: u32) -> u32
    ensures { result ≡ slot_width slots }
{
    match slots {
        0..=36 => 28,
        37..=64 => 16,
        _ => 8,
    }
}

#[tactic(auto, unfolding(crate::specs::Scale::number_step))]
pub(crate) fn number_step(slots: u32) -> u32
    ensures { result ≡ number_step slots }
{
    match slots {
        0..=36 => 1,
        37..=64 => 2,
        _ => 4,
    }
}

#[tactic(auto, using(crate::proofs::Laws::Scale::scale_rules), unfolding(crate::specs::Scale::spacing))]
pub fn spacing_of(slots: u32) -> u32
    ensures { result ≡ spacing slots }
{
    slot_width(slots) * number_step(slots)
}

#[tactic(auto, using(crate::proofs::Laws::Scale::scale_rules), unfolding(crate::specs::Scale::slots_span))]
pub fn span_of(slots: u32) -> u32
    ensures { result ≡ slots_span slots }
{
    slot_width(slots) * shown_of(slots)
}
