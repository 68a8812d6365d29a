// The counters of a site's flows: nine cells for each flow number.
#![tactic(auto)]

ghost use Rattle.std.specs.Prelude.{◌≡◌, length};
ghost use Rattle.counters.specs.Blocks.{zeros, cleared};

// Sets all cells that are lent to 0.
#[tactic(auto, unfolding(crate::specs::Blocks::zeros))]
pub fn clear(cells: &mut [u32])
    ensures { cells.new ≡ zeros (length cells.old) }
{
    cells.fill(0);
}

// Sets the nine cells of a flow number to 0, if the counters have them. They are lent on from where they stand.
#[tactic(auto, using(crate::proofs::Laws::flow_cleared, crate::proofs::Laws::flow_absent))]
pub fn clear_flow(counters: &mut [u32], number: u8)
    ensures { counters.new ≡ cleared number counters.old }
{
    let at = 9 * number as usize;
    let end = at + 9;
    if end <= counters.len() {
        clear(&mut counters[at..end]);
    }
}
