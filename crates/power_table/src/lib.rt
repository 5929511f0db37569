// The call that hands out the table of powers (docs/FORMAT.md, section 2), for those who build readers of images.
#![tactic(auto)]

ghost use Rattle.std.specs.Prelude.{◌≡◌};
ghost use Rattle.layout.specs.Refusals.{answer_number};
ghost use Rattle.power_table.specs.PowersCall.{powers_number, powers_leaves};

use layout::Refusal;

// Copies the table. Test 2 (out); a refusal changes nothing.
pub fn powers(out: &mut [u32]) -> Result<(), Refusal>
    ensures value { answer_number result ≡ powers_number out.old }
    ensures out_after { out.new ≡ powers_leaves out.old }
{
    if out.len() != 2048 {
        return Err(Refusal::Length);
    }
    // no `copy_from_slice`: the archive for C would ask for `memcpy`
    layout::words::copy_words(out, code::table_65537::powers());
    Ok(())
}
