// The positions of a stripe that survive: how many they are, and whether they are enough, which is test 7.
ghost use Rattle.std.specs.Prelude.{◌≡◌, ◌≤◌, ◌^◌, suc, not, ltb, length};
ghost use Rattle.code.specs.Stripe.{block_count, position_count};
ghost use Rattle.decoder.specs.Decoding.{survivors};

use crate::VaultStripe;

// How many positions are left.
pub fn positions_left(marks: &[bool], level: usize) -> usize
    requires level_bound { level ≤ 15 }
    requires level_in_bounds { 2 ^ suc level ≤ length marks.now }
    ensures { result ≡ length (survivors level marks.now) }
{
    code::number::two_to(level + 1) - decoder::decoding::count_erased(marks, level)
}

// Whether at least half of a stripe's positions survive.
pub fn enough_survive(vault: VaultStripe, marks: &[bool]) -> bool
    requires { position_count vault.valid.stripe ≤ length marks.now }
    ensures { result ≡ not (ltb (length (survivors vault.valid.stripe.level marks.now)) (block_count vault.valid.stripe)) }
{
    decoder::decoding::count_erased(marks, vault.valid.stripe.level) <= vault.valid.block_count()
}
