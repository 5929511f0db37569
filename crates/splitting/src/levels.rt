// The lowest filled level taken apart. Its words are the code of its blocks, so that no block has to be coded anew: unmixing them gives the level below it and
// the rest, which is unmixed in turn. Each pass stores what it gives where it is to stand, so that the words are gone through once.
ghost use Rattle.std.specs.Prelude.{◌≡◌, List, ℕ, ◌++◌, ◌+◌, ◌*◌, ◌^◌, ◌≤◌, ◌<◌, length, take, drop, replicate, get_or};
ghost use Rattle.field.specs.Field.{fermat, root_of};
ghost use Rattle.field.specs.Power.{inverse};
ghost use Rattle.field.specs.Words.{Words};
ghost use Rattle.code.specs.Rows.{Column};
ghost use Rattle.code.specs.Stripe.{coded_stripe};
ghost use Rattle.layout.specs.Header.{width, log_size, level_at, stripe_size, stripe_of};
ghost use Rattle.store.specs.steps.Writing.{half_start};
ghost use Rattle.splitting.specs.Splitting.{lowest_of, log_before};
ghost use Rattle.splitting.specs.steps.Unfolding.{older, newer, levels_out};

use layout::ValidHeader;
use mixing::direction::{Direction, Unmixing};
use mixing::row_powers::RowPowers;

// X (or Y) of one level out of that of the level above, where the rest is left behind zeros.
fn split_half(to: &mut [u32], part: &mut [u32], width: usize, powers: RowPowers)
    requires to_len { length to.old ≡ powers.rows * width }
    requires part_len { length part.old ≡ powers.rows * width + powers.rows * width }
    requires words { Words fermat.modulus part.old }
    ensures to { to.new ≡ older fermat.modulus 32769 (powers.entry.rows * width) part.old }
    ensures part { part.new ≡
        replicate (powers.entry.rows * width) 0
        ++ newer fermat.modulus 32769 (get_or powers.entry.table.now powers.entry.step 0) width (powers.entry.rows * width) part.old }
{
    let (low, high) = part.split_at_mut(powers.rows * width);
    crate::rows::split_rows(to, low, high, width, powers);
}

// Both X and Y of one level.
fn split_pair(to: &mut [u32], x: &mut [u32], y: &mut [u32], level: usize, width: usize)
    requires level_bound { level ≤ 10 }
    requires to_len { length to.old ≡ 2 ^ level * width + 2 ^ level * width }
    requires x_len { length x.old ≡ 2 ^ level * width + 2 ^ level * width }
    requires y_len { length y.old ≡ 2 ^ level * width + 2 ^ level * width }
    requires x_words { Words fermat.modulus x.old }
    requires y_words { Words fermat.modulus y.old }
    ensures to { to.new ≡ older fermat.modulus 32769 (2 ^ level * width) x.old ++ older fermat.modulus 32769 (2 ^ level * width) y.old }
    ensures x { x.new ≡
        replicate (2 ^ level * width) 0 ++ newer fermat.modulus 32769 (inverse fermat.modulus (root_of fermat level)) width (2 ^ level * width) x.old }
    ensures y { y.new ≡
        replicate (2 ^ level * width) 0 ++ newer fermat.modulus 32769 (inverse fermat.modulus (root_of fermat level)) width (2 ^ level * width) y.old }
{
    let powers = Unmixing::powers(level);
    let (to_x, to_y) = to.split_at_mut(powers.rows * width);
    split_half(to_x, x, width, powers);
    split_half(to_y, y, width, powers);
}

// All levels below, from the top down; each takes the last rows that are left. The row that is left then is the block that is taken back.
fn split_halves(below: &mut [u32], x: &mut [u32], y: &mut [u32], level: usize, width: usize)
    requires level_bound { (level ≤ 9) × (width ≤ 129) }
    requires below_len { length below.old ≡ half_start width level 0 }
    requires x_len { length x.old ≡ 2 ^ level * width }
    requires y_len { length y.old ≡ 2 ^ level * width }
    requires x_words { Words fermat.modulus x.old }
    requires y_words { Words fermat.modulus y.old }
    ensures below { below.new ≡ levels_out fermat.modulus 32769 (λ l. inverse fermat.modulus (root_of fermat l)) width level x.old y.old }
    ensures x { x.new ≡ replicate (2 ^ level * width) 0 }
    ensures y { y.new ≡ replicate (2 ^ level * width) 0 }
{
    for l in (0..level).rev() {
        let from = x.len() - code::number::two_to(l + 1) * width;
        let start = store::writing::half_at(l, 0, width);
        let end = store::writing::half_at(l + 1, 0, width);
        split_pair(
            &mut below[start..end],
            &mut x[from..],
            &mut y[from..],
            l,
            width,
        );
    }
    let last = x.len() - width;
    x[last..].fill(0);
    y[last..].fill(0);
}

// All levels below out of a level, which is cleared.
fn split_level(below: &mut [u32], part: &mut [u32], level: usize, width: usize)
    requires level_bound { (level ≤ 9) × (width ≤ 129) }
    requires below_len { length below.old ≡ half_start width level 0 }
    requires part_len { length part.old ≡ 2 ^ level * width + 2 ^ level * width }
    requires words { Words fermat.modulus part.old }
    ensures below { below.new ≡
        levels_out fermat.modulus 32769 (λ l. inverse fermat.modulus (root_of fermat l)) width level
        (take (2 ^ level * width) part.old) (drop (2 ^ level * width) part.old) }
    ensures part { part.new ≡ replicate (2 ^ level * width) 0 ++ replicate (2 ^ level * width) 0 }
{
    let (x, y) = part.split_at_mut(code::number::two_to(level) * width);
    split_halves(below, x, y, level, width);
}

// Takes the lowest filled level apart: where its words are the code of some blocks, the log is then that of one write less.
pub fn split_lowest(header: ValidHeader, log: &mut [u32], level: usize)
    requires some { 0 < header.header.c }
    requires level_is { level ≡ lowest_of header.header }
    requires log_len { length log.old ≡ log_size header.header }
    requires words { Words fermat.modulus (take (stripe_size header.header level) (drop (level_at header.header level) log.old)) }
    ensures { (blocks : List ℕ) → Column fermat.modulus (2 ^ level * width header.header) blocks →
        take (stripe_size header.header level) (drop (level_at header.header level) log.old) ≡ coded_stripe (stripe_of header.header level) blocks →
        log.new ≡ log_before header.header log.old level blocks }
{
    let width = header.width();
    let start = store::writing::half_at(level, 0, width);
    let end = store::writing::half_at(level + 1, 0, width);
    let (below, rest) = log.split_at_mut(start);
    split_level(below, &mut rest[..end - start], level, width);
}
