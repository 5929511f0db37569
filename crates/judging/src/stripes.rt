// Stripes of a vault, and stripes of which enough survives. What asks for such a stripe takes it by its type.
ghost use Rattle.std.specs.Prelude.{◌≡◌, true, ltb, ◌≤◌, length, MatchOption};
ghost use Rattle.code.specs.Stripe.{block_count, position_count};
ghost use Rattle.decoder.specs.Decoding.{survivors};
ghost use Rattle.layout.specs.Header.{stripe_of};
ghost use Rattle.judging.specs.StripeFits.{StripeFits};
ghost use Rattle.judging.specs.steps.Ready.{Ready};

use code::ValidStripe;
use layout::ValidHeader;

// A stripe that a vault can have: its level is at most k, k at most 10, and a block is its number and 1 to 128 data words.
#[derive(Clone, Copy)]
pub struct VaultStripe {
    pub valid: ValidStripe,
    ghost fits: { StripeFits valid.stripe },
}

// A stripe and the marks of its positions, of which at least half survive.
#[derive(Clone, Copy)]
pub struct ReadyStripe<'a> {
    pub vault: VaultStripe,
    pub marks: &'a [bool],
    ghost ready: { Ready vault.valid.stripe marks.now },
}

impl VaultStripe {
    // A stripe of a header: a level, or k for the full stripe.
    pub fn new(header: ValidHeader, level: usize) -> VaultStripe
        requires { level ≤ header.header.k }
        ensures { result.valid.stripe ≡ stripe_of header.header level }
    {
        let valid = ValidStripe {
            stripe: header.stripe_of(level),
        };
        VaultStripe { valid }
    }
}

impl<'a> ReadyStripe<'a> {
    // Test 7: nothing where too few positions survive.
    pub fn new(vault: VaultStripe, marks: &'a [bool]) -> Option<ReadyStripe<'a>>
        requires { position_count vault.valid.stripe ≤ length marks.now }
        ensures { MatchOption result (ltb (length (survivors vault.valid.stripe.level marks.now)) (block_count vault.valid.stripe) ≡ true)
            (λ r. (r.vault.valid.stripe ≡ vault.valid.stripe) × (r.marks.now ≡ marks.now)) }
    {
        if crate::counting::enough_survive(vault, marks) {
            Some(ReadyStripe { vault, marks })
        } else {
            None
        }
    }
}
