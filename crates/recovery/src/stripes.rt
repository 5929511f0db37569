// All stripes of a rack: the full one decoded, and the filled levels laid over it, from k - 1 down.
ghost use Rattle.std.specs.Prelude.{◌≡◌, replicate};
ghost use Rattle.layout.specs.Header.{scratch_size};
ghost use Rattle.recovery.specs.RecoveryCall.{answer_of, recovered_words};
ghost use Rattle.recovery.specs.Verdicts.{verdict_of};
ghost use Rattle.recovery.specs.steps.Laying.{stripes_laid};
ghost use Rattle.stripe_decoding.specs.steps.Laying.{LayingFits, laid_size};

use crate::Fault;
use crate::readings::Readings;
use range_laying::Content;

// Lays all stripes, each as its reading has it, and stops at the first one that is refused, which it names. Where they stop the output may hold anything. What
// is left of the scratch is open.
fn lay_each<R: Readings>(
    readings: R,
    content: Content,
    out: &mut [u32],
    scratch: &mut [u32],
) -> Result<(), Fault>
    requires { LayingFits (R.its_header readings) content out.old scratch.old }
    ensures value { verdict_of result ≡ answer_of (stripes_laid (R.its_header readings) content (R.image readings) (R.erasures readings)) }
    ensures out_after { (verdict_of result).number ≡ 0 →
        out.new ≡ recovered_words (stripes_laid (R.its_header readings) content (R.image readings) (R.erasures readings))
        (laid_size (R.its_header readings) content) }
{
    let header = readings.header();
    // `0..=k` was tried: its loop returns after the last turn from inside, and the law of what is left to lay did not close there.
    for level in (0..header.header.k + 1).rev() {
        if header.has_stripe(level) {
            readings
                .lay_stripe(content, level, out, scratch)
                .map_err(|refusal| Fault {
                    refusal,
                    stripe: Some(level),
                })?;
        }
    }
    Ok(())
}

// What all stripes come to: the refusal and the stripe at which they stop, or the words. Where they stop the output is zeros. The scratch is zeros.
pub fn lay_stripes<R: Readings>(
    readings: R,
    content: Content,
    out: &mut [u32],
    scratch: &mut [u32],
) -> Result<(), Fault>
    requires { LayingFits (R.its_header readings) content out.old scratch.old }
    ensures value { verdict_of result ≡ answer_of (stripes_laid (R.its_header readings) content (R.image readings) (R.erasures readings)) }
    ensures out_after { out.new ≡
        recovered_words (stripes_laid (R.its_header readings) content (R.image readings) (R.erasures readings)) (laid_size (R.its_header readings) content) }
    ensures scratch_after { scratch.new ≡ replicate (scratch_size (R.its_header readings)) 0 }
{
    let answer = lay_each(readings, content, out, scratch);
    if answer.is_err() {
        out.fill(0);
    }
    scratch.fill(0);
    answer
}
