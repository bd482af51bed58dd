//! Drawing words.
ghost use Rattle.std.specs.Prelude.{◌≡◌, IfOk};
ghost use Rattle.tn_gen.specs.Drawn.{drawn, next_words};

use rand_core::Rng;
use rand_pcg::Lcg64Xsh32;
use std::alloc::{AllocError, Global};

/// The next words of a generator.
fn draw_from<R: Rng>(alloc: Global, rng: &mut R, count: usize) -> Result<Vec<u32>, AllocError>
    ensures { IfOk result (λ words. words.items ≡ next_words count (R.stream rng.old)) }
{
    let mut words = Vec::new(alloc);
    for place in 0..count {
        words.push(rng.next_u32())?;
    }
    Ok(words)
}

/// The first words of the 32-bit PCG generator of this start, in stream 0.
pub fn draw(alloc: Global, start: u32, count: usize) -> Result<Vec<u32>, AllocError>
    ensures { IfOk result (λ words. words.items ≡ drawn start count) }
{
    let mut rng = Lcg64Xsh32::new(u64::from(start), 0);
    draw_from(alloc, &mut rng, count)
}
