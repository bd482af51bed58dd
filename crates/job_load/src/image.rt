//! The memory of a thread at the start.

ghost use Rattle.std.specs.Prelude.{◌≡◌, ◌≤◌, ◌<◌, ◌+◌, ◌^◌, [], ℕ, IfOk, length};
ghost use Rattle.std.specs.List.{AllByRecursion};
ghost use Rattle.job_load.specs.Groups.{ArePlaces, fills_at};
ghost use Rattle.job_load.specs.Images.{IsImage, IsWithin, image_with, laid};
ghost use Rattle.tn_pages.specs.Paged.{filled};

use job_text::job::FillLine;
use std::alloc::{AllocError, Global};
use std::marker::Model;

/// Writes bytes over others.
fn put_at(memory: &mut [u8], start: usize, bytes: &[u8])
    requires { start + length bytes.now ≤ length memory.old }
    ensures { memory.new ≡ laid memory.old start bytes.now }
{
    let place = &mut memory[start..start + bytes.len()];
    place.copy_from_slice(bytes);
}

/// Puts zeros behind the bytes, up to this size.
fn fill_up(bytes: &mut Vec<u8>, size: usize) -> Result<(), AllocError>
    ensures { IfOk result (λ _. bytes.new.items ≡ filled size bytes.old.items) }
{
    if bytes.len() < size {
        bytes.resize(size, 0)?;
    }
    Ok(())
}

/// The front of a thread's memory, which has zeros behind it. A contract sees its bytes.
#[derive(Drop)]
pub(crate) struct Image {
    bytes: Vec<u8>,
}

impl Model for Image {
    ghost use Rattle.std.specs.Prelude.{ℕ, List};

    ghost Value = { List ℕ };

    ghost view = { λ image. image.bytes.items };
}

impl Image {
    pub(crate) fn new(alloc: Global) -> Image
        ensures { result ≡ [] }
    {
        Image {
            bytes: Vec::new(alloc),
        }
    }

    pub(crate) fn as_slice(&self) -> &[u8]
        ensures { result.now ≡ self.now }
    {
        self.bytes.as_slice()
    }

    /// Drops all bytes. The image keeps its room for later bytes.
    fn clear(&mut self)
        ensures { self.new ≡ [] }
    {
        self.bytes.clear();
    }

    /// Writes bytes from an address on.
    fn put(&mut self, address: u32, bytes: &[u8]) -> Result<(), AllocError>
        requires { address + length bytes.now < 2 ^ 33 }
        ensures { IfOk result (λ _. self.new ≡ image_with self.old address bytes.now) }
    {
        let start = address as usize;
        fill_up(&mut self.bytes, start + bytes.len())?;
        put_at(self.bytes.as_mut_slice(), start, bytes);
        Ok(())
    }

    /// Becomes the image of a memory of zeros, of this size, after the fills at these places, in order.
    pub(crate) fn lay(
        &mut self,
        _size: u32,
        fills: &[FillLine],
        places: &[usize],
    ) -> Result<(), AllocError>
        requires places { ArePlaces fills.now places.now }
        requires within { AllByRecursion (IsWithin _size) fills.now }
        ensures { IfOk result (λ _. IsImage _size (fills_at fills.now places.now) self.new) }
    {
        self.clear();
        for place in places {
            let fill = &fills[*place];
            self.put(fill.address, fill.bytes.as_slice())?;
        }
        Ok(())
    }
}
