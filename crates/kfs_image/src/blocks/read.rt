//! The bytes of a file, read across its blocks.
ghost use Rattle.std.specs.Prelude.{◌≡◌, ◌+◌, ◌*◌, ◌≤◌, ◌^◌, length, slice_index, EachIndex};
ghost use Rattle.kfs_model.specs.Limits.{block_size};
ghost use Rattle.kfs_model.specs.Device.ShownTree.{file_byte};

use crate::blocks::blocks::FileBlocks;
use kfs_types::BLOCK_LEN;
use std::alloc::Allocator;

impl<A: Allocator> FileBlocks<A> {
    /// Fills the buffer with the file's bytes from position `start` on; they are zero where a block
    /// isn't mapped or was never written. Condition: the buffer ends within the blocks that can be
    /// numbered. Takes no memory.
    pub fn read_bytes(&self, number: u32, start: u64, buffer: &mut [u8])
        requires { start + length buffer.old ≤ 2 ^ 32 * block_size }
        ensures { EachIndex buffer.new (λ k. slice_index buffer.new k ≡ file_byte self.now.placement self.now.devices number (start + k)) }
    {
        let mut near = self.near();
        let mut done = 0;
        while done < buffer.len() {
            let position = start + done as u64;
            let offset = (position % BLOCK_LEN as u64) as usize;
            let count = (BLOCK_LEN - offset).min(buffer.len() - done);
            let block = (position / BLOCK_LEN as u64) as u32;
            self.read(
                &mut near,
                number,
                block,
                offset,
                &mut buffer[done..done + count],
            );
            done += count;
        }
    }
}
